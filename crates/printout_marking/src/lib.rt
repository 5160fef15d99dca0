// The printed line of a marking, from the bytes of a constraint and a hand-in.
#![tactic(auto)]

ghost use Rattle.std.specs.Prelude.{◌≡◌, ◌≤◌, length, take, MatchResult};
ghost use Rattle.text.specs.Cut.{Wrote};
ghost use Rattle.printout_marking.specs.Printed.{most_hand_in_words, wrong_line, answer_text, words_answer, bytes_answer, words_after, Marks};
ghost use Rattle.printout_marking.specs.Parts.{PartOf, NoPart};
ghost use Rattle.printout_marking.specs.declared.Fault.TheVariants.{Refused};

use refusal::Refusal;

// The bytes of a hand-in at most.
const BYTES: usize = 65536;

// The bytes that the program reads: one more than these tells that the input is too long.
pub const READ: usize = BYTES + 1;

// The words of a hand-in at most.
pub const WORDS: usize = BYTES / 4;

// The buffer for the line, which is shorter in every case.
pub const TEXT: usize = 64;

// Why a hand-in is not right: its bytes are too many, their number is wrong, or the marker refuses it.
#[derive(Clone, Copy)]
pub enum Fault {
    TooLong,
    BadLength,
    Refused(Refusal),
}

impl From<Refusal> for Fault {
    ghost from_gives = { λ x fault. fault ≡ Refused x };

    fn from(x: Refusal) -> Fault {
        Fault::Refused(x)
    }
}

// The words that the first word of a list counts, and those that follow; the length is bad where there is no first word, or where it counts more than there are.
fn part_of(words: &[u32]) -> Result<(&[u32], &[u32]), Fault>
    ensures { MatchResult result (λ p. PartOf words.now p.0.now p.1.now) (λ e. NoPart words.now e) }
{
    let [n, rest @ ..] = words else {
        return Err(Fault::BadLength);
    };
    let n = *n as usize;
    if rest.len() < n {
        return Err(Fault::BadLength);
    }
    Ok(rest.split_at(n))
}

// The answer for all words: a counted constraint, a counted table, and the edges.
fn mark_words(words: &[u32]) -> Result<(), Fault>
    ensures { result ≡ words_answer words.now }
{
    let (constraint, rest) = part_of(words)?;
    let (table, edges) = part_of(rest)?;
    marker::mark(constraint, table, edges)?;
    Ok(())
}

// The answer for the bytes of a hand-in; their words are put into the lent list.
fn mark_bytes(input: &[u8], words: &mut [u32]) -> Result<(), Fault>
    requires { most_hand_in_words ≤ length words.old }
    ensures value { result ≡ bytes_answer input.now }
    ensures words_after { words.new ≡ words_after input.now words.old }
{
    if BYTES < input.len() {
        return Err(Fault::TooLong);
    }
    if input.len() % 4 != 0 {
        return Err(Fault::BadLength);
    }
    let n = printout::words_of(input, words);
    mark_words(&words[..n])
}

// The line for a refusal by the marker, at the start of the buffer; the place behind it.
fn put_wrong(x: Refusal, out: &mut [u8]) -> usize
    ensures { Wrote (wrong_line x) 0 out.old out.new result }
{
    let Refusal::BadRecord(k) = x else {
        return printout_lines::put_refusal(x, out);
    };
    let a = text::put_all(out, 0, b"record ");
    let b = text::put_number(out, a, k);
    text::put(out, b, b'\n')
}

// The line for an answer, at the start of the buffer; the place behind it. (Two of its texts are `printout`'s too, for another length there: to share two calls would be
// no plainer.)
fn put_answer(answer: Result<(), Fault>, out: &mut [u8]) -> usize
    ensures { Wrote (answer_text answer) 0 out.old out.new result }
{
    match answer {
        Ok(()) => text::put_all(out, 0, b"right\n"),
        Err(Fault::TooLong) => text::put_all(out, 0, b"too long\n"),
        Err(Fault::BadLength) => text::put_all(out, 0, b"bad length\n"),
        Err(Fault::Refused(x)) => put_wrong(x, out),
    }
}

// Puts the line for the bytes that the program has read at the start of the buffer, and gives its length.
pub fn mark(input: &[u8], words: &mut [u32; WORDS], out: &mut [u8; TEXT]) -> usize
    ensures marks { Marks input.now words.old out.old words.new out.new result }
    ensures upper_bound { (result ≤ length out.new) × (result ≡ length (take result out.new)) }
{
    let answer = mark_bytes(input, &mut words[..]);
    put_answer(answer, &mut out[..])
}
