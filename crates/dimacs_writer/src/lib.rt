// A clause list written as DIMACS text into lent bytes.
#![tactic(auto)]

ghost use Rattle.std.specs.Prelude.{◌≡◌, not, leb, length, take, IfOk};
ghost use Rattle.dimacs_text.specs.Reply.{text_reply};
ghost use Rattle.text.specs.Cut.{Wrote};
ghost use Rattle.dimacs_text.specs.Text.{sign};
ghost use Rattle.dimacs_text.specs.Written.{header, word_text, written};
ghost use Rattle.dimacs_writer.specs.Writes.{headed, text_under, Writes};

use refusal::Refusal;
use word::LAST_BOOLEAN;

// The Booleans that a list may name: all that a literal can hold.
const KNOWN: usize = LAST_BOOLEAN as usize;

// The header's bytes besides its numbers: `p cnf `, a space and a newline.
const HEADER: usize = 8;

// The header's two numbers: the greatest Boolean and the clause count.
#[derive(Clone, Copy)]
pub struct Header {
    pub most: u32,
    pub clauses: usize,
}

// The header's numbers, from all the words. (Here and below a kind is held against the format's number 3: all that is asked is whether a word ends a clause.)
fn survey(words: &[u32]) -> Header
    ensures { result ≡ headed words.now }
{
    let mut most = 0;
    let mut clauses = 0;
    for &w in words {
        if word::kind_of(w) == 3 {
            clauses += 1;
        } else {
            most = most.max(word::boolean_of(w).0);
        }
    }
    Header { most, clauses }
}

// How many bytes the text of a word takes.
fn width(w: u32) -> usize
    ensures { result ≡ length (word_text w) }
{
    if word::kind_of(w) == 3 {
        return 2;
    }
    let n = text::digits(word::boolean_of(w).0 as usize) + 1;
    if word::is_negated(w) {
        return n + 1;
    }
    n
}

// Whether the header's line and all the words find room; it stops where one does not.
fn fits(words: &[u32], h: Header, room: usize) -> bool
    ensures { result ≡ leb (length (text_under h words.now)) room }
{
    let first = text::digits(h.most as usize) + text::digits(h.clauses) + HEADER;
    if room < first {
        return false;
    }
    let mut rest = room - first;
    for &w in words {
        let n = width(w);
        if rest < n {
            return false;
        }
        rest -= n;
    }
    true
}

// A minus sign where a literal is negated; the place behind it.
fn put_sign(out: &mut [u8], at: usize, negated: bool) -> usize
    ensures { Wrote (sign (not negated)) at out.old out.new result }
{
    if negated {
        return text::put(out, at, b'-');
    }
    at
}

// The text of a word; the place behind it.
fn put_word(out: &mut [u8], at: usize, w: u32) -> usize
    ensures { Wrote (word_text w) at out.old out.new result }
{
    if word::kind_of(w) == 3 {
        return text::put_all(out, at, b"0\n");
    }
    let a = put_sign(out, at, word::is_negated(w));
    let b = text::put_number(out, a, word::boolean_of(w).0 as usize);
    text::put(out, b, b' ')
}

// The header's line, at the start of the room; the place behind it.
fn put_header(out: &mut [u8], h: Header) -> usize
    ensures { Wrote (header h.most h.clauses) 0 out.old out.new result }
{
    let most = h.most as usize;
    let clauses = h.clauses;
    let a = text::put_all(out, 0, b"p cnf ");
    let b = text::put_number(out, a, most);
    let c = text::put(out, b, b' ');
    let d = text::put_number(out, c, clauses);
    text::put(out, d, b'\n')
}

// The header's line and all the words; the place behind them.
fn put_list(out: &mut [u8], words: &[u32], h: Header) -> usize
    ensures { Wrote (text_under h words.now) 0 out.old out.new result }
{
    let mut at = put_header(out, h);
    for &w in words {
        at = put_word(out, at, w);
    }
    at
}

// The whole text of a list of words, at the start of the room; the place behind it.
pub fn put_text(out: &mut [u8], words: &[u32]) -> usize
    ensures { Wrote (written words.now) 0 out.old out.new result }
{
    let h = survey(words);
    put_list(out, words, h)
}

// The text of a clause list at the start of the room: its length, or why there is none.
fn put_checked(out: &mut [u8], words: &[u32]) -> Result<usize, Refusal>
    ensures reply { result ≡ text_reply words.now (length out.old) }
    ensures front { IfOk result (λ n. (take n out.new ≡ written words.now) × (length (written words.now) ≡ n)) }
    ensures kept { length out.new ≡ length out.old }
{
    tester::check_list(KNOWN, words)?;
    let h = survey(words);
    if !fits(words, h, out.len()) {
        return Err(Refusal::NoRoom);
    }
    Ok(put_list(out, words, h))
}

// Writes a clause list at the start of the room, with zeros behind it, and gives the text's length; a refusal leaves zeros.
pub fn write(words: &[u32], out: &mut [u8]) -> Result<usize, Refusal>
    ensures { Writes words.now out.old out.new result }
{
    let reply = put_checked(out, words);
    word::fill_from(out, reply.unwrap_or(0), 0);
    reply
}
