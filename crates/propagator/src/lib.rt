// Unit propagation: from value bytes, byte v - 1 for Boolean v (0 false, 1 true, 2 open), and a clause list, a lent buffer is filled with all that unit propagation
// settles. Passes over the list go in alternating directions, each from where the one before made its last change, until nothing changes. No other memory is used.
#![tactic(auto)]

ghost use Rattle.std.specs.Prelude.{Ok, ◌≡◌, ℕ, ◌+◌, ◌≤◌, ◌<◌, length, drop};
ghost use Rattle.word.specs.Word.{boolean};
ghost use Rattle.refusal.specs.Table.{passed};
ghost use Rattle.clause.specs.Meaning.{literal_of, clauses_of};
ghost use Rattle.tester.specs.Past.{past_end};
ghost use Rattle.propagation.specs.Derived.{byte};
ghost use Rattle.propagation.specs.Propagated.{put_literal, met, propagated};
ghost use Rattle.propagator.specs.Reply.{input_checked, Propagates};
ghost use Rattle.propagator.specs.Pass.{so_far, LiteralWord, Found, LiteralWords, Ended, Met, Asks, Sees, ListPasses, Between, Propagable, StableBefore, StableBehind, changed_at, AfterPass, outcome_of};

use refusal::Refusal;
use tester::LEAST_END;

// What the propagation of input that fits comes to: all is settled that can be, or there is a conflict. (A conflict is an answer here, and no error, as it is within
// a pass: a Result in a Result would be no plainer.)
#[derive(Drop)]
pub enum Propagated {
    Settled,
    Conflict,
}

// A look at a clause: the word of the literal that it asks for, LEAST_END where it asks for nothing and 0 where all its literals are false; and the place that the
// look came to. (As an enum of these three it was tried and proved: its tag beside the word cost up to a half more on long lists.)
#[derive(Drop)]
struct Seen {
    found: u32,
    at: usize,
}

// All literals of some clause are false.
#[derive(Clone, Copy)]
struct Conflict;

// The end words of clauses of two and of three literals.
const END_TWO: u32 = 0xC0000002;

const END_THREE: u32 = 0xC0000003;

// The byte that makes the literal of a word true.
fn true_byte(w: u32) -> u8
    ensures { result ≡ byte (literal_of w).says }
{
    if word::is_negated(w) { 0 } else { 1 }
}

// The open literal that a clause has so far (0 for none, LEAST_END where nothing is left to ask for), after the literal of one word more.
fn meet(found: u32, w: u32, bytes: &[u8]) -> u32
    requires { LiteralWord (length bytes.now) w × Found (length bytes.now) found }
    ensures { (so_far result ≡ met bytes.now (literal_of w) (so_far found)) × Found (length bytes.now) result }
{
    let b = word::boolean_of(w).0 as usize;
    let v = bytes[b - 1];
    if v == true_byte(w) {
        return LEAST_END;
    }
    if v < 2 {
        return found;
    }
    if found == 0 {
        return w;
    }
    if found == w { found } else { LEAST_END }
}

// What two literals from a place on come to; the second is not read where the first leaves nothing to ask for.
fn look_two(words: &[u32], from: usize, bytes: &[u8]) -> u32
    requires { LiteralWords (length bytes.now) words.now from 2 }
    ensures { Met bytes.now words.now from (from + 2) result }
{
    let found = meet(0, words[from], bytes);
    if found == LEAST_END {
        return found;
    }
    meet(found, words[from + 1], bytes)
}

// What three literals from a place on come to. (One function for both would be a loop where this is one line more.)
fn look_three(words: &[u32], from: usize, bytes: &[u8]) -> u32
    requires { LiteralWords (length bytes.now) words.now from 3 }
    ensures { Met bytes.now words.now from (from + 3) result }
{
    let found = look_two(words, from, bytes);
    if found == LEAST_END {
        return found;
    }
    meet(found, words[from + 2], bytes)
}

// What the clause that begins at a place asks for. A clause is left as soon as a true literal or a second open one is met.
// A `for` would be no plainer: the list ends behind an end word, so the loop has no other end. (What these functions ask ties the words to bytes that are written
// between the calls, so it stays in their clauses.)
fn look(words: &[u32], from: usize, bytes: &[u8]) -> Seen
    requires { ListPasses (length bytes.now) words.now × Ended words.now from }
    ensures { Sees bytes.now words.now from result.found result.at }
{
    let mut found = 0;
    let mut at = from;
    'literals: loop {
        let w = words[at];
        if LEAST_END <= w {
            return Seen { found, at };
        }
        found = meet(found, w, bytes);
        if found == LEAST_END {
            return Seen { found, at };
        }
        at += 1;
    }
}

// What the clause that begins at a place asks for, and the place behind it. In a list that passes the check an end word with the count of the words before it ends
// just these, so a clause of two or three literals is known by its end word. Inlined in both passes: with a call for each clause they took 1.3 of the time.
#[inline(always)]
fn next(words: &[u32], from: usize, bytes: &[u8]) -> Seen
    requires { ListPasses (length bytes.now) words.now × Between words.now from × (from < length words.now) }
    ensures { Asks bytes.now words.now from result.found × (result.at ≡ past_end from (drop from words.now)) }
{
    if 3 < words.len() - from {
        if words[from + 3] == END_THREE {
            return Seen {
                found: look_three(words, from, bytes),
                at: from + 4,
            };
        }
        if words[from + 2] == END_TWO {
            return Seen {
                found: look_two(words, from, bytes),
                at: from + 3,
            };
        }
    }
    let l = look(words, from, bytes);
    Seen {
        found: l.found,
        at: tester::past_end(words, l.at),
    }
}

// The literal of a word becomes true.
fn put(w: u32, bytes: &mut [u8])
    requires { (1 ≤ boolean w) × (boolean w ≤ length bytes.old) }
    ensures { bytes.new ≡ put_literal bytes.old (literal_of w) }
{
    let b = word::boolean_of(w).0 as usize;
    bytes[b - 1] = true_byte(w);
}

// The place of a pass's last change, by where the pass began and the place that it had come to with it, which is where it began if there was none.
fn changed_at(began: usize, last: usize) -> Option<usize>
    ensures { result ≡ changed_at began last }
{
    if last == began { None } else { Some(last) }
}

// A pass from a place to the last clause, where no clause before the place asks for anything. It tells the place behind the clause that made the last change, if
// there was one: no clause behind that place asks for anything. A `for` would be no plainer, as clauses take steps of different length.
fn forward(words: &[u32], from: usize, bytes: &mut [u8]) -> Result<Option<usize>, Conflict>
    requires { Propagable words.now bytes.old × StableBefore words.now bytes.old from }
    ensures { AfterPass (StableBehind words.now bytes.new) (clauses_of words.now) bytes.old bytes.new result }
{
    let mut last = from;
    let mut at = from;
    'clauses: while at < words.len() {
        let s = next(words, at, bytes);
        at = s.at;
        let found = s.found;
        if found == LEAST_END {
            continue 'clauses;
        }
        if found == 0 {
            return Err(Conflict);
        }
        put(found, bytes);
        last = at;
    }
    Ok(changed_at(from, last))
}

// A pass from a place back to the first clause, where no clause behind the place asks for anything: an end word tells how many literals stand before it. It tells
// the place where the clause that made the last change begins, if there was one: no clause before that place asks for anything. Its steps differ in length too.
fn backward(words: &[u32], end: usize, bytes: &mut [u8]) -> Result<Option<usize>, Conflict>
    requires { Propagable words.now bytes.old × StableBehind words.now bytes.old end }
    ensures { AfterPass (StableBefore words.now bytes.new) (clauses_of words.now) bytes.old bytes.new result }
{
    let mut last = end;
    let mut at = end;
    'clauses: while 0 < at {
        let end_word = words[at - 1];
        at = at - 1 - word::payload_of(end_word) as usize;
        let s = next(words, at, bytes);
        let found = s.found;
        if found == LEAST_END {
            continue 'clauses;
        }
        if found == 0 {
            return Err(Conflict);
        }
        put(found, bytes);
        last = at;
    }
    Ok(changed_at(end, last))
}

// Passes until nothing changes, or they come upon a conflict.
fn settle(words: &[u32], bytes: &mut [u8]) -> Result<(), Conflict>
    requires { Propagable words.now bytes.old }
    ensures { outcome_of result bytes.new ≡ propagated (clauses_of words.now) bytes.old }
{
    let mut from = 0;
    'passes: loop {
        let Some(end) = forward(words, from, bytes)? else {
            return Ok(());
        };
        let Some(begin) = backward(words, end, bytes)? else {
            return Ok(());
        };
        from = begin;
    }
}

// The place where the clauses of two literals at the front of a list end.
fn head(words: &[u32]) -> usize
    requires { (n : ℕ) × ListPasses n words.now }
    ensures { Between words.now result }
{
    let mut rest = words;
    'clauses: while let [_, _, END_TWO, more @ ..] = rest {
        rest = more;
    }
    words.len() - rest.len()
}

// The clauses of two literals at the front, in an encoder's list the order clauses, are settled first, so that the passes over the whole list begin with them
// settled.
fn settle_all(words: &[u32], bytes: &mut [u8]) -> Result<(), Conflict>
    requires { Propagable words.now bytes.old }
    ensures { outcome_of result bytes.new ≡ propagated (clauses_of words.now) bytes.old }
{
    let k = head(words);
    settle(&words[..k], bytes)?;
    settle(words, bytes)
}

// The starting bytes, copied into the buffer. (By a loop: `copy_from_slice` would have C programs bring a `memmove`.)
fn copy(from: &[u8], to: &mut [u8])
    requires { length to.old ≡ length from.now }
    ensures { to.new ≡ from.now }
{
    for (i, byte) in from.iter().enumerate() {
        to[i] = *byte;
    }
}

// Refusals 10 to 14, and 19 where the buffer's length is not that of the values.
#[tactic(auto, unfolding(crate::specs::Reply::input_checked))]
fn check(values: &[u8], words: &[u32], room: usize) -> Result<(), Refusal>
    ensures { result ≡ input_checked values.now words.now room }
{
    tester::check_values(2, values)?;
    tester::check_list(values.len(), words)?;
    if room == values.len() {
        Ok(())
    } else {
        Err(Refusal::BufferLength)
    }
}

// The buffer filled, for input that passes the checks. The starting bytes are copied, and copied again after a conflict.
fn fill(values: &[u8], words: &[u32], buffer: &mut [u8]) -> Propagated
    requires { input_checked values.now words.now (length buffer.old) ≡ passed }
    ensures { Propagates values.now words.now buffer.old buffer.new (Ok result) }
{
    copy(values, buffer);
    match settle_all(words, buffer) {
        Ok(()) => Propagated::Settled,
        Err(Conflict) => {
            copy(values, buffer);
            Propagated::Conflict
        }
    }
}

// The reply to value bytes and a clause list, and the lent buffer after it. A refusal leaves the buffer as it was.
pub fn propagate(values: &[u8], words: &[u32], buffer: &mut [u8]) -> Result<Propagated, Refusal>
    ensures { Propagates values.now words.now buffer.old buffer.new result }
{
    check(values, words, buffer.len())?;
    Ok(fill(values, words, buffer))
}
