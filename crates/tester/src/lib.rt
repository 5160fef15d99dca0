// The clause tester: value bytes, byte v - 1 for Boolean v, against a clause list.
#![tactic(auto)]

ghost use Rattle.std.specs.Prelude.{◌≡◌, ◌≤◌, length, drop};
ghost use Rattle.word.specs.Gives.{Gives};
ghost use Rattle.clause.specs.Meaning.{literal_of, literal_true, clauses_of};
ghost use Rattle.tester.specs.Tested.{tested_values, value_in, values_from, scan, tested};
ghost use Rattle.clause.specs.Check.{list_from};
ghost use Rattle.tester.specs.Past.{past_end};

use refusal::Refusal;
use word::Variable;

// A clause without a true literal: its number and the place of its first word.
#[derive(Clone, Copy)]
pub struct NotTrue {
    pub clause: usize,
    pub at: usize,
}

// The value of a Boolean: whether its byte is 1. A Boolean without a byte is false.
fn value(values: &[u8], b: Variable) -> bool
    ensures { result ≡ value_in values.now b.0 }
{
    let Some(at) = (b.0 as usize).checked_sub(1) else {
        return false;
    };
    values.get(at).is_some_and(|x| *x == 1)
}

// Whether the literal of a word is true.
fn is_true(values: &[u8], w: u32) -> bool
    ensures { result ≡ literal_true (value_in values.now) (literal_of w) }
{
    value(values, word::boolean_of(w)) != word::is_negated(w)
}

// Refusal 10: a value byte above the greatest that may occur.
pub fn check_values(most: u8, values: &[u8]) -> Result<(), Refusal>
    ensures { result ≡ values_from most 0 values.now }
{
    match values.iter().position(|v| most < *v) {
        None => Ok(()),
        Some(at) => Err(Refusal::ValueByte(at)),
    }
}

// Refusals 11, 12 and 13, word by word, and 14, where the Booleans up to `known` may occur.
pub fn check_list(known: usize, words: &[u32]) -> Result<(), Refusal>
    ensures { result ≡ list_from known 0 0 words.now }
{
    let mut count = 0;
    for (at, w) in words.iter().enumerate() {
        // By the kind's number: by way of an enum made of it the check took up to half as many instructions again.
        let k = word::kind_of(*w);
        if k == 3 {
            if word::payload_of(*w) as usize != count {
                return Err(Refusal::LiteralCount(at));
            }
            count = 0;
            continue;
        }
        if k != 2 {
            return Err(Refusal::ClauseWord(at));
        }
        let b = word::boolean_of(*w).0 as usize;
        if b == 0 || known < b {
            return Err(Refusal::UnknownBoolean(at));
        }
        count += 1;
    }
    if count == 0 {
        Ok(())
    } else {
        Err(Refusal::OpenClause(words.len()))
    }
}

// The least word of kind 3, the end word of an empty clause: just the words from it on end a clause.
pub const LEAST_END: u32 = 0xC0000000;

// The place right after the next end word, from a place on, or the list's length.
pub fn past_end(words: &[u32], from: usize) -> usize
    requires { from ≤ length words.now }
    ensures { result ≡ past_end from (drop from words.now) }
{
    let mut at = from;
    // (By hand: the propagator, whose passes this is part of, took 1.17 of the time with `position` and 1.09 with a `for`, on 3,978 nodes from a random start.)
    'skip: while at < words.len() {
        let w = words[at];
        at += 1;
        if LEAST_END <= w {
            return at;
        }
    }
    at
}

// The first clause without a true literal, or that there is none. An empty clause has no literal, and its first word is its end word. (A
// `for` would be no plainer: how far a turn goes is found on the way.)
fn scan_list(values: &[u8], words: &[u32]) -> Option<NotTrue>
    ensures { result ≡ scan (value_in values.now) 0 0 (clauses_of words.now) }
{
    let mut at = 0;
    let mut clause = 0;
    while let Some(n) = words[at..]
        .iter()
        .position(|w| LEAST_END <= *w || is_true(values, *w))
    {
        if LEAST_END <= words[at + n] {
            return Some(NotTrue { clause, at });
        }
        at = past_end(words, at + n + 1);
        clause += 1;
    }
    None
}

// The reply to value bytes and a clause list: why they cannot be tested, the first clause that is not true, or that all are. The values and the whole list are
// checked before any clause is looked at.
pub fn test(values: &[u8], words: &[u32]) -> Result<Option<NotTrue>, Refusal>
    ensures { Gives tested_values (tested values.now words.now) result }
{
    check_values(1, values)?;
    check_list(values.len(), words)?;
    Ok(scan_list(values, words))
}
