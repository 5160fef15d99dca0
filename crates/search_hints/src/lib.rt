// Where in the first run the record of a remainder may stand: a guess, by counts that the lent words keep behind those for merging. For each level they count the
// records that end before each part of the remainders. Whoever uses a guess tests it; no promise rests on these functions, so all that they promise is
// to keep within the lists. (The counts stand at numbers of words in one list, since it is memory that the caller lends.)
#![tactic(auto)]

ghost use Rattle.std.specs.Prelude.{◌≡◌, ◌+◌, ◌<◌, ◌≤◌, true, length};
ghost use Rattle.search_hints.specs.Level.{level_words};

use constraint::Constraint;
use word::{NodeNumber, RECORD, Records, Remainder};

// The most records of the second run.
pub const LONGEST: usize = 512;

// The words for merging, as many as the longest second run has. Behind them stands the number of levels that are counted.
const MERGING: usize = LONGEST * RECORD;

// The bits of a part's number.
const BITS: u32 = 9;

// The parts of a level's remainders.
const PARTS: u32 = 1 << BITS;

// The words of a level: the number of records of the levels before it, the shift from a remainder to its part, and the counts at the ends of the parts.
const LEVEL: usize = PARTS as usize + 3;

// The shift by which a number up to this one becomes a part's.
fn shift(most: u32) -> u32 {
    (32 - BITS).saturating_sub(most.leading_zeros())
}

// Sets the counts of a level whose words begin at a place to 0, and its shift by the greatest remainder.
fn prepare_level(work: &mut [u32], at: usize, most: u32)
    requires { at + level_words ≤ length work.old }
{
    word::fill_from(&mut work[at..at + LEVEL], 0, 0);
    work[at + 1] = shift(most);
}

// Sets the words of each level that a constraint can have, as far as there is room.
pub fn prepare(work: &mut [u32], rests: &[u32])
    ensures { length work.new ≡ length work.old }
{
    for i in 0..Constraint::TERMS {
        let at = MERGING + 1 + i * LEVEL;
        if work.len() < at + LEVEL {
            return;
        }
        if rests.len() <= i + 1 {
            return;
        }
        work[MERGING] = i as u32 + 1;
        prepare_level(work, at, rests[i]);
    }
}

// Adds n to the words from one place up to another.
fn add_to(work: &mut [u32], from: usize, up: usize, n: u32)
    requires { up ≤ length work.old }
{
    if n == 0 {
        return;
    }
    if let Some(part) = work.get_mut(from..up) {
        for w in part {
            *w = w.wrapping_add(n);
        }
    }
}

// Whether record k is there and of the level.
fn of_level(records: Records<'_>, k: NodeNumber, level: u32) -> bool
    ensures { result ≡ true → k.0 < records.entry.count }
{
    k.0 < records.count && records.level(k) == level
}

// Counts in the records of a level, which are those from number k on; the number behind them. They are in order, so n more end before each part between the n-th
// and the next. (A `while`, since it runs on to a record of another level.)
fn count_level(records: Records<'_>, work: &mut [u32], k: usize, level: u32, at: usize) -> usize
    requires { at + level_words ≤ length work.old }
{
    let bits = work[at + 1] % 32;
    let mut e = k;
    let mut n: u32 = 0;
    let mut from = at + 2;
    while of_level(records, NodeNumber(e), level) {
        let up = at + 3 + ((records.upper(NodeNumber(e)) >> bits) % PARTS) as usize;
        add_to(work, from, up, n);
        from = up;
        n = n.wrapping_add(1);
        e += 1;
    }
    add_to(work, from, at + LEVEL, n);
    e
}

// Counts in the records of the second run, which begins at number `main`, and sums up the numbers of records of the levels before each.
pub fn count_run(records: Records<'_>, work: &mut [u32], main: usize)
    ensures { length work.new ≡ length work.old }
{
    if work.len() <= MERGING {
        return;
    }
    let levels = work[MERGING] % 128;
    let mut k = main;
    let mut sum: u32 = 0;
    for i in 0..levels {
        let at = MERGING + 1 + i as usize * LEVEL;
        if work.len() < at + LEVEL {
            return;
        }
        k = count_level(records, work, k, i + 1, at);
        let all = work[at + LEVEL - 1];
        work[at] = sum;
        sum = sum.wrapping_add(all);
    }
}

// Where the remainder may stand among the records of a part, which are those from the one count up to the other behind the start of their level; 0 where these do
// not lie in the run. Many are halved until few are left, by hand as in `search_ordered`.
fn search_part(records: Records<'_>, start: u32, from: u32, up: u32, r: Remainder) -> NodeNumber
    ensures { result.0 ≤ records.entry.count }
{
    if up < from {
        return NodeNumber(0);
    }
    let mut p = start as usize + from as usize;
    let mut left = (up - from) as usize;
    if records.count < p + left {
        return NodeNumber(0);
    }
    while search_ordered::FEW < left {
        let half = left - (left >> 1);
        p = search_ordered::pass(records, p, half, r);
        left -= half;
    }
    NodeNumber(search_ordered::pass_few(records, p, r))
}

// The number of the record of the first run that may hold the remainder.
pub fn guess(run: Records<'_>, work: &[u32], level: u32, r: Remainder) -> NodeNumber
    ensures { result.0 ≤ run.entry.count }
{
    if level == 0 {
        return NodeNumber(0);
    }
    let at = MERGING + 1 + (level - 1) as usize * LEVEL;
    if work.len() < at + LEVEL {
        return NodeNumber(0);
    }
    let x = r.0;
    let part = (x >> (work[at + 1] % 32)) % PARTS;
    let k = at + 2 + part as usize;
    search_part(run, work[at], work[k], work[k + 1], r)
}
