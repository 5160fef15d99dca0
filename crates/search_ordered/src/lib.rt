// Records in order at the beginning of a flat table: the finder among them, where the gap is the remainder's place.
#![tactic(auto)]

ghost use Rattle.std.specs.Prelude.{◌≡◌, true, ◌+◌, ◌≤◌, ◌<◌, ltb};
ghost use Rattle.finder.specs.Find.{bit_of, gap_in, find_in, key};
ghost use Rattle.word.specs.Record.{labelled};
ghost use Rattle.search_ordered.specs.Order.{Sorted, Sorted-prop, upper_key, last_below, low_levels, Low, hits};

use finder::{below, holds, key_of};
use word::{NodeNumber, Records, Remainder};

// Records that are in order.
#[derive(Clone, Copy)]
pub struct Ordered<'a> {
    pub records: Records<'a>,
    pub ghost sorted: { Sorted (labelled records.table.now records.count) } by { Sorted-prop (labelled records.table.now records.count) },
}

// Levels are low below this number.
const LOW: u32 = 2147483648;

// How many records are looked at from a guess on, before all are searched.
pub const FEW: usize = 7;

// Whether a is less than b, as a number, 1 or 0, by a difference in place of a branch: what a search compares cannot be foreseen.
fn less_bit(a: u64, b: u64) -> usize
    requires { (a < 9223372036854775808) × (b < 9223372036854775808) }
    ensures { result ≡ bit_of (ltb a b) }
{
    ((b + 9223372036854775807 - a) >> 63) as usize
}

// The key of record k's upper end.
fn upper_key(records: Records<'_>, k: NodeNumber) -> u64
    requires { k.0 < records.count }
    ensures { result ≡ upper_key (labelled records.entry.table.now records.entry.count) k.0 }
{
    key_of(records.level(k), records.upper(k))
}

// Whether record k lies wholly before the remainder at the level.
fn lies_before(records: Records<'_>, k: NodeNumber, level: u32, r: Remainder) -> bool
    requires { k.0 < records.count }
    ensures { result ≡ ltb (upper_key (labelled records.entry.table.now records.entry.count) k.0) (key level r.0) }
{
    below(records.level(k), records.upper(k), level, r)
}

// The gap by halves without branches, where the levels are low. (By hand, here and below: records are five words of a flat table, as C lends it, and no slice that
// the library's search could take.)
fn gap_low(ordered: Ordered<'_>, level: u32, r: Remainder) -> usize
    requires { Low (labelled ordered.records.table.now ordered.records.count) × (level < low_levels) }
    ensures { result ≡ gap_in (labelled ordered.entry.records.table.now ordered.entry.records.count) level r.0 }
{
    let mut p = 0;
    let mut left = ordered.records.count;
    while 0 < left {
        let half = left - (left >> 1);
        let middle = NodeNumber(p + half - 1);
        p += half * less_bit(upper_key(ordered.records, middle), key_of(level, r.0));
        left -= half;
    }
    p
}

// The gap by halves, whatever the levels are.
fn gap_any(ordered: Ordered<'_>, level: u32, r: Remainder) -> usize
    ensures { result ≡ gap_in (labelled ordered.entry.records.table.now ordered.entry.records.count) level r.0 }
{
    let mut lo = 0;
    let mut hi = ordered.records.count;
    while lo < hi {
        let mid = lo + ((hi - lo) >> 1);
        if lies_before(ordered.records, NodeNumber(mid), level, r) {
            lo = mid + 1;
        } else {
            hi = mid;
        }
    }
    lo
}

// Whether the level and those of the records are low: the last tells.
fn low(ordered: Ordered<'_>, level: u32) -> bool
    ensures { result ≡ true → Low (labelled ordered.entry.records.table.now ordered.entry.records.count) × (level < low_levels) }
{
    if LOW <= level {
        return false;
    }
    let count = ordered.records.count;
    if count == 0 {
        return true;
    }
    ordered.records.level(NodeNumber(count - 1)) < LOW
}

// The gap among the records: it is the place of the remainder.
fn gap(ordered: Ordered<'_>, level: u32, r: Remainder) -> usize
    ensures { result ≡ gap_in (labelled ordered.entry.records.table.now ordered.entry.records.count) level r.0 }
{
    if low(ordered, level) {
        return gap_low(ordered, level, r);
    }
    gap_any(ordered, level, r)
}

// Whether there are n records, and the last of them, where n is not 0, lies wholly before the remainder at the level.
fn last_below(records: Records<'_>, n: usize, level: u32, r: Remainder) -> bool
    ensures { result ≡ last_below (labelled records.entry.table.now records.entry.count) level r.0 n }
{
    if n == 0 {
        return true;
    }
    if records.count < n {
        return false;
    }
    lies_before(records, NodeNumber(n - 1), level, r)
}

// Whether record p is there and holds the remainder.
fn hit(records: Records<'_>, p: NodeNumber, level: u32, r: Remainder) -> bool
    ensures { result ≡ hits (labelled records.entry.table.now records.entry.count) level r.0 p.0 }
{
    if p.0 < records.count {
        return holds(
            records.level(p),
            records.lower(p),
            records.upper(p),
            level,
            r,
        );
    }
    false
}

// The finder's reply from the gap, where a record that holds the remainder would stand.
fn found_at(ordered: Ordered<'_>, p: usize, level: u32, r: Remainder) -> Result<NodeNumber, usize>
    requires { p ≡ gap_in (labelled ordered.records.table.now ordered.records.count) level r.0 }
    ensures { result ≡ find_in (labelled ordered.entry.records.table.now ordered.entry.records.count) level r.0 }
{
    if hit(ordered.records, NodeNumber(p), level, r) {
        return Ok(NodeNumber(p));
    }
    Err(p)
}

// Whether the gap among the records is n, as the records on both sides tell.
fn gap_is(ordered: Ordered<'_>, n: usize, level: u32, r: Remainder) -> bool
    ensures { result ≡ true → n ≡ gap_in (labelled ordered.entry.records.table.now ordered.entry.records.count) level r.0 }
{
    if !last_below(ordered.records, n, level, r) {
        return false;
    }
    if ordered.records.count <= n {
        return true;
    }
    !lies_before(ordered.records, NodeNumber(n), level, r)
}

// The gap, whatever the guess is: the guess itself, where the records on both sides tell that it is right.
fn gap_near(ordered: Ordered<'_>, guess: usize, level: u32, r: Remainder) -> usize
    ensures { result ≡ gap_in (labelled ordered.entry.records.table.now ordered.entry.records.count) level r.0 }
{
    if gap_is(ordered, guess, level, r) {
        return guess;
    }
    gap(ordered, level, r)
}

// The finder's reply on the records.
pub fn find_sorted(ordered: Ordered<'_>, level: u32, r: Remainder) -> Result<NodeNumber, usize>
    ensures { result ≡ find_in (labelled ordered.entry.records.table.now ordered.entry.records.count) level r.0 }
{
    let p = gap(ordered, level, r);
    found_at(ordered, p, level, r)
}

// The same reply, whatever the guess is: a record that holds the remainder, and else by way of the gap.
pub fn find_near(
    ordered: Ordered<'_>,
    guess: NodeNumber,
    level: u32,
    r: Remainder,
) -> Result<NodeNumber, usize>
    ensures { result ≡ find_in (labelled ordered.entry.records.table.now ordered.entry.records.count) level r.0 }
{
    if hit(ordered.records, guess, level, r) {
        return Ok(guess);
    }
    let p = gap_near(ordered, guess.0, level, r);
    found_at(ordered, p, level, r)
}

// Whether an upper end lies before the remainder, as 1 or 0.
fn ends_before(upper: u32, r: Remainder) -> usize
    ensures { result ≡ bit_of (ltb upper r.0) }
{
    let x = r.0;
    less_bit(u64::from(upper), u64::from(x))
}

// The number past n records from p on, where the last of them ends before the remainder, and else p; without a branch. Levels are not looked at, so this is a
// guess, and whoever uses it tests it.
pub fn pass(records: Records<'_>, p: usize, n: usize, r: Remainder) -> usize
    requires { (0 < n) × (p + n ≤ records.count) }
    ensures { result ≤ p + n }
{
    p + n * ends_before(records.upper(NodeNumber(p + n - 1)), r)
}

// The number past those of the next few records that end before the remainder, where they are of one level; where fewer are left, the number itself. This is a
// guess as well.
pub fn pass_few(records: Records<'_>, from: usize, r: Remainder) -> usize
    ensures { from ≤ records.entry.count → result ≤ records.entry.count }
{
    if records.count <= from {
        return from;
    }
    if records.count - from < FEW {
        return from;
    }
    let four = pass(records, from, 4, r);
    let six = pass(records, four, 2, r);
    pass(records, six, 1, r)
}

// The number past those of the next few records that lie wholly before the remainder at the level. Past the gap it is the number itself, so this too is a guess.
fn walk(records: Records<'_>, from: usize, level: u32, r: Remainder) -> usize {
    let mut p = from;
    for _ in 0..FEW {
        if records.count <= p {
            return p;
        }
        if !lies_before(records, NodeNumber(p), level, r) {
            return p;
        }
        p += 1;
    }
    p
}

// The same reply, whatever the cursor is: it is where guesses are looked for, and they are tested. It moves to where the search ends, so that the next, for a
// remainder that lies a little further on, is short.
pub fn find_from(
    ordered: Ordered<'_>,
    cursor: &mut NodeNumber,
    level: u32,
    r: Remainder,
) -> Result<NodeNumber, usize>
    ensures { result ≡ find_in (labelled ordered.entry.records.table.now ordered.entry.records.count) level r.0 }
{
    let k = pass_few(ordered.records, cursor.0, r);
    if hit(ordered.records, NodeNumber(k), level, r) {
        *cursor = NodeNumber(k);
        return Ok(NodeNumber(k));
    }
    let q = walk(ordered.records, k, level, r);
    let p = gap_near(ordered, q, level, r);
    *cursor = NodeNumber(p);
    found_at(ordered, p, level, r)
}
