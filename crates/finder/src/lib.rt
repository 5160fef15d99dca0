// The finder over a flat table of node records.
#![tactic(auto)]

ghost use Rattle.std.specs.Prelude.{◌≡◌, ◌+◌, ◌*◌, ◌<◌, ℕ, List, length, ltb};
ghost use Rattle.word.specs.Gives.{Gives};
ghost use Rattle.word.specs.Record.{Record, records};
ghost use Rattle.finder.specs.Find.{found_values, fields_hold, fields_before, bit_of, find_in, key, ReadBy};

use word::{LOWER, NodeNumber, RECORD, Remainder, UPPER};

// What the finder reads of a record: its level, and the lower and the upper end of its label.
#[derive(Clone, Copy)]
pub struct Fields {
    pub level: u32,
    pub lower: u32,
    pub upper: u32,
}

// Whether a record with these fields is of the wanted level and its label holds the remainder.
pub fn holds(level: u32, lower: u32, upper: u32, wanted: u32, r: Remainder) -> bool
    ensures { result ≡ fields_hold level lower upper wanted r.0 }
{
    level == wanted && lower <= r.0 && r.0 <= upper
}

// A level and a number of its remainders as one number, so that one comparison decides.
pub fn key_of(level: u32, x: u32) -> u64
    ensures { result ≡ key level x }
{
    level as u64 * 4294967296 + x as u64
}

// Whether a record of this level and upper end lies wholly before the remainder at the wanted level.
pub fn below(level: u32, upper: u32, wanted: u32, r: Remainder) -> bool
    ensures { result ≡ ltb (key level upper) (key wanted r.0) }
{
    key_of(level, upper) < key_of(wanted, r.0)
}

// Whether a record with these fields lies before the remainder at the wanted level, as 1 or 0: one comparison of keys tells.
pub fn lies_before(level: u32, upper: u32, wanted: u32, r: Remainder) -> usize
    ensures { result ≡ bit_of (fields_before level upper wanted r.0) }
{
    usize::from(below(level, upper, wanted, r))
}

// The reply on `count` records, whose fields `read` gives by number: the number of the first record of the level whose label holds the remainder; where there is
// none, the gap, which counts the records that lie before the remainder. A record does where its level is smaller than the wanted one, or is that one and its upper
// end is below the remainder. (Level and remainder stay two parameters, here and in the searches: C hands them over apart, and `key_of` makes them one.)
pub fn search<F: Fn(usize) -> Fields>(
    count: usize,
    read: F,
    level: u32,
    r: Remainder,
) -> Result<NodeNumber, usize>
    requires { (k : ℕ) → k < count → F.pre read k }
    ensures { (xs : List Record) → length xs ≡ count → ReadBy (F.post read) xs → result ≡ find_in xs level r.0 }
{
    let mut gap = 0;
    for k in 0..count {
        let x = read(k);
        if holds(x.level, x.lower, x.upper, level, r) {
            return Ok(NodeNumber(k));
        }
        gap += lies_before(x.level, x.upper, level, r);
    }
    Err(gap)
}

// The reply on a flat table, over all its records.
pub fn find(table: &[u32], level: u32, r: Remainder) -> Result<NodeNumber, usize>
    ensures { Gives found_values (find_in (records table.now) level r.0) result }
{
    let read = |k: usize| {
        let b = k * RECORD;
        Fields {
            level: table[b],
            lower: table[b + LOWER],
            upper: table[b + UPPER],
        }
    };
    search(table.len() / RECORD, read, level, r)
}
