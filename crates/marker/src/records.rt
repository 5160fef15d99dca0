// The records of a table, each judged by itself: by its number, by its own fields, and by its edges.
ghost use Rattle.std.specs.Prelude.{◌≡◌, suc, ◌+◌, ◌/◌, ◌<◌, pos, length, get_or};
ghost use Rattle.word.specs.Record.{record_words, no_record, records};
ghost use Rattle.constraint.specs.Lent.{levels_of};
ghost use Rattle.marking.specs.Judged.{root_right, place_right, record_right, judged};
ghost use Rattle.marker.specs.Fields.{fields_read, record_in};

use crate::Fields;
use constraint::Levels;
use marker_edges::{Parent, Table};
use refusal::Refusal;
use word::{FIRST, LOWER, NODES, NodeNumber, RECORD, UPPER};

// The fields of record k of the table.
fn read(table: &[u32], k: NodeNumber) -> Fields
    requires { k.0 < length table.now / record_words }
    ensures { result ≡ fields_read (get_or (records table.now) k.0 no_record) }
{
    let at = k.0 * RECORD;
    Fields {
        level: table[at],
        lower: table[at + LOWER],
        upper: table[at + UPPER],
        first: table[at + FIRST],
    }
}

// The place behind the edges of a record, by its first place and its level's domain end; it may lie beyond 32 bits.
fn past_edges(first: u32, end: u32) -> usize
    ensures { result ≡ first + suc end }
{
    first as usize + end as usize + 1
}

// Whether a record is right, wherever it stands.
fn record_right(levels: Levels<'_>, table: Table<'_>, edges: &[u32], x: Fields) -> bool
    ensures { result ≡ record_right (levels_of levels.entry.coefficients.now levels.entry.ends.now) (records table.entry.words.now) edges.now (record_in x) }
{
    let level = x.level as usize;
    if level < 1 {
        return false;
    }
    if levels.coefficients.len() < level {
        return false;
    }
    if x.upper < x.lower {
        return false;
    }
    let i = level - 1;
    let from = x.first as usize;
    let to = past_edges(x.first, levels.ends[i]);
    if edges.len() < to {
        return false;
    }
    let p = Parent {
        below: x.level + 1,
        lower: x.lower,
        upper: x.upper,
        rest: levels.rests[level],
    };
    marker_edges::row_right(table, p, levels.coefficients[i], &edges[from..to])
}

// Whether a record is right as the root: it is at level 1 and holds the bound.
fn root_right(x: Fields, bound: u64) -> bool
    ensures { result ≡ root_right (pos bound) (record_in x) }
{
    if x.level != 1 {
        return false;
    }
    x.lower as u64 <= bound && bound <= x.upper as u64
}

// Whether a record is right by its number: this is below the most, and number 0 is the root's.
fn place_right(k: NodeNumber, x: Fields, bound: u64) -> bool
    ensures { result ≡ place_right (pos bound) k.0 (record_in x) }
{
    if NODES <= k.0 {
        return false;
    }
    if k.0 == 0 {
        return root_right(x, bound);
    }
    true
}

// The judgement of a table with records: the first bad one, if there is one.
pub fn mark_records(
    levels: Levels<'_>,
    bound: u64,
    table: &[u32],
    edges: &[u32],
) -> Result<(), Refusal>
    requires { 0 < length table.now / record_words }
    ensures { result ≡ judged (levels_of levels.entry.coefficients.now levels.entry.ends.now) (pos bound) (records table.now) edges.now }
{
    let count = table.len() / RECORD;
    let numbered = Table::new(table);
    'records: for k in 0..count {
        let x = read(table, NodeNumber(k));
        if !place_right(NodeNumber(k), x, bound) {
            return Err(Refusal::BadRecord(k));
        }
        if !record_right(levels, numbered, edges, x) {
            return Err(Refusal::BadRecord(k));
        }
    }
    Ok(())
}
