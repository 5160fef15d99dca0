// The marker: a constraint's words, a table and an edge list, all only read; whether the hand-in is right, or its first bad record.
#![tactic(auto)]

mod records; // the records of a table, one after the other

ghost use Rattle.std.specs.Prelude.{◌≡◌, List, ℕ, pos, negsuc};
ghost use Rattle.word.specs.Gives.{Gives};
ghost use Rattle.word.specs.Record.{records as records'};
ghost use Rattle.refusal.specs.Table.{passed};
ghost use Rattle.diagram.specs.Level.{Level};
ghost use Rattle.diagram.specs.Constraint.{levels};
ghost use Rattle.limits.specs.Limits.{main_limits};
ghost use Rattle.constraint_words.specs.Reading.{checked, stated};
ghost use Rattle.constraint.specs.Held.{held_of};
ghost use Rattle.constraint.specs.Lent.{levels_of};
ghost use Rattle.marking.specs.Judged.{judged};
ghost use Rattle.marker.specs.Reply.{marked_reply, marked_values};

use constraint::{Constraint, Levels};
use constraint_bound::Bound;
use records::mark_records;
use refusal::Refusal;
use word::RECORD;

// The fields of a record that are read: one more than the finder reads.
#[derive(Clone, Copy)]
struct Fields {
    level: u32,
    lower: u32,
    upper: u32,
    first: u32,
}

// The judgement of a hand-in, for the constraint of the levels. Without records the bound must be decided.
fn mark_levels(levels: Levels<'_>, bound: u64, table: &[u32], edges: &[u32]) -> Result<(), Refusal>
    ensures { result ≡ judged (levels_of levels.entry.coefficients.now levels.entry.ends.now) (pos bound) (records' table.now) edges.now }
{
    if table.len() / RECORD == 0 {
        if bound < levels.rests[0] as u64 {
            return Err(Refusal::BadRecord(0));
        }
        return Ok(());
    }
    mark_records(levels, bound, table, edges)
}

// The judgement for a bound below 0, which no label holds: right without records, and otherwise record 0 is bad.
fn mark_below(table: &[u32]) -> Result<(), Refusal>
    ensures { (ls : List Level) (z : ℕ) (es : List ℕ) → result ≡ judged ls (negsuc z) (records' table.now) es }
{
    if table.len() / RECORD == 0 {
        return Ok(());
    }
    Err(Refusal::BadRecord(0))
}

// The judgement for the record of a constraint, by its bound.
fn mark_record(c: Constraint, table: &[u32], edges: &[u32]) -> Result<(), Refusal>
    requires { (ws : List ℕ) × (checked main_limits ws ≡ passed) × (c ≡ held_of (stated ws)) }
    ensures { (ws : List ℕ) → checked main_limits ws ≡ passed → c ≡ held_of (stated ws)
        → result ≡ judged (levels (stated ws).terms) (stated ws).bound (records' table.now) edges.now }
{
    match c.bound {
        Bound::Negative => mark_below(table),
        Bound::Natural(b) => mark_levels(c.levels(), b, table, edges),
    }
}

// Whether the table and the edge list are a right drawing of the constraint that the words state: passed, the refusal of the words, or the first bad record.
pub fn mark(words: &[u32], table: &[u32], edges: &[u32]) -> Result<(), Refusal>
    ensures { Gives marked_values (marked_reply words.now table.now edges.now) result }
{
    let plain = constraint_words::is_plain(words);
    Constraint::check_by(Constraint::main_limits(), words, plain)?;
    mark_record(Constraint::make(words, plain), table, edges)
}
