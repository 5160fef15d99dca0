// Labels, with their levels, stored in the records of a flat table, copied, and put in between others. What the records' other words hold is left open.
// (The table comes as words and a count, since `Records` only reads.)
#![tactic(auto)]

ghost use Rattle.std.specs.Prelude.{◌≡◌, suc, ◌+◌, ◌*◌, ◌≤◌, length, drop, get_or};
ghost use Rattle.word.specs.Record.{record_words, RecordsFit, no_record, label_from, labels, labelled};
ghost use Rattle.search_store.specs.Copy.{copied};
ghost use Rattle.search_store.specs.Stored.{Stored, Raised};
ghost use Rattle.search_store.specs.Insert.{insert_at};

use word::{FIRST, LOWER, NodeNumber, RECORD, UPPER};

// Copies words to the beginning of others. (By a loop: `copy_from_slice` would have C programs bring a `memmove`.)
pub fn copy_words(from: &[u32], to: &mut [u32])
    requires { length from.now ≤ length to.old }
    ensures { to.new ≡ copied from.now to.old }
{
    for (k, w) in from.iter().enumerate() {
        to[k] = *w;
    }
}

// Stores a level and a label at record number k.
pub fn store_label(table: &mut [u32], k: NodeNumber, level: u32, lower: u32, upper: u32)
    requires { RecordsFit (suc k.0) table.old }
    ensures { Stored table.old k.0 (label_from level lower upper) table.new }
{
    let b = k.0 * RECORD;
    table[b] = level;
    table[b + LOWER] = lower;
    table[b + UPPER] = upper;
}

// Copies the label of record `from` of the table to number `to`. The next word goes along, and all are read before one is stored, which lets the compiler move
// them at once.
pub fn move_label(table: &mut [u32], from: NodeNumber, to: NodeNumber)
    requires { RecordsFit (suc from.0) table.old × RecordsFit (suc to.0) table.old }
    ensures { Stored table.old to.0 (get_or (labels table.old) from.0 no_record) table.new }
{
    let b = from.0 * RECORD;
    let level = table[b];
    let lower = table[b + LOWER];
    let upper = table[b + UPPER];
    let first = table[b + FIRST];
    store_label(table, to, level, lower, upper);
    table[to.0 * RECORD + FIRST] = first;
}

// Copies the label of record `from` of the other words to number `to` of the table.
pub fn copy_label(table: &mut [u32], s: &[u32], from: NodeNumber, to: NodeNumber)
    requires { RecordsFit (suc from.0) s.now × RecordsFit (suc to.0) table.old }
    ensures { Stored table.old to.0 (get_or (labels s.now) from.0 no_record) table.new }
{
    let b = from.0 * RECORD;
    store_label(table, to, s[b], s[b + LOWER], s[b + UPPER]);
}

// Makes room for a label at number p of the first `count`: moves those from there on up by one.
fn make_room(table: &mut [u32], p: usize, count: usize)
    requires { (p ≤ count) × RecordsFit (suc count) table.old }
    ensures { Raised table.old p count table.new }
{
    for i in (p..count).rev() {
        move_label(table, NodeNumber(i), NodeNumber(i + 1));
    }
}

// Puts a label in at number p of the first `count`, moves those from p on up by one, and keeps the words past their records.
pub fn insert(table: &mut [u32], count: usize, p: NodeNumber, level: u32, lower: u32, upper: u32)
    requires { (p.0 ≤ count) × RecordsFit (suc count) table.old }
    ensures { (labelled table.new (count + 1) ≡ insert_at p.0 (label_from level lower upper) (labelled table.old count))
        × (drop (suc count * record_words) table.new ≡ drop (suc count * record_words) table.old) }
{
    make_room(table, p.0, count);
    store_label(table, p, level, lower, upper);
}
