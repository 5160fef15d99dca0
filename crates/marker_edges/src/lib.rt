// The edges of a record: each is F, T or the number of a record one level down, and the label of its end must cover that of the record.
#![tactic(auto)]

ghost use Rattle.std.specs.Prelude.{◌≡◌, ◌+◌, ◌*◌, ◌≤◌, length};
ghost use Rattle.word.specs.Edge.{to, edge_of};
ghost use Rattle.diagram.specs.Label.{up};
ghost use Rattle.marking.specs.Judged.{interval_of, covers, each_value};
ghost use Rattle.marker_edges.specs.Parent.{parent_label, numbers_in, end_test, edge_test, RowFits};

use word::{Child, LOWER, NodeNumber, RECORD, UPPER};

// Words of kind 0, which alone are node numbers, lie below this one.
const NUMBERS: usize = 0x40000000;

// What a record's edges are held against: the level below it, the ends of its label, and the greatest sum from that level on.
#[derive(Clone, Copy)]
pub struct Parent {
    pub below: u32,
    pub lower: u32,
    pub upper: u32,
    pub rest: u32,
}

// A table's words, and the numbers that an edge to one of its records may have.
#[derive(Clone, Copy)]
pub struct Table<'a> {
    pub words: &'a [u32],
    pub known: usize,
    pub ghost numbered: { known ≡ numbers_in words.now },
}

impl<'a> Table<'a> {
    pub fn new(words: &'a [u32]) -> Table<'a>
        ensures { result.words.now ≡ words.now }
    {
        Table {
            words,
            known: (words.len() / RECORD).min(NUMBERS),
        }
    }
}

// Whether a child's label, moved up by an offset, covers that of its parent.
fn holds_all(p: Parent, offset: u32, lower: u32, upper: u32) -> bool
    ensures { result ≡ covers (up offset (interval_of (record { lower = lower; upper = upper }))) (parent_label p) }
{
    let offset = offset as u64;
    offset + lower as u64 <= p.lower as u64 && p.upper as u64 <= offset + upper as u64
}

// Whether an edge to a record is right, where its value takes an offset.
fn node_right(table: Table<'_>, p: Parent, offset: u32, k: NodeNumber) -> bool
    ensures { result ≡ end_test table.entry.words.now p offset (to k.0) }
{
    if table.known <= k.0 {
        return false;
    }
    let at = k.0 * RECORD;
    if table.words[at] != p.below {
        return false;
    }
    holds_all(p, offset, table.words[at + LOWER], table.words[at + UPPER])
}

// Whether an edge is right, by its end.
fn edge_right(table: Table<'_>, p: Parent, offset: u32, end: Child) -> bool
    requires { offset + p.rest ≤ 4294967295 }
    ensures { result ≡ end_test table.entry.words.now p offset (edge_of end) }
{
    match end {
        Child::Node(k) => node_right(table, p, offset, k),
        Child::False => p.upper < offset,
        Child::True => offset + p.rest <= p.lower,
    }
}

// Whether each edge of a record is right.
pub fn row_right(table: Table<'_>, p: Parent, coef: u32, edges: &[u32]) -> bool
    requires { RowFits p coef (length edges.now) }
    ensures { result ≡ each_value (λ j. edge_test table.entry.words.now p (coef * j)) 0 edges.now }
{
    let mut offset: u32 = 0;
    'edges: for &w in edges {
        let end = Child::from(w);
        if !edge_right(table, p, offset, end) {
            return false;
        }
        offset += coef;
    }
    true
}
