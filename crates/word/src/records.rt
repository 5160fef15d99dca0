// Records of the flat table, where they are only read.
ghost use Rattle.std.specs.Prelude.{◌≡◌, ◌<◌};
ghost use Rattle.std.specs.Coded.{le_prop};
ghost use Rattle.word.specs.Record.{RecordsFit, record_at};

use super::{ENTERING, FIRST, LOWER, NodeNumber, RECORD, UPPER};

// The first `count` records of a flat table.
#[derive(Clone, Copy)]
pub struct Records<'a> {
    pub table: &'a [u32],
    pub count: usize,
    pub ghost fit: { RecordsFit count table.now } by { le_prop },
}

impl<'a> Records<'a> {
    // The level of record k.
    pub fn level(self, k: NodeNumber) -> u32
        requires { k.0 < self.count }
        ensures { result ≡ (record_at self.entry.table.now k.0).level }
    {
        self.table[k.0 * RECORD]
    }

    // Both ends of its label.
    pub fn lower(self, k: NodeNumber) -> u32
        requires { k.0 < self.count }
        ensures { result ≡ (record_at self.entry.table.now k.0).lower }
    {
        self.table[k.0 * RECORD + LOWER]
    }

    pub fn upper(self, k: NodeNumber) -> u32
        requires { k.0 < self.count }
        ensures { result ≡ (record_at self.entry.table.now k.0).upper }
    {
        self.table[k.0 * RECORD + UPPER]
    }

    // Its first place in the edge list.
    pub fn first(self, k: NodeNumber) -> u32
        requires { k.0 < self.count }
        ensures { result ≡ (record_at self.entry.table.now k.0).first }
    {
        self.table[k.0 * RECORD + FIRST]
    }

    // The number of edges that enter its node.
    pub fn entering(self, k: NodeNumber) -> u32
        requires { k.0 < self.count }
        ensures { result ≡ (record_at self.entry.table.now k.0).entering }
    {
        self.table[k.0 * RECORD + ENTERING]
    }
}
