// The steps of building that stand outside its cycle of calls: where a child leads, what its label does to the row's, and putting a node's record in.
#![tactic(auto)]

ghost use Rattle.std.specs.Prelude.{◌≡◌, suc, ◌+◌, ◌-◌, ◌*◌, ◌<◌, length, get_or};
ghost use Rattle.word.specs.Record.{labelled, RecordsFit, record_at};
ghost use Rattle.finder.specs.Find.{Missing};
ghost use Rattle.search_runs.specs.RunsKept.{RunsKept};
ghost use Rattle.builder_steps.specs.Branch.{ends as ends', branch_of, cut_of, overlap_of};
ghost use Rattle.builder_steps.specs.Put.{Two, PutOk};

use search_runs::TwoRuns;
use word::{LOWER, NodeNumber, RECORD, Remainder, UPPER};

// The two ends of a label.
#[derive(Drop)]
pub struct Ends {
    pub lower: u32,
    pub upper: u32,
}

// Where a child leads: to F, whose label moved up ends at a number; to T, whose label moved up starts at one; or on to a remainder, whose label is moved up by a number.
#[derive(Drop)]
pub enum Branch {
    False(u32),
    True(u32),
    On(Remainder, u32),
}

impl Ends {
    // The ends of all numbers below `top`.
    pub fn all_below(top: u32) -> Ends
        requires { 0 < top }
        ensures { result ≡ ends' 0 (top - 1) }
    {
        Ends {
            lower: 0,
            upper: top - 1,
        }
    }

    // The label of a record. (That this one fits is all that may be asked, so the words come as they are, and not as `Records`.)
    pub fn at(table: &[u32], k: NodeNumber) -> Ends
        requires { RecordsFit (suc k.0) table.now }
        ensures { result ≡ ends' (record_at table.now k.0).lower (record_at table.now k.0).upper }
    {
        let b = k.0 * RECORD;
        Ends {
            lower: table[b + LOWER],
            upper: table[b + UPPER],
        }
    }

    // The ends, cut by a child that is F or T.
    pub fn cut(self, b: Branch) -> Ends
        ensures { result ≡ cut_of self b }
    {
        match b {
            Branch::False(top) => Ends {
                lower: self.lower,
                upper: self.upper.min(top),
            },
            Branch::True(bottom) => Ends {
                lower: self.lower.max(bottom),
                upper: self.upper,
            },
            Branch::On(_, _) => self,
        }
    }

    // The overlap of the ends with a child's label moved up by m.
    pub fn overlap(self, s: Ends, m: u32) -> Ends
        requires { (s.lower + m < 4294967296) × (s.upper + m < 4294967296) }
        ensures { result ≡ overlap_of self s m }
    {
        Ends {
            lower: self.lower.max(s.lower + m),
            upper: self.upper.min(s.upper + m),
        }
    }
}

// Child j of the remainder at level i. (What it asks may not grow, and it does not ask that the slices are a constraint's: so they come as they are, and not as `Levels`.)
pub fn child(coefs: &[u32], rests: &[u32], i: usize, r: Remainder, j: u32) -> Branch
    requires { (i < length coefs.now) × (i + 1 < length rests.now) × (get_or coefs.now i 0 * j + get_or rests.now (i + 1) 0 < 4294967296) }
    ensures { result ≡ branch_of (get_or coefs.now i 0) (get_or rests.now (i + 1) 0) r.0 j }
{
    let m = coefs[i] * j;
    let x = r.0;
    if x < m {
        return Branch::False(m - 1);
    }
    let t = rests[i + 1];
    if t <= x - m {
        return Branch::True(t + m);
    }
    Branch::On(Remainder(x - m), m)
}

// Puts a record for the label into the table's second run, at the gap, which is looked for at `near` first. Before the run grows too long it is merged into the
// first. Nothing where there is no room for a further node.
pub fn put(
    runs: &mut TwoRuns<'_, '_>,
    near: usize,
    level: u32,
    r: Remainder,
    e: Ends,
) -> Option<Ends>
    requires { Two runs.old.table.now runs.old.main runs.old.count (length runs.old.work.now) × RecordsFit 1 runs.old.work.now × Missing (labelled runs.old.table.now runs.old.count) level r.0 }
    ensures put { PutOk runs.old level r.0 e runs.new result }
    ensures kept { RunsKept runs.old runs.new }
{
    if runs.table.len() / RECORD <= runs.count {
        return None;
    }
    runs.settle();
    runs.put(near, level, r, e.lower, e.upper);
    Some(e)
}
