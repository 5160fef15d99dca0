// A table of records in two runs: the first `main` records, in order, and behind them a short second run, in order, into which new records go. When the second is
// as long as it may be, or the words lent for merging hold no more, it is merged into the first; so a new record moves few others, however many there are.
#![tactic(auto)]

mod merging; // the two runs made one

ghost use Rattle.std.specs.Prelude.{◌≡◌, suc, ◌+◌, ◌*◌, ◌/◌, ◌≤◌, min, length};
ghost use Rattle.word.specs.Record.{labelled, record_words, RecordsFit};
ghost use Rattle.search_ordered.specs.Order.{Sorted};
ghost use Rattle.finder.specs.Find.{Missing, find_in};
ghost use Rattle.search_store.specs.Copy.{copied};
ghost use Rattle.search_runs.specs.Runs.{longest, second_run, run_words, Merged, Settled, PutIn};

use merging::merge_back;
use search_hints::LONGEST;
use search_ordered::Ordered;
use word::{NodeNumber, RECORD, Records, Remainder};

// A table, the words that are lent for merging it, and how many records its first run has and both have.
#[derive(Drop)]
pub struct TwoRuns<'t, 'w> {
    pub table: &'t mut [u32],
    pub work: &'w mut [u32],
    pub main: usize,
    pub count: usize,
    pub ghost fits: { (main ≤ count) × RecordsFit count table.now },
}

impl<'t, 'w> TwoRuns<'t, 'w> {
    ghost use Rattle.search_runs.specs.RunsKept.{RunsKept};

    // No records yet, in the lent memory. The words for merging are set for levels whose greatest remainders are given.
    pub fn new(table: &'t mut [u32], work: &'w mut [u32], rests: &[u32]) -> TwoRuns<'t, 'w>
        ensures lent { (result.table.ghost_name ≡ table.entry.ghost_name) × (result.work.ghost_name ≡ work.entry.ghost_name) }
        ensures words { (result.table.now ≡ table.old) × (length result.work.now ≡ length work.old) }
        ensures empty { (result.main ≡ 0) × (result.count ≡ 0) }
    {
        search_hints::prepare(work, rests);
        TwoRuns {
            table,
            work,
            main: 0,
            count: 0,
        }
    }

    // The finder's reply on the records, and where no record holds the remainder the gap in the second run, noted for `put`.
    pub fn find(&self, near: &mut usize, level: u32, r: Remainder) -> Result<NodeNumber, usize>
        requires { Sorted (labelled self.now.table.now self.now.main) × Sorted (second_run self.now.table.now self.now.main self.now.count) }
        ensures { result ≡ find_in (labelled self.now.table.now self.now.count) level r.0 }
    {
        find(
            &*self.table,
            &*self.work,
            self.main,
            self.count,
            near,
            level,
            r,
        )
    }

    // Merges the two runs into one, by way of the lent words, to which it copies the second.
    pub fn merge(&mut self)
        requires { self.old.count * record_words ≤ self.old.main * record_words + length self.old.work.now }
        ensures merged { Merged self.old.table.now self.old.main self.old.count self.new.table.now }
        ensures work_after { self.new.work.now ≡ copied (run_words self.old.table.now self.old.main self.old.count) self.old.work.now }
        ensures counts { (self.new.main ≡ self.old.count) × (self.new.count ≡ self.old.count) }
        ensures kept { RunsKept self.old self.new }
    {
        let table = &mut *self.table;
        let work = &mut *self.work;
        let b = self.main * RECORD;
        let e = self.count * RECORD;
        search_store::copy_words(&table[b..e], work);
        merge_back(table, work, self.main, self.count);
        self.main = self.count;
    }

    // Merges the runs where the second is as long as it may be. What the lent words hold then is left open, as the counts among them are hints.
    pub fn settle(&mut self)
        requires { (self.old.count * record_words ≤ self.old.main * record_words + length self.old.work.now) × RecordsFit 1 self.old.work.now }
        ensures settled { Settled self.old.table.now self.old.main self.old.count (length self.old.work.now) self.new.table.now self.new.main }
        ensures same_count { self.new.count ≡ self.old.count }
        ensures kept { RunsKept self.old self.new }
    {
        let pending = self.count - self.main;
        if pending < limit(self.main) && (pending + 1) * RECORD <= self.work.len() {
            return;
        }
        let table = &mut *self.table;
        let records = Records {
            table,
            count: self.count,
        };
        search_hints::count_run(records, &mut *self.work, self.main);
        self.merge();
    }

    // Puts a label into the second run, none of whose records holds the remainder, at the gap that the finder replies; `near` is where it looks first. That none
    // holds it is asked for, so the other reply cannot come.
    pub fn put(&mut self, near: usize, level: u32, r: Remainder, lower: u32, upper: u32)
        requires room { RecordsFit (suc self.old.count) self.old.table.now }
        requires second { Sorted (second_run self.old.table.now self.old.main self.old.count) × Missing (second_run self.old.table.now self.old.main self.old.count) level r.0 }
        ensures put { PutIn self.old.table.now self.old.main self.old.count level r.0 lower upper self.new.table.now }
        ensures same_words { self.new.work.now ≡ self.old.work.now }
        ensures counts { (self.new.main ≡ self.old.main) × (self.new.count ≡ self.old.count + 1) }
        ensures kept { RunsKept self.old self.new }
    {
        let table = &mut *self.table;
        let b = self.main * RECORD;
        let n = self.count - self.main;
        let records = Records {
            table: &table[b..],
            count: n,
        };
        let guess = NodeNumber(near);
        let Err(gap) = search_ordered::find_near(Ordered { records }, guess, level, r) else {
            return;
        };
        search_store::insert(&mut table[b..], n, NodeNumber(gap), level, lower, upper);
        self.count += 1;
    }
}

// The finder's reply on the first `count` records of a table in two runs, which need only be read: those of the first run, near where the lent words guess, then
// those of the second. Where no record holds the remainder, the gap in the second run is noted for `put`; it is a guess, of which nothing is promised, so it
// stands beside the reply.
pub fn find(
    table: &[u32],
    work: &[u32],
    main: usize,
    count: usize,
    near: &mut usize,
    level: u32,
    r: Remainder,
) -> Result<NodeNumber, usize>
    requires { (main ≤ count) × RecordsFit count table.now × Sorted (labelled table.now main) × Sorted (second_run table.now main count) }
    ensures { result ≡ find_in (labelled table.now count) level r.0 }
{
    let first_run = Records { table, count: main };
    let g = search_hints::guess(first_run, work, level, r);
    match search_ordered::find_near(Ordered { records: first_run }, g, level, r) {
        Ok(k) => Ok(k),
        Err(first) => {
            let b = main * RECORD;
            let e = count * RECORD;
            let second_run = Records {
                table: &table[b..e],
                count: count - main,
            };
            match search_ordered::find_sorted(
                Ordered {
                    records: second_run,
                },
                level,
                r,
            ) {
                Ok(k) => {
                    let number = main + k.0;
                    Ok(NodeNumber(number))
                }
                Err(second) => {
                    *near = second;
                    let gap = first + second;
                    Err(gap)
                }
            }
        }
    }
}

// How many records the second run may have: the longer the first run is, the more records a merge moves.
fn limit(main: usize) -> usize
    ensures { result ≡ min (16 + main / 24) longest }
{
    LONGEST.min(16 + main / 24)
}
