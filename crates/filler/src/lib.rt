// The counts of a diagram that is built, and its edge list and clauses, in memory that the caller lends.
#![tactic(auto)]

ghost use Rattle.std.specs.Prelude.{◌≡◌, ◌≤◌, ℤ, length};
ghost use Rattle.word.specs.Edge.{edge_of};
ghost use Rattle.word.specs.Record.{labelled};
ghost use Rattle.linker.specs.Sum.{Countable};
ghost use Rattle.filler.specs.Filled.{constraint_of, SameReferences, counts_by, Tabled, Roomy, Filled};

use constraint::Levels;
use word::{Child, RECORD};

// How many nodes, edges and clause words an accepted call has written.
#[derive(Clone, Copy)]
pub struct Counts {
    pub nodes: usize,
    pub edges: usize,
    pub words: usize,
}

// The lists of a call, in memory that the caller lends: the node table, the edge list and the clause list.
#[derive(Drop)]
pub struct LentLists<'a> {
    pub table: &'a mut [u32],
    pub edges: &'a mut [u32],
    pub clauses: &'a mut [u32],
}

// The places and counts in the table, the edge list and the clauses, with zeros behind each, where there is room for all.
pub fn fill(levels: Levels<'_>, orders: u32, root: Child, counts: Counts, lists: &mut LentLists<'_>)
    requires { (a : ℤ) × Tabled (constraint_of levels.coefficients.now levels.ends.now a) orders (edge_of root) lists.old.table.now counts.nodes × Roomy (constraint_of levels.coefficients.now levels.ends.now a) counts lists.old.edges.now lists.old.clauses.now }
    ensures same_references { SameReferences lists.old lists.new }
    ensures filled { (a : ℤ) → Tabled (constraint_of levels.entry.coefficients.now levels.entry.ends.now a) orders (edge_of root) lists.old.table.now counts.nodes → Roomy (constraint_of levels.entry.coefficients.now levels.entry.ends.now a) counts lists.old.edges.now lists.old.clauses.now
        → Filled (constraint_of levels.entry.coefficients.now levels.entry.ends.now a) lists.old.table.now lists.old.edges.now lists.old.clauses.now lists.new.table.now lists.new.edges.now lists.new.clauses.now }
{
    let table = &mut *lists.table;
    let edges = &mut *lists.edges;
    let clauses = &mut *lists.clauses;
    let nodes = counts.nodes;
    linker::link(levels, table, nodes, edges);
    clause_writer::write(levels.ends, orders, table, nodes, edges, root, clauses);
    word::fill_from(table, nodes * RECORD, 0);
    word::fill_from(edges, counts.edges, 0);
    word::fill_from(clauses, counts.words, 0);
}

// The counts of a table that is built, by the sum of domain ends over its records.
pub fn count(ends: &[u32], orders: u32, table: &[u32], nodes: usize) -> Counts
    requires countable { Countable ends.now table.now nodes }
    requires ends_len_bound { length ends.now ≤ orders }
    ensures { result ≡ counts_by ends.now orders (labelled table.now nodes) nodes }
{
    let sum = linker::sum_ends(ends, table, nodes);
    Counts {
        nodes,
        edges: nodes + sum,
        words: 3 * (orders as usize - ends.len()) + 6 + 3 * nodes + 4 * sum,
    }
}
