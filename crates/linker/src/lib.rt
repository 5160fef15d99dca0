// From the labels of a finished table: the sum of domain ends, and the edge list with each record's place in it and the edges that enter its node.
#![tactic(auto)]

ghost use Rattle.std.specs.Prelude.{◌≡◌, map, ◌+◌, ◌<◌, ◌≤◌, ℤ, length, get_or};
ghost use Rattle.std.proofs.Math.IntN.{sub_ℕ};
ghost use Rattle.word.specs.Record.{most_nodes, labelled, RecordsFit};
ghost use Rattle.word.specs.Edge.{edge_word, edge_of};
ghost use Rattle.search_ordered.specs.Order.{Sorted};
ghost use Rattle.linker.specs.Sum.{end_sum, Countable};
ghost use Rattle.linker.specs.Row.{leads_to, row_at};
ghost use Rattle.linker.specs.Counting.{CanEnter, CountsFit, entered_by, entered, unentered};
ghost use Rattle.linker.specs.Linked.{Finished, Linked};

use constraint::{Constraint, Levels};
use search_ordered::Ordered;
use word::{Child, ENTERING, FIRST, LOWER, NodeNumber, RECORD, Records, Remainder};

// The most values of a level, 0 to its domain end.
const VALUES: usize = Constraint::END as usize + 1;

// The sum, over the first `count` records, of the domain end of the record's level. (What it asks, `Countable`, speaks of the words and the count, so they come as
// they are.)
pub fn sum_ends(ends: &[u32], table: &[u32], count: usize) -> usize
    requires { Countable ends.now table.now count }
    ensures { result ≡ end_sum ends.now (labelled table.now count) }
{
    let mut sum: usize = 0;
    for k in 0..count {
        let level = table[k * RECORD];
        let i = (level - 1) as usize;
        sum += ends[i] as usize;
    }
    sum
}

// Where `lower` less `taken` leads at a level whose R is `top`, found among the records with a cursor, which a decided child does not move.
fn child(
    ordered: Ordered<'_>,
    cursor: &mut NodeNumber,
    level: u32,
    top: u32,
    lower: u32,
    taken: u32,
) -> Child
    ensures { edge_of result ≡ leads_to (labelled ordered.entry.records.table.now ordered.entry.records.count) level top (sub_ℕ lower taken) }
{
    if lower < taken {
        return Child::False;
    }
    let r = lower - taken;
    if top <= r {
        return Child::True;
    }
    let Ok(k) = search_ordered::find_from(ordered, cursor, level, Remainder(r)) else {
        return Child::False;
    };
    Child::Node(k)
}

// Sets the numbers of entering edges of the first `count` records to 0. (Here and below the table is written, so it and the count come apart: `Records` only reads.)
fn clear_entering(table: &mut [u32], count: usize)
    requires { RecordsFit count table.old }
    ensures { table.new ≡ unentered table.old count }
{
    for n in 0..count {
        table[n * RECORD + ENTERING] = 0;
    }
}

// Counts an edge at the node that it leads to.
fn enter(table: &mut [u32], c: Child)
    requires { CanEnter table.old (edge_of c) }
    ensures { table.new ≡ entered_by table.old (edge_of c) }
{
    let Child::Node(k) = c else {
        return;
    };
    let at = k.0 * RECORD + ENTERING;
    table[at] += 1;
}

// Writes the words of the children of a lower end of level i, counted from 0, and counts each at its node. The child of value j is searched for from cursor j on.
fn row(
    table: &mut [u32],
    count: usize,
    cursors: &mut [NodeNumber; VALUES],
    levels: Levels<'_>,
    i: usize,
    lower: u32,
    words: &mut [u32],
)
    requires count_le_most_nodes { (count ≤ most_nodes) × RecordsFit count table.old × Sorted (labelled table.old count) }
    requires i_in_bounds { (i < length levels.coefficients.now) × (length words.old ≡ get_or levels.ends.now i 0 + 1) }
    requires counts_fit { CountsFit table.old count }
    ensures words_after { words.new ≡ map edge_word (row_at levels.entry.coefficients.now levels.entry.ends.now levels.entry.rests.now (labelled table.old count) i lower) }
    ensures table_after { table.new ≡ entered table.old (row_at levels.entry.coefficients.now levels.entry.ends.now levels.entry.rests.now (labelled table.old count) i lower) }
{
    let level = i as u32 + 2;
    let top = levels.rests[i + 1];
    let coef = levels.coefficients[i];
    let mut taken: u32 = 0;
    for (j, word) in words.iter_mut().enumerate() {
        let records = Records { table, count };
        let c = child(
            Ordered { records },
            &mut cursors[j],
            level,
            top,
            lower,
            taken,
        );
        *word = word::edge_word(c);
        enter(table, c);
        taken += coef;
    }
}

// Writes the edge list, and into each of the first `count` records its place there and how many edges enter its node. As the records are in order, so are the
// children of one value: the value's cursor only moves on.
pub fn link(levels: Levels<'_>, table: &mut [u32], count: usize, edges: &mut [u32])
    requires { (a : ℤ) × Finished levels.coefficients.now levels.ends.now a table.old count edges.old }
    ensures { (a : ℤ) → Finished levels.entry.coefficients.now levels.entry.ends.now a table.old count edges.old
        → Linked levels.entry.coefficients.now levels.entry.ends.now a table.old count edges.old table.new edges.new }
{
    clear_entering(table, count);
    let mut cursors = [NodeNumber(0); VALUES];
    let mut first: usize = 0;
    for node in 0..count {
        let b = node * RECORD;
        let i = (table[b] - 1) as usize;
        let lower = table[b + LOWER];
        let past = first + (levels.ends[i] as usize + 1);
        table[b + FIRST] = first as u32;
        row(
            table,
            count,
            &mut cursors,
            levels,
            i,
            lower,
            &mut edges[first..past],
        );
        first = past;
    }
}
