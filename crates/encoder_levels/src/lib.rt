// From the levels of a constraint to the three lists: the diagram built, refusals 6 to 8 by its own counts, and the lists filled.
#![tactic(auto)]

ghost use Rattle.std.specs.Prelude.{◌≡◌, ◌≤◌, ◌<◌, ℤ};
ghost use Rattle.word.specs.Edge.{edge_of};
ghost use Rattle.diagram.specs.Level.{R};
ghost use Rattle.encoding.specs.Boolean.{orders as orders'};
ghost use Rattle.limits.specs.declared.Limits.{Limits as Limits'};
ghost use Rattle.limits.specs.Limits.{node_limit};
ghost use Rattle.constraint_bound.specs.Bound.{bound_of};
ghost use Rattle.constraint.specs.Lent.{levels_of};
ghost use Rattle.builder.specs.Built.{RootOk};
ghost use Rattle.encoder_levels.specs.Reply.{capacity};
ghost use Rattle.encoder_levels.specs.Passes.{Cleared, DrawnFor, Answered};
ghost use Rattle.filler.specs.Filled.{constraint_of, SameReferences, Tabled};

use constraint::Levels;
use constraint_bound::Bound;
use filler::{Counts, LentLists};
use limits::Limits;
use refusal::Refusal;
use word::{Child, NODES, NodeNumber, RECORD, Remainder};

// The words that a call has of its own for merging.
const OWN: usize = 64;

// The root of a drawn table, and the number of its nodes.
#[derive(Drop)]
struct Top {
    root: Child,
    nodes: usize,
}

// The node capacity of a table of n words.
fn room(limits: Limits, n: usize) -> usize
    ensures { result ≡ capacity limits n }
{
    let most = limits::counted_as(limits.nodes, NODES);
    (n / RECORD).min(most)
}

// All three lists zeroed, and the refusal.
fn refuse(x: Refusal, lists: &mut LentLists<'_>) -> Result<Counts, Refusal>
    ensures same_references { SameReferences lists.old lists.new }
    ensures cleared { Cleared x lists.old.table.now lists.old.edges.now lists.old.clauses.now lists.new.table.now lists.new.edges.now lists.new.clauses.now result }
{
    word::fill_from(lists.table, 0, 0);
    word::fill_from(lists.edges, 0, 0);
    word::fill_from(lists.clauses, 0, 0);
    Err(x)
}

// Refusals 7 and 8 by the diagram's own counts, or the lists filled, for a table that is built within the limits.
fn finish(
    levels: Levels<'_>,
    orders: u32,
    top: Top,
    lists: &mut LentLists<'_>,
) -> Result<Counts, Refusal>
    requires { (a : ℤ) × Tabled (constraint_of levels.coefficients.now levels.ends.now a) orders (edge_of top.root) lists.old.table.now top.nodes }
    ensures same_references { SameReferences lists.old lists.new }
    ensures answered { (l : Limits') (a : ℤ) → top.nodes ≤ node_limit l → Tabled (constraint_of levels.entry.coefficients.now levels.entry.ends.now a) orders (edge_of top.root) lists.old.table.now top.nodes
        → Answered l (constraint_of levels.entry.coefficients.now levels.entry.ends.now a) lists.old.table.now lists.old.edges.now lists.old.clauses.now lists.new.table.now lists.new.edges.now lists.new.clauses.now result }
{
    let table = &mut *lists.table;
    let counts = filler::count(levels.ends, orders, table, top.nodes);
    if lists.edges.len() < counts.edges {
        return refuse(Refusal::TooManyEdges, lists);
    }
    if lists.clauses.len() < counts.words {
        return refuse(Refusal::TooManyWords, lists);
    }
    filler::fill(levels, orders, top.root, counts, lists);
    Ok(counts)
}

// The root of an undecided bound's diagram, which is built into the table. Until the clauses are written, their words serve for merging and for guesses; where
// they are few, some of the call's own do.
fn build_root(
    levels: Levels<'_>,
    table: &mut [u32],
    clauses: &mut [u32],
    bound: Remainder,
) -> Option<usize>
    requires { bound.0 < R (levels_of levels.coefficients.now levels.ends.now) }
    ensures { RootOk levels.entry.coefficients.now levels.entry.ends.now bound.0 table.old table.new result }
{
    if clauses.len() < OWN {
        let mut own = [0u32; OWN];
        return builder::build(levels, table, &mut own[..], bound);
    }
    builder::build(levels, table, clauses, bound)
}

// What is drawn into the table for a bound, or none without room for all nodes: below 0 it makes the root F, from the greatest sum on T, both without nodes;
// else it is undecided, and its diagram is built into the table's capacity under the limits. The undecided bound stands first, which the compiler goes by: so it
// takes the search into the building and not into the linking.
fn draw(
    limits: Limits,
    levels: Levels<'_>,
    bound: Bound,
    table: &mut [u32],
    clauses: &mut [u32],
) -> Option<Top>
    ensures { (a : ℤ) → bound ≡ bound_of a → DrawnFor limits levels.entry.coefficients.now levels.entry.ends.now a table.old table.new result }
{
    match bound {
        Bound::Natural(b) => {
            if b < levels.rests[0] as u64 {
                let past = room(limits, table.len()) * RECORD;
                let r = Remainder(b as u32);
                let nodes = build_root(levels, &mut table[..past], clauses, r)?;
                return Some(Top {
                    root: Child::Node(NodeNumber(0)),
                    nodes,
                });
            }
            Some(Top {
                root: Child::True,
                nodes: 0,
            })
        }
        Bound::Negative => Some(Top {
            root: Child::False,
            nodes: 0,
        }),
    }
}

// The reply for the constraint of the levels: what is drawn, and the lists filled from it.
pub fn encode_levels(
    limits: Limits,
    levels: Levels<'_>,
    orders: u32,
    bound: Bound,
    lists: &mut LentLists<'_>,
) -> Result<Counts, Refusal>
    requires { orders ≡ orders' (levels_of levels.coefficients.now levels.ends.now) }
    ensures same_references { SameReferences lists.old lists.new }
    ensures answered { (a : ℤ) → bound ≡ bound_of a
        → Answered limits (constraint_of levels.entry.coefficients.now levels.entry.ends.now a) lists.old.table.now lists.old.edges.now lists.old.clauses.now lists.new.table.now lists.new.edges.now lists.new.clauses.now result }
{
    let table = &mut *lists.table;
    let clauses = &mut *lists.clauses;
    let Some(top) = draw(limits, levels, bound, table, clauses) else {
        return refuse(Refusal::TooManyNodes, lists);
    };
    finish(levels, orders, top, lists)
}
