// The diagram of a constraint, built into a lent node table: node building and row building call each other. While it grows the table is kept in two runs. Where
// the table has no room for a further node, there is none, and building stops.
#![tactic(auto)]

ghost use Rattle.std.specs.Prelude.{◌+◌, ◌-◌, ◌<◌, length, get_or};
ghost use Rattle.word.specs.Record.{labelled, RecordsFit};
ghost use Rattle.finder.specs.Find.{Missing};
ghost use Rattle.constraint.specs.Lent.{levels_of};
ghost use Rattle.diagram.specs.Level.{R};
ghost use Rattle.search_runs.specs.RunsKept.{RunsKept};
ghost use Rattle.builder_steps.specs.Branch.{ends as ends'};
ghost use Rattle.builder.specs.Built.{Grows, NodeOk, RowOk, RootOk};

use builder_steps::{Branch, Ends};
use constraint::Levels;
use search_runs::TwoRuns;
use word::Remainder;

// The label of an undecided remainder's node at level i, which is found or built. Of the reply's gap, `near` is the second run's part, where the new record will
// stand. (What the three functions of this cycle ask ties a level to runs that are written between their calls, so it stays in their clauses.)
#[cycle(building)]
fn find_node(
    levels: &Levels<'_>,
    runs: &mut TwoRuns<'_, '_>,
    i: usize,
    r: Remainder,
) -> Option<Ends>
    requires level { i < length levels.now.coefficients.now }
    requires good { Grows levels.now.coefficients.now levels.now.ends.now runs.old }
    requires r_bound { r.0 < get_or levels.now.rests.now i 0 }
    ensures node { NodeOk levels.now.coefficients.now levels.now.ends.now i r.0 runs.old runs.new result }
    ensures kept { RunsKept runs.old runs.new }
{
    let level = i as u32 + 1;
    let mut near = 0;
    let Ok(k) = runs.find(&mut near, level, r) else {
        return build_node(levels, runs, near, i, r);
    };
    // As `&mut`: behind a `&` of the field the proof loses sight of the words.
    let table = &mut *runs.table;
    Some(Ends::at(table, k))
}

// The label of an undecided remainder's node at level i that no record holds, built from its row. The row's own nodes stand behind it, so the gap is still `near`,
// as the finder replied, unless the runs were merged in between.
#[cycle(building)]
fn build_node(
    levels: &Levels<'_>,
    runs: &mut TwoRuns<'_, '_>,
    near: usize,
    i: usize,
    r: Remainder,
) -> Option<Ends>
    requires level { i < length levels.now.coefficients.now }
    requires good { Grows levels.now.coefficients.now levels.now.ends.now runs.old }
    requires r_bound { (r.0 < get_or levels.now.rests.now i 0) × Missing (labelled runs.old.table.now runs.old.count) (i + 1) r.0 }
    ensures node { NodeOk levels.now.coefficients.now levels.now.ends.now i r.0 runs.old runs.new result }
    ensures kept { RunsKept runs.old runs.new }
{
    let e = build_row(levels, runs, i, r)?;
    builder_steps::put(runs, near, i as u32 + 1, r, e)
}

// The label of an undecided remainder at level i: the overlap of its children's labels, whose nodes are found or built.
#[cycle(building)]
fn build_row(
    levels: &Levels<'_>,
    runs: &mut TwoRuns<'_, '_>,
    i: usize,
    r: Remainder,
) -> Option<Ends>
    requires level { i < length levels.now.coefficients.now }
    requires good { Grows levels.now.coefficients.now levels.now.ends.now runs.old }
    requires r_bound { r.0 < get_or levels.now.rests.now i 0 }
    ensures row { RowOk levels.now.coefficients.now levels.now.ends.now i r.0 0 (ends' 0 (get_or levels.now.rests.now i 0 - 1)) runs.old runs.new result }
    ensures kept { RunsKept runs.old runs.new }
{
    let end = levels.ends[i];
    let mut e = Ends::all_below(levels.rests[i]);
    for j in 0..=end {
        let branch = builder_steps::child(levels.coefficients, levels.rests, i, r, j);
        let Branch::On(c, moved) = branch else {
            e = e.cut(branch);
            continue;
        };
        let s = find_node(levels, runs, i + 1, c)?;
        e = e.overlap(s, moved);
    }
    Some(e)
}

// The diagram of an undecided bound, built into the table by way of the lent words: its records in order, with their levels and labels. The number of records, that
// of the root among them; nothing where the table has no room for the diagram.
pub fn build(
    levels: Levels<'_>,
    table: &mut [u32],
    work: &mut [u32],
    bound: Remainder,
) -> Option<usize>
    requires { RecordsFit 1 work.old × (bound.0 < R (levels_of levels.coefficients.now levels.ends.now)) }
    ensures { RootOk levels.entry.coefficients.now levels.entry.ends.now bound.0 table.old table.new result }
{
    let mut runs = TwoRuns::new(table, work, levels.rests);
    build_node(&levels, &mut runs, 0, 0, bound)?;
    runs.merge();
    Some(runs.count)
}
