// Clauses put into a lent buffer, and of the clause list of a drawing the order clauses and the unit clauses.
#![tactic(auto)]

ghost use Rattle.std.specs.Prelude.{◌≡◌, [], ◌∷◌, ◌++◌, suc, ◌+◌, ◌-◌, ◌≤◌};
ghost use Rattle.word.specs.Word.{last_boolean, last_count, end_word};
ghost use Rattle.word.specs.Edge.{edge_boolean, edge_of};
ghost use Rattle.clause.specs.Meaning.{words_of};
ghost use Rattle.encoding.specs.Boolean.{orders};
ghost use Rattle.encoding.specs.Pattern.{order_of, orders_of, units_of};
ghost use Rattle.clause_buffer.specs.Written.{Room, WroteWords};
ghost use Rattle.clause_buffer.specs.Ended.{ended};

use word::{Child, Variable};

// A clause of N literals, put in at a place; the place behind it. (That there is room, and that the numbers fit, is asked of the list and the place that a call gets,
// so it stays in the clauses here and above.)
pub fn put_clause<const N: usize>(out: &mut [u32], at: usize, literals: [u32; N]) -> usize
    requires few { N ≤ last_count }
    requires room { Room (literals ++ (end_word N ∷ [])) at out.old }
    ensures { WroteWords (literals.entry ++ (end_word N ∷ [])) at out.old out.new result }
{
    // Word by word: with `copy_from_slice`, which asks each time whether the two lists overlap, order clauses took half as long again.
    for k in 0..N {
        out[at + k] = literals[k];
    }
    let end = at + N;
    out[end] = word::end_word(N as u32);
    end + 1
}

// The order clauses of a level with a domain end, where some order Booleans come before its own; the place behind them.
fn write_level(end: u32, earlier: u32, out: &mut [u32], start: usize) -> usize
    requires numbers { earlier + end ≤ last_boolean }
    requires room { Room (words_of (order_of (suc earlier) (end - 1))) start out.old }
    ensures { WroteWords (words_of (order_of (suc earlier) (end - 1))) start out.old out.new result }
{
    let mut at = start;
    for j in 1..end {
        let b = earlier + j;
        let clause = [
            word::literal(false, Variable(b)),
            word::literal(true, Variable(b + 1)),
        ];
        at = put_clause(out, at, clause);
    }
    at
}

// The order clauses of all levels, at the start of the buffer; the place behind them.
pub fn write_levels(ends: &[u32], out: &mut [u32]) -> usize
    requires numbers { orders (ended ends.now) ≤ last_boolean }
    requires room { Room (words_of (orders_of 0 (ended ends.now))) 0 out.old }
    ensures { WroteWords (words_of (orders_of 0 (ended ends.now))) 0 out.old out.new result }
{
    let mut at = 0;
    let mut earlier = 0;
    for &end in ends {
        at = write_level(end, earlier, out, at);
        earlier += end;
    }
    at
}

// The three unit clauses: T, not F, and the root; the place behind them.
pub fn write_units(orders: u32, root: Child, out: &mut [u32], start: usize) -> usize
    requires numbers { orders + 2 ≤ last_boolean }
    requires known { edge_boolean orders (edge_of root) ≤ last_boolean }
    requires room { Room (words_of (units_of orders (edge_of root))) start out.old }
    ensures { WroteWords (words_of (units_of orders (edge_of root))) start out.old out.new result }
{
    let t = word::literal(true, word::child_variable(orders, Child::True));
    let f = word::literal(false, word::child_variable(orders, Child::False));
    let r = word::literal(true, word::child_variable(orders, root));
    let second = put_clause(out, start, [t]);
    let third = put_clause(out, second, [f]);
    put_clause(out, third, [r])
}
