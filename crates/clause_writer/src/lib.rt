// The clause list of a drawing, written into a lent buffer.
#![tactic(auto)]

ghost use Rattle.std.specs.Prelude.{◌≡◌, List, map, true, suc, ◌+◌, ◌≤◌, length};
ghost use Rattle.word.specs.Word.{last_boolean, literal_word};
ghost use Rattle.word.specs.Edge.{to, edge_boolean, edge_of, edge_in};
ghost use Rattle.clause.specs.Meaning.{words_of};
ghost use Rattle.diagram.specs.Level.{Level};
ghost use Rattle.diagram.specs.Table.{Node};
ghost use Rattle.encoding.specs.Boolean.{orders, orders_before};
ghost use Rattle.encoding.specs.Pattern.{node_of, nodes_of};
ghost use Rattle.clause_buffer.specs.Written.{Room, WroteWords};
ghost use Rattle.clause_writer.specs.Drawing.{Drawing, Drawn, Listed};
ghost use Rattle.clause_buffer.specs.Ended.{ended};
ghost use Rattle.clause_writer.specs.Held.{nodes_held, Numbered, Held};

use word::{Child, FIRST, NodeNumber, RECORD, Variable};

// The literal that says that an edge's end is true, from the edge's word.
fn child_literal(orders: u32, w: u32) -> u32
    requires { edge_boolean orders (edge_in w) ≤ last_boolean }
    ensures { result ≡ literal_word true (edge_boolean orders (edge_in w)) }
{
    word::literal(true, word::child_variable(orders, Child::from(w)))
}

// The clauses of a node with these edges, where some order Booleans come before its level's; the place behind them.
fn write_node(
    orders: u32,
    node: NodeNumber,
    earlier: u32,
    edges: &[u32],
    out: &mut [u32],
    start: usize,
) -> usize
    requires numbers { edge_boolean orders (to node.0) ≤ last_boolean }
    requires some { 1 ≤ length edges.now }
    requires values { earlier + length edges.now ≤ last_boolean }
    requires known { Numbered orders edges.now }
    requires room { Room (words_of (node_of orders (edge_boolean orders (to node.0)) (suc earlier) (map edge_in edges.now))) start out.old }
    ensures { WroteWords (words_of (node_of orders (edge_boolean orders (to node.0)) (suc earlier) (map edge_in edges.now))) start out.old out.new result }
{
    let n = word::literal(false, word::node_variable(orders, node));
    let mut at = clause_buffer::put_clause(out, start, [n, child_literal(orders, edges[0])]);
    for j in 1..edges.len() {
        let b = word::literal(true, Variable(earlier + j as u32));
        at = clause_buffer::put_clause(out, at, [n, b, child_literal(orders, edges[j])]);
    }
    at
}

// The number of order Booleans before a level, from the number before an earlier one.
fn forward(ends: &[u32], from: usize, sum: u32, level: usize) -> u32
    requires early { from ≤ level }
    requires late { level ≤ length ends.now }
    requires numbers { orders (ended ends.now) ≤ last_boolean }
    requires known { sum ≡ orders_before (ended ends.now) from }
    ensures { result ≡ orders_before (ended ends.now) level }
{
    let mut earlier = sum;
    for &end in &ends[from..level] {
        earlier += end;
    }
    earlier
}

// The number of order Booleans before a level, from the number before another one; only for a level before that one is it counted from the first.
fn before_level(ends: &[u32], from: usize, sum: u32, level: usize) -> u32
    requires late { level ≤ length ends.now }
    requires numbers { orders (ended ends.now) ≤ last_boolean }
    requires known { sum ≡ orders_before (ended ends.now) from }
    ensures { result ≡ orders_before (ended ends.now) level }
{
    if level < from {
        return forward(ends, 0, 0, level);
    }
    forward(ends, from, sum, level)
}

// The clauses of all nodes in order; the place behind them. A struct of the five lists and numbers would be no plainer: but for `write` no function takes them all, and `Held`
// speaks of the table's words and the count.
fn write_nodes(
    ends: &[u32],
    orders: u32,
    table: &[u32],
    count: usize,
    edges: &[u32],
    out: &mut [u32],
    start: usize,
) -> usize
    requires held { Held ends.now orders table.now count edges.now }
    requires room { Room (words_of (nodes_of (ended ends.now) orders 0 (nodes_held ends.now table.now count edges.now))) start out.old }
    ensures { WroteWords (words_of (nodes_of (ended ends.now) orders 0 (nodes_held ends.now table.now count edges.now))) start out.old out.new result }
{
    let mut at = start;
    let mut earlier = 0;
    let mut level = 0;
    for k in 0..count {
        let next = table[k * RECORD] as usize - 1;
        let first = table[k * RECORD + FIRST] as usize;
        let past = first + ends[next] as usize + 1;
        earlier = before_level(ends, level, earlier, next);
        level = next;
        at = write_node(orders, NodeNumber(k), earlier, &edges[first..past], out, at);
    }
    at
}

// Writes the clauses of a drawing at the start of the buffer, and gives their number of words.
pub fn write(
    ends: &[u32],
    orders: u32,
    table: &[u32],
    count: usize,
    edges: &[u32],
    root: Child,
    out: &mut [u32],
) -> usize
    requires { Drawn ends.now orders table.now count edges.now (edge_of root) (length out.old) }
    ensures { (ls : List Level) (ns : List Node) → Drawing ls ns ends.now orders table.now count edges.now (edge_of root) → Listed ls ns (edge_of root) out.old out.new result }
{
    let second = clause_buffer::write_levels(ends, out);
    let third = clause_buffer::write_units(orders, root, out, second);
    write_nodes(ends, orders, table, count, edges, out, third)
}
