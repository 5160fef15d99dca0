// The lines that the programs print of a diagram and of a refusal.
#![tactic(auto)]

ghost use Rattle.std.specs.Prelude.{◌≡◌, List, ◌++◌, map, ℕ, ◌<◌, ◌≤◌};
ghost use Rattle.word.specs.Record.{record_at};
ghost use Rattle.diagram.specs.Table.{Node};
ghost use Rattle.word.specs.Edge.{edge_in};
ghost use Rattle.diagram.specs.Flat.{first_place};
ghost use Rattle.printout_lines.specs.Text.{field, child, children, node_line, node_lines, counts_line, refusal_line};
ghost use Rattle.text.specs.Cut.{Wrote};
ghost use Rattle.printout_lines.specs.Lying.{Lying, held_node};

use filler::Counts;
use refusal::Refusal;
use word::{Child, NodeNumber, Records};

// A space and a number; the place behind them.
fn put_field(out: &mut [u8], start: usize, n: u32) -> usize
    ensures { Wrote (field n) start out.old out.new result }
{
    let at = text::put(out, start, b' ');
    text::put_number(out, at, n as usize)
}

// A child by its word in the edge list; the place behind it.
fn put_child(out: &mut [u8], at: usize, w: u32) -> usize
    ensures { Wrote (child (edge_in w)) at out.old out.new result }
{
    match Child::from(w) {
        Child::False => text::put(out, at, b'F'),
        Child::True => text::put(out, at, b'T'),
        Child::Node(k) => text::put_number(out, at, k.0),
    }
}

// The children of a node, each behind a space; the place behind them.
fn put_children(out: &mut [u8], start: usize, edges: &[u32]) -> usize
    ensures { Wrote (children (map edge_in edges.now)) start out.old out.new result }
{
    let mut at = start;
    'children: for &w in edges {
        let next = text::put(out, at, b' ');
        at = put_child(out, next, w);
    }
    at
}

// The line of a node, of its record and its edges; the place behind it.
fn put_node(
    out: &mut [u8],
    start: usize,
    number: NodeNumber,
    records: Records<'_>,
    edges: &[u32],
) -> usize
    requires { number.0 < records.count }
    ensures { Wrote (node_line number.0 (record_at records.entry.table.now number.0).entering (held_node (record_at records.entry.table.now number.0) edges.now)) start out.old out.new result }
{
    let a = text::put_number(out, start, number.0);
    let b = put_field(out, a, records.level(number));
    let c = put_field(out, b, records.lower(number));
    let d = put_field(out, c, records.upper(number));
    let e = put_field(out, d, records.entering(number));
    let f = put_children(out, e, edges);
    text::put(out, f, b'\n')
}

// The place of a node's first edge; for the number behind the last node, the number of edges.
fn first_edge(records: Records<'_>, total: usize, k: NodeNumber) -> usize
    requires { k.0 ≤ records.count }
    ensures { (ns : List Node) (es : List ℕ) → Lying ns records.entry.table.now records.entry.count es total → result ≡ first_place ns k.0 }
{
    if k.0 < records.count {
        records.first(k) as usize
    } else {
        total
    }
}

// The lines of all nodes in order; the place behind them. (What it asks, `Lying`, speaks of the words and the count, so they come as they are.)
fn put_nodes(
    table: &[u32],
    count: usize,
    edges: &[u32],
    total: usize,
    out: &mut [u8],
    start: usize,
) -> usize
    requires { (ns : List Node) × Lying ns table.now count edges.now total }
    ensures { (ns : List Node) → Lying ns table.now count edges.now total → Wrote (node_lines ns 0 ns) start out.old out.new result }
{
    let records = Records { table, count };
    let mut at = start;
    'nodes: for node in 0..count {
        let first = first_edge(records, total, NodeNumber(node));
        let past = first_edge(records, total, NodeNumber(node + 1));
        at = put_node(out, at, NodeNumber(node), records, &edges[first..past]);
    }
    at
}

// The line of the counts, at the start of the buffer; the place behind it.
fn put_counts(counts: Counts, out: &mut [u8]) -> usize
    ensures { Wrote (counts_line counts) 0 out.old out.new result }
{
    let a = text::put_all(out, 0, b"nodes ");
    let b = text::put_number(out, a, counts.nodes);
    let c = text::put_all(out, b, b" edges ");
    let d = text::put_number(out, c, counts.edges);
    let e = text::put_all(out, d, b" words ");
    let f = text::put_number(out, e, counts.words);
    text::put(out, f, b'\n')
}

// The line of a refusal, at the start of the buffer; the place behind it.
pub fn put_refusal(x: Refusal, out: &mut [u8]) -> usize
    ensures { Wrote (refusal_line x) 0 out.old out.new result }
{
    let a = text::put_all(out, 0, b"refused ");
    let b = text::put_number(out, a, x.number() as usize);
    let c = text::put_all(out, b, b" at ");
    let d = text::put_number(out, c, x.place());
    text::put(out, d, b'\n')
}

// The diagram's lines, at the start of the buffer; the place behind them.
pub fn put_diagram(counts: Counts, table: &[u32], edges: &[u32], out: &mut [u8]) -> usize
    requires { (ns : List Node) × Lying ns table.now counts.nodes edges.now counts.edges }
    ensures { (ns : List Node) → Lying ns table.now counts.nodes edges.now counts.edges → Wrote (counts_line counts ++ node_lines ns 0 ns) 0 out.old out.new result }
{
    let at = put_counts(counts, out);
    put_nodes(table, counts.nodes, edges, counts.edges, out, at)
}
