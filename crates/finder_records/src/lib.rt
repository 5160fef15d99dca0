// The finder over a lent slice of node records.
#![tactic(auto)]

ghost use Rattle.std.specs.Prelude.{◌≡◌, ◌<◌};
ghost use Rattle.word.specs.Gives.{Gives};
ghost use Rattle.finder.specs.Find.{found_values, find_in, searched_fields};
ghost use Rattle.finder_records.specs.Nodes.{fields_of, records_of};

use finder::Fields;
use word::{NodeNumber, Remainder};

// A node's record: its level, the lower and the upper end of its label, the place of its first child in the edge list, and the number of edges that enter it.
#[repr(C)]
#[derive(Clone, Copy)]
pub struct Node {
    pub level: u32,
    pub lower: u32,
    pub upper: u32,
    pub first: u32,
    pub entering: u32,
}

// What the finder reads of a node's record.
impl From<Node> for Fields {
    fn from(n: Node) -> Fields
        ensures { result ≡ searched_fields (fields_of n) }
    {
        Fields {
            level: n.level,
            lower: n.lower,
            upper: n.upper,
        }
    }
}

// The finder's reply on a slice of node records, over all of them.
pub fn find(nodes: &[Node], level: u32, r: Remainder) -> Result<NodeNumber, usize>
    ensures { Gives found_values (find_in (records_of nodes.now) level r.0) result }
{
    let read = |k: usize| Fields::from(nodes[k]);
    finder::search(nodes.len(), read, level, r)
}
