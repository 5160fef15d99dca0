// The limits that a caller sets on terms and on nodes, and how one of them is read.
#![tactic(auto)]

ghost use Rattle.std.specs.Prelude.{◌≡◌, min};

// The most terms and the most nodes; 0 is a limit like any other.
#[derive(Clone, Copy)]
pub struct Limits {
    pub terms: u64,
    pub nodes: u64,
}

// A limit as it is read: above the main one it counts as the main one.
pub fn counted_as(limit: u64, main: usize) -> usize
    ensures { result ≡ min limit main }
{
    limit.min(main as u64) as usize
}
