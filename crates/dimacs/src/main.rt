// Reads the bytes of a constraint's words from standard input, and prints its clauses as DIMACS text. (As `show`, but for the text and its
// room.)
#![tactic(auto)]

fn main(rt: HostRuntime) {
    let mut input = [0u8; printout::READ];
    let Ok(got) = input::read_input(&rt, &mut rt.stdin(), &mut input) else {
        return;
    };
    let mut table = [0u32; printout::TABLE];
    let mut edges = [0u32; printout::EDGES];
    let mut clauses = [0u32; printout::CLAUSES];
    let mut out = [0u8; printout::FORMULA];
    let n = printout::dimacs(
        &input[..got],
        &mut table,
        &mut edges,
        &mut clauses,
        &mut out,
    );
    // Where standard output cannot be written, nothing is said.
    let _ = rt.write_all(&out[..n]);
}
