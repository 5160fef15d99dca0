// Reads a constraint and a hand-in from standard input, and prints whether the hand-in is right, or its first bad record.
#![tactic(auto)]

fn main(rt: HostRuntime) {
    let mut input = [0u8; printout_marking::READ];
    let Ok(got) = input::read_input(&rt, &mut rt.stdin(), &mut input) else {
        return;
    };
    let mut words = [0u32; printout_marking::WORDS];
    let mut out = [0u8; printout_marking::TEXT];
    let n = printout_marking::mark(&input[..got], &mut words, &mut out);
    // Where standard output cannot be written, nothing is said.
    let _ = rt.write_all(&out[..n]);
}
