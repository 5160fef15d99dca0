// Standard input, read whole or not at all.
#![tactic(auto)]

ghost use Rattle.std.specs.Prelude.{◌≡◌, ◌<◌, ◌≤◌, length, take, IfOk};
ghost use Rattle.std.specs.Io.KnownBytes.{Consumes, IsAtEnd};

use std::io;
use std::io::Read;

// Reads standard input, or what stands for it, to its end, or until the list is full: how many bytes came. Where a read fails, a line on standard error says so,
// and no byte counts; one that a signal breaks off counts as failed, since nothing says how often it would have to be tried again. The contract says that the
// bytes that count lie within the list. Where the type of the reader tells its bytes, those that count are the first of them, and all unless the list is full;
// standard input's type does not. (A `while`, as how many reads come is not known before.)
pub fn read_input<R: Read>(rt: &impl Eprint, reader: &mut R, into: &mut [u8]) -> io::Result<usize>
    ensures prefix_len { IfOk result (λ n. (n ≤ length into.new) × (n ≡ length (take n into.new))) }
    ensures bytes { IfOk result (λ n. Consumes (R.remaining reader.old) (R.remaining reader.new) (take n into.new)) }
    ensures end { IfOk result (λ n. n < length into.new → IsAtEnd (R.remaining reader.new)) }
{
    let mut at = 0;
    while at < into.len() {
        match reader.read(&mut into[at..]) {
            Ok(0) => break,
            Ok(n) => at += n,
            Err(e) => {
                let _ = rt.eprintln("cannot read standard input");
                return Err(e);
            }
        }
    }
    Ok(at)
}
