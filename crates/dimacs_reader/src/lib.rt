// Reads DIMACS text, a byte at a time, and puts the clause words that it says into a lent list.
#![tactic(auto)]

ghost use Rattle.std.specs.Prelude.{◌≡◌, set};
ghost use Rattle.dimacs_reader.specs.Reads.{Reads};

use dimacs_step::Next;
use refusal::Refusal;

// A word stored at a place, where there is room.
fn store(out: &mut [u32], at: usize, w: u32)
    ensures { out.new ≡ set out.old at w }
{
    // Tried and not proved with get_mut: behind a slice's get_mut no element is known.
    if at < out.len() {
        out[at] = w;
    }
}

// The clause words that the text says, with zeros behind them, or the refusal of a text that is not DIMACS or says more words than find room; it leaves zeros.
pub fn read(text: &[u8], out: &mut [u32]) -> Result<usize, Refusal>
    ensures { Reads text.now out.old out.new result }
{
    let mut s = dimacs_step::start();
    let mut n: usize = 0;
    // (By number: with `enumerate` 1 MB of blanks before the header took 1.6 to 2.4 of the time.)
    for i in 0..text.len() {
        match dimacs_step::step(s, text[i]) {
            Next::Bad => {
                word::fill_from(out, 0, 0);
                return Err(Refusal::NotDimacs(i));
            }
            Next::On(t) => s = t,
            Next::Put(t, w) => {
                s = t;
                store(out, n, w);
                n += 1;
            }
        }
    }
    if !dimacs_step::is_final(s) {
        word::fill_from(out, 0, 0);
        return Err(Refusal::NotDimacs(text.len()));
    }
    if out.len() < n {
        word::fill_from(out, 0, 0);
        return Err(Refusal::NoRoom);
    }
    word::fill_from(out, n, 0);
    Ok(n)
}
