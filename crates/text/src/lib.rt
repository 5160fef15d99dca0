// Bytes put into a lent list, piece by piece, and numbers in decimal; what finds no room is cut off. (There is no heap, and `Wrote` says each piece by the list before
// and after, and what is cut off. So a list and a place in it go side by side here and wherever text or clauses are written, and no `Display` serves.)
#![tactic(auto)]

ghost use Rattle.std.specs.Prelude.{[], ◌∷◌, ◌≡◌, length};
ghost use Rattle.text.specs.Cut.{Wrote};
ghost use Rattle.text.specs.Decimal.{decimal};

// A byte put in at a place, where there is room; the place behind it.
pub fn put(out: &mut [u8], at: usize, byte: u8) -> usize
    ensures { Wrote (byte ∷ []) at out.old out.new result }
{
    if at < out.len() {
        out[at] = byte;
        return at + 1;
    }
    at
}

// Bytes put in from a place on; the place behind them.
pub fn put_all(out: &mut [u8], start: usize, text: &[u8]) -> usize
    ensures { Wrote text.now start out.old out.new result }
{
    let mut at = start;
    for &byte in text {
        at = put(out, at, byte);
    }
    at
}

// A number in decimal, put in from a place on; the place behind it.
pub fn put_number(out: &mut [u8], start: usize, n: usize) -> usize
    ensures { Wrote (decimal n) start out.old out.new result }
{
    if n < 10 {
        return put(out, start, 48 + n as u8);
    }
    let at = put_number(out, start, n / 10);
    put(out, at, 48 + (n % 10) as u8)
}

// How many bytes a number takes in decimal.
pub fn digits(n: usize) -> usize
    ensures { result ≡ length (decimal n) }
{
    if n < 10 {
        return 1;
    }
    digits(n / 10) + 1
}
