// The base bound as the difference of two sums: a payload goes into one as it is and half of the payloads into the other, so that nothing here is below 0.
#![tactic(auto)]

ghost use Rattle.std.specs.Prelude.{◌≡◌, not, ◌&&◌, eqb, ◌≤◌, ◌<◌, length};
ghost use Rattle.std.proofs.Math.IntN.{sub_ℕ};
ghost use Rattle.word.specs.Word.{payloads, half, negated};
ghost use Rattle.inequality.specs.Base.{bound_by, turned_by, sign_if, shift_if};
ghost use Rattle.constraint_bound.specs.Bound.{bound_of};
ghost use Rattle.constraint_words.specs.Reading.{term_of, relation_in, bound_in};
ghost use Rattle.constraint_bound.specs.declared.Difference.{Difference};
ghost use Rattle.constraint_bound.specs.Sums.{most_bound, most_shift, most_sum, Differ, added};

use word::HALF;

// A bound: its value, or that it is below 0, when no choice is allowed. (An Option would be no plainer: `None` would read as no bound, that all is allowed, where this means that nothing is.)
#[derive(Clone, Copy)]
pub enum Bound {
    Negative,
    Natural(u64),
}

// A whole number as the difference of two sums.
#[derive(Clone, Copy)]
pub struct Difference {
    pub gain: u64,
    pub loss: u64,
}

// The value of a bound, or that it is below 0.
pub fn bound_of(d: Difference) -> Bound
    ensures { result ≡ bound_of (sub_ℕ d.gain d.loss) }
{
    if d.gain < d.loss {
        return Bound::Negative;
    }
    Bound::Natural(d.gain - d.loss)
}

// The bound once the relation is 'at most'. (The relation is the format's number; it is asked here, in `is_turned` and in its check, and an enum would be no plainer.)
pub fn bound_by(words: &[u32]) -> Difference
    requires { 0 < length words.now }
    ensures { Differ most_bound (bound_by (relation_in words.now) (bound_in words.now)) result }
{
    let bound = word::payload_of(words[0]) as u64;
    if !constraint_words::has_relation(words) {
        return Difference {
            gain: bound,
            loss: 0,
        };
    }
    let half = HALF as u64;
    match word::payload_of(words[1]) {
        0 => Difference {
            gain: bound,
            loss: half,
        },
        1 => Difference {
            gain: bound,
            loss: half + 1,
        },
        2 => Difference {
            gain: half,
            loss: bound,
        },
        _ => Difference {
            gain: half,
            loss: bound + 1,
        },
    }
}

// Whether the relation is turned round.
pub fn is_turned(words: &[u32]) -> bool
    ensures { result ≡ turned_by (relation_in words.now) }
{
    constraint_words::has_relation(words) && 2 <= word::payload_of(words[1])
}

// Whether a term is negative once the relation is 'at most'.
pub fn is_negative(turned: bool, w: u32) -> bool
    ensures { result ≡ sign_if turned (negated w) }
{
    let negative = word::is_negated(w);
    if turned { !negative } else { negative }
}

// What the shift of a term adds to the bound, by the payload that its lower end has.
fn shift(negative: bool, w: u32, lower: u32) -> Difference
    requires { lower < payloads }
    ensures { Differ most_shift (shift_if negative (term_of (sub_ℕ lower half) w)) result }
{
    let coefficient = word::coefficient_of(w) as u64;
    let from = coefficient * HALF as u64;
    if negative {
        return Difference {
            gain: coefficient * (lower + word::end_of(w)) as u64,
            loss: from,
        };
    }
    Difference {
        gain: from,
        loss: coefficient * lower as u64,
    }
}

// Whether a term's shift adds nothing: it is not negative, and its lower end is 0.
fn adds_nothing(negative: bool, lower: u32) -> bool
    ensures { result ≡ (not negative && eqb lower half) }
{
    if negative {
        return false;
    }
    lower == HALF
}

// A bound with a term's shift added.
pub fn shifted(bound: Difference, negative: bool, w: u32, lower: u32) -> Difference
    requires { (lower < payloads) × (bound.gain ≤ most_sum) × (bound.loss ≤ most_sum) }
    ensures { (q : Difference) × Differ most_shift (shift_if negative (term_of (sub_ℕ lower half) w)) q × (result ≡ added bound q) }
{
    if adds_nothing(negative, lower) {
        return bound;
    }
    let s = shift(negative, w, lower);
    Difference {
        gain: bound.gain + s.gain,
        loss: bound.loss + s.loss,
    }
}
