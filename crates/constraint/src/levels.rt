// The levels of a constraint as the passes are lent them.
ghost use Rattle.constraint.specs.Lent.{Lent, Lent-prop};

// For each level the coefficient, the domain end, and the greatest sum from that level on; the sums end with a 0, and so have one more place.
#[derive(Clone, Copy)]
pub struct Levels<'a> {
    pub coefficients: &'a [u32],
    pub ends: &'a [u32],
    pub rests: &'a [u32],
    pub ghost lent: { Lent coefficients.now ends.now rests.now } by { Lent-prop coefficients.now ends.now rests.now },
}
