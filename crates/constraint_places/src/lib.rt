// The checks of constraint words that go by no limit of the record: refusal 2 of the places of the items, and 18 of their lower ends.
#![tactic(auto)]

ghost use Rattle.std.specs.Prelude.{◌≡◌, false, ◌≤◌, pos, length, drop};
ghost use Rattle.constraint_words.specs.Reading.{can_stand, placed_from, each_from, lower_checked, terms_from};

use constraint_words::Kind;
use refusal::Refusal;
use word::HALF;

// The farthest lower end from 0.
const LOWER: u32 = 1000000;

// Whether a word of a kind, the format's number, can stand behind the items before it. (A `match` on `Kind` would be no plainer.)
fn can_stand(due: bool, kind: u32) -> bool
    ensures { result ≡ can_stand due kind }
{
    kind == Kind::Term as u32 || (kind == Kind::LowerEnd as u32 && !due)
}

// Refusal 2 of the items.
pub fn check_places(words: &[u32], first: usize) -> Result<(), Refusal>
    requires { first ≤ length words.now }
    ensures { result ≡ placed_from false first (drop first words.now) }
{
    let mut due = false;
    'places: for at in first..words.len() {
        let kind = word::kind_of(words[at]);
        if !can_stand(due, kind) {
            return Err(Refusal::WrongKind(at));
        }
        due = kind == Kind::LowerEnd as u32;
    }
    if due {
        return Err(Refusal::WrongKind(words.len()));
    }
    Ok(())
}

// Refusal 18 of an item.
fn check_lower(at: usize, w: u32) -> Result<(), Refusal>
    ensures { result ≡ lower_checked at w }
{
    if word::kind_of(w) == Kind::LowerEnd as u32 && LOWER < word::payload_of(w).abs_diff(HALF) {
        return Err(Refusal::LowerEnd(at));
    }
    Ok(())
}

// Refusal 18 of the items, whose number of terms is known: without lower ends there are as many terms as words.
pub fn check_lowers(words: &[u32], first: usize, terms: usize) -> Result<(), Refusal>
    requires { (first ≤ length words.now) × (terms ≡ length (terms_from (pos 0) (drop first words.now))) }
    ensures { result ≡ each_from lower_checked first (drop first words.now) }
{
    if terms == words.len() - first {
        return Ok(());
    }
    constraint_words::check_each(words, first, check_lower)
}
