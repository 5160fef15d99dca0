// The record of the constraint that words state, made from the last item to the first, as the sums from each level on ask for.
ghost use Rattle.std.specs.Prelude.{◌≡◌, true, ◌+◌, ◌*◌, ◌≤◌, ◌<◌, length, get_or};
ghost use Rattle.diagram.specs.Constraint.{most_terms, most_orders, greatest_sum};
ghost use Rattle.refusal.specs.Table.{passed};
ghost use Rattle.limits.specs.Limits.{main_limits};
ghost use Rattle.constraint_words.specs.Reading.{checked, stated};
ghost use Rattle.constraint_words.specs.Plain.{is_plain};
ghost use Rattle.constraint.specs.Held.{held_of};
ghost use Rattle.constraint.specs.Filling.{begun, with_level};
ghost use Rattle.constraint.specs.Item.{item_before};

use crate::Constraint;
use constraint_bound::{Bound, bound_by, bound_of, is_negative, is_turned, shifted};
use constraint_words::Kind;
use word::HALF;

// An item: the place where it begins, and the payload of its lower end.
#[derive(Drop)]
struct Item {
    at: usize,
    lower: u32,
}

// The item that ends before a place.
fn item_before(words: &[u32], at: usize) -> Item
    requires { (2 ≤ at) × (at ≤ length words.now) }
    ensures { result ≡ item_before words.now at }
{
    let before = words[at - 2];
    if word::kind_of(before) == Kind::LowerEnd as u32 {
        return Item {
            at: at - 2,
            lower: word::payload_of(before),
        };
    }
    Item {
        at: at - 1,
        lower: HALF,
    }
}

impl Constraint {
    // A record of so many terms into which no level is put yet.
    fn begin(bound: Bound, terms: usize) -> Constraint
        ensures { result ≡ begun bound terms }
    {
        Constraint {
            bound,
            terms,
            orders: 0,
            coefficients: [0; Constraint::TERMS],
            ends: [0; Constraint::TERMS],
            rests: [0; Constraint::TERMS + 1],
        }
    }

    // Puts in the level before those that are in.
    fn put(&mut self, level: usize, coefficient: u32, end: u32)
        requires { (level < most_terms) × (self.old.orders + end ≤ most_orders) × (get_or self.old.rests (level + 1) 0 + coefficient * end ≤ greatest_sum) }
        ensures { self.new ≡ with_level self.old level coefficient end }
    {
        self.coefficients[level] = coefficient;
        self.ends[level] = end;
        self.orders += end;
        self.rests[level] = self.rests[level + 1] + coefficient * end;
    }
}

// The record of plain words that pass the check: nothing is added to the bound. (A loop of its own: one for both took half as long again.)
pub fn make_plain(words: &[u32]) -> Constraint
    requires { (checked main_limits words.now ≡ passed) × (is_plain words.now ≡ true) }
    ensures { result ≡ held_of (stated words.now) }
{
    let bound = Bound::Natural(word::payload_of(words[0]) as u64);
    let terms = words.len() - 1;
    let mut made = Constraint::begin(bound, terms);
    'levels: for level in (0..terms).rev() {
        let term = words[level + 1];
        made.put(level, word::coefficient_of(term), word::end_of(term));
    }
    made
}

// The record of any words that pass the check.
pub fn make_items(words: &[u32]) -> Constraint
    requires { checked main_limits words.now ≡ passed }
    ensures { result ≡ held_of (stated words.now) }
{
    let turned = is_turned(words);
    let terms = constraint_words::count_terms(words, constraint_words::first_item(words));
    let mut bound = bound_by(words);
    let mut made = Constraint::begin(bound_of(bound), terms);
    let mut at = words.len();
    'levels: for level in (0..terms).rev() {
        let w = words[at - 1];
        let item = item_before(words, at);
        bound = shifted(bound, is_negative(turned, w), w, item.lower);
        at = item.at;
        made.put(level, word::coefficient_of(w), word::end_of(w));
    }
    made.bound = bound_of(bound);
    made
}
