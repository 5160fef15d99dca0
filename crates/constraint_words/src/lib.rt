// The parts of constraint words: whether a relation is given, where the items begin, how many terms there are, and whether the words are plain.
#![tactic(auto)]

ghost use Rattle.std.specs.Prelude.{ℕ, ◌≡◌, ◌≤◌, pos, length, drop, count_by, ◌==◌, ◌/◌, not};
ghost use Rattle.refusal.specs.Table.{Checked};
ghost use Rattle.word.specs.Word.{half, kind};
ghost use Rattle.constraint_words.specs.Reading.{has_relation, first_item, terms_from, each_from, Replies};
ghost use Rattle.constraint_words.specs.Plain.{unsigned_in, is_plain};

use refusal::Refusal;
use word::HALF;

// What a word of a constraint is, by its kind: the names of the format's numbers, with which a word's kind is compared.
#[derive(Clone, Copy)]
pub enum Kind {
    Bound = 0,
    Term = 1,
    LowerEnd = 2,
    Relation = 3,
}

// Whether a relation is given.
pub fn has_relation(words: &[u32]) -> bool
    ensures { result ≡ has_relation words.now }
{
    1 < words.len() && word::kind_of(words[1]) == Kind::Relation as u32
}

// The place of the first item.
pub fn first_item(words: &[u32]) -> usize
    ensures { result ≡ first_item words.now }
{
    if has_relation(words) { 2 } else { 1 }
}

// The number of words that are no lower ends.
fn count_but_lowers(items: &[u32]) -> usize
    ensures { result ≡ count_by (λ w. not (kind w == 2)) items.now }
{
    items
        .iter()
        .filter(|w| word::kind_of(**w) != Kind::LowerEnd as u32)
        .count()
}

// The number of terms among the items.
pub fn count_terms(words: &[u32], first: usize) -> usize
    requires { first ≤ length words.now }
    ensures { result ≡ length (terms_from (pos 0) (drop first words.now)) }
{
    count_but_lowers(&words[first..])
}

// The number of terms without a sign. A loop: at 65 words the chain of `filter` and `count` takes twice as long, and each call counts.
fn count_unsigned(items: &[u32]) -> usize
    ensures { result ≡ count_by (λ w. w / half == 2) items.now }
{
    let mut terms = 0;
    for w in items {
        if *w / HALF == 2 {
            terms += 1;
        }
    }
    terms
}

// Whether the words are plain.
pub fn is_plain(words: &[u32]) -> bool
    ensures { result ≡ is_plain words.now }
{
    let [_, items @ ..] = words else {
        return false;
    };
    count_unsigned(items) + 1 == words.len()
}

// The first refusal of a check of each word in turn, the first of them at a place.
pub fn check_each<F: Fn(usize, u32) -> Result<(), Refusal>>(
    words: &[u32],
    first: usize,
    check: F,
) -> Result<(), Refusal>
    requires { F.IsAlwaysCallable check }
    ensures { (told : ℕ → ℕ → Checked) → Replies (F.post check) told → result ≡ each_from told first (drop first words.now) }
{
    'words: for at in first..words.len() {
        check(at, words[at])?;
    }
    Ok(())
}
