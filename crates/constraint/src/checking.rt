// The checks of constraint words that go by limits, the caller's on terms and the record's: refusals 3 to 5, and 17 and 18 before them.
ghost use Rattle.std.specs.Prelude.{◌≡◌, true, ◌≤◌, length, get_or, drop};
ghost use Rattle.word.specs.Word.{kind};
ghost use Rattle.constraint_words.specs.Reading.{first_item, each_from, count_checked, term_checked, items_checked, checked};
ghost use Rattle.constraint_words.specs.Plain.{is_plain};

use crate::Constraint;
use constraint_words::Kind;
use limits::{Limits, counted_as};
use refusal::Refusal;

// Refusals 4 and 5 of an item.
fn check_term(at: usize, w: u32) -> Result<(), Refusal>
    ensures { result ≡ term_checked at w }
{
    if word::kind_of(w) == Kind::LowerEnd as u32 {
        return Ok(());
    }
    let end = word::end_of(w);
    if end < 1 || Constraint::END < end {
        return Err(Refusal::DomainEnd(at));
    }
    if word::coefficient_of(w) < 1 {
        return Err(Refusal::ZeroCoefficient(at));
    }
    Ok(())
}

// Refusal 3 of a number of terms, under a caller's limits.
fn check_count(limits: Limits, words: usize, terms: usize) -> Result<(), Refusal>
    ensures { result ≡ count_checked limits words terms }
{
    let most = counted_as(limits.terms, Constraint::TERMS);
    if terms < 1 || most < terms {
        return Err(Refusal::TermCount(words));
    }
    Ok(())
}

// Refusals 3 to 5 of plain words.
pub fn check_plain(limits: Limits, words: &[u32]) -> Result<(), Refusal>
    requires { (kind (get_or words.now 0 0) ≡ 0) × (is_plain words.now ≡ true) }
    ensures { result ≡ checked limits words.now }
{
    let count = words.len();
    let terms = count - 1;
    check_count(limits, count, terms)?;
    constraint_words::check_each(words, 1, check_term)
}

// Refusals 17, 18 and 3 to 5 of words whose items stand in their places.
pub fn check_items(limits: Limits, words: &[u32], first: usize) -> Result<(), Refusal>
    requires { (first ≡ first_item words.now) × (first ≤ length words.now) }
    ensures { result ≡ items_checked limits words.now }
{
    if first == 2 && 3 < word::payload_of(words[1]) {
        return Err(Refusal::WrongRelation(1));
    }
    let terms = constraint_words::count_terms(words, first);
    constraint_places::check_lowers(words, first, terms)?;
    check_count(limits, words.len(), terms)?;
    constraint_words::check_each(words, first, check_term)
}
