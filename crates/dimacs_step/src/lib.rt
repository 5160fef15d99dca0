// One byte of DIMACS text: the state between two bytes, and what a byte leads to.
#![tactic(auto)]

ghost use Rattle.std.specs.Prelude.{◌≡◌, cond, true, false, ◌&&◌, ◌≤◌, ◌-◌, eqb};
ghost use Rattle.word.specs.Word.{last_boolean, end_word};
ghost use Rattle.dimacs_text.specs.Machine.{GoodState, GoodCount, GoodOpen, count};
ghost use Rattle.dimacs_text.specs.Machine as machine;
ghost use Rattle.dimacs_step.specs.View.{at, counts, state, view, next, grown, opened};

use word::{LAST_BOOLEAN, Variable};

// The greatest first number of a header.
const MOST_BOOLEANS: u64 = LAST_BOOLEAN as u64;

// The greatest second number of a header.
const MOST_CLAUSES: u64 = 18446744073709551615;

// The most literals of a clause.
const MOST_LITERALS: u32 = 1073741823;

// A number above this one passes 64 bits with one digit more.
const TENTH: u64 = 1844674407370955161;

// What was read last, and so what may follow.
#[derive(Clone, Copy)]
pub enum Phase {
    // A gap before the header, or a comment there.
    Before,
    CommentBefore,
    // The header's letters, and the spaces behind them.
    P,
    AfterP,
    C,
    Cn,
    Cnf,
    AfterCnf,
    // The header's two numbers, and the spaces between them.
    First,
    AfterFirst,
    Second,
    // A gap behind the header, or a comment there.
    Gap,
    Comment,
    // A minus sign, the digits of a literal, the 0 that closes a clause.
    Minus,
    Literal,
    Closed,
}

// The state between two bytes. As an enum whose variants carry what they mean it was tried and proved, and reads a text a quarter slower (0.88 s for 0.70 s).
#[derive(Clone, Copy)]
pub struct State {
    pub phase: Phase,
    // In a gap: a line begins here. In a literal: it is not negated.
    pub flag: bool,
    // The header's first number, once it is read.
    pub most: u32,
    // The clauses still to be closed.
    pub left: u64,
    // The literals of the clause that is read.
    pub literals: u32,
    // The number that is read.
    pub value: u64,
}

// What a byte leads to: no legal text can follow; a state; a state, and a word of the clause list. Of these three ways none is an error with a cause, and an
// Option of a state with an Option of a word would be no plainer.
#[derive(Drop)]
pub enum Next {
    Bad,
    On(State),
    Put(State, u32),
}

// The state before the first byte.
pub fn start() -> State
    ensures { view result ≡ machine.start }
{
    State {
        phase: Phase::Before,
        flag: true,
        most: 0,
        left: 0,
        literals: 0,
        value: 0,
    }
}

// Whether a byte is a space or a tab.
fn is_space(b: u8) -> bool
    ensures { result ≡ machine.space? b }
{
    matches!(b, b' ' | b'\t')
}

// Whether a byte is a blank.
fn is_blank(b: u8) -> bool
    ensures { result ≡ machine.blank? b }
{
    is_space(b) || matches!(b, b'\r' | b'\n')
}

// Whether a byte is a digit.
fn is_digit(b: u8) -> bool
    ensures { result ≡ machine.digit? b }
{
    b.is_ascii_digit()
}

// Whether a byte begins a comment: a `c` that is the first of its line.
fn opens_comment(s: State, b: u8) -> bool
    ensures { result ≡ (s.flag && eqb b 99) }
{
    s.flag && b == b'c'
}

// Another phase with the same counts.
fn to(s: State, phase: Phase, flag: bool, value: u64) -> State
    ensures { result ≡ at phase flag (counts s) value }
{
    State {
        phase,
        flag,
        most: s.most,
        left: s.left,
        literals: s.literals,
        value,
    }
}

// A byte that must be a certain one.
fn must_be(s: State, wanted: u8, phase: Phase, b: u8) -> Next
    ensures { next result ≡ cond (eqb b wanted) (machine.on (state phase false (counts s) 0)) machine.bad }
{
    if b == wanted {
        return Next::On(to(s, phase, false, 0));
    }
    Next::Bad
}

// A byte that must be a space or a tab. (One function for both would take the test as a closure, which is no plainer.)
fn must_space(s: State, phase: Phase, b: u8) -> Next
    ensures { next result ≡ cond (machine.space? b) (machine.on (state phase false (counts s) 0)) machine.bad }
{
    if is_space(b) {
        return Next::On(to(s, phase, false, 0));
    }
    Next::Bad
}

// The digit b behind the digits of a number that may be at most `limit`.
fn grow(s: State, phase: Phase, limit: u64, b: u8) -> Next
    requires { (48 ≤ b) × (b ≤ 57) }
    ensures { next result ≡ grown phase s limit b }
{
    let v = s.value;
    let d = (b - b'0') as u64;
    if v == 0 {
        return Next::Bad;
    }
    if TENTH < v {
        return Next::Bad;
    }
    if limit < 10 * v {
        return Next::Bad;
    }
    if limit - 10 * v < d {
        return Next::Bad;
    }
    Next::On(to(s, phase, s.flag, 10 * v + d))
}

// The first digit of a literal.
fn lead(s: State, says: bool, b: u8) -> Next
    ensures { next result ≡ machine.lead (counts s) says b }
{
    if b < b'1' {
        return Next::Bad;
    }
    if b'9' < b {
        return Next::Bad;
    }
    let d = (b - b'0') as u64;
    if (s.most as u64) < d {
        return Next::Bad;
    }
    Next::On(to(s, Phase::Literal, says, d))
}

// The first byte of a number behind the header: a closing 0, a minus sign or a digit. (`GoodCount` holds only where a clause may follow, so it is asked where it is
// needed, and is no fact of the state's type.)
fn begin(s: State, b: u8) -> Next
    requires { GoodCount (counts s) }
    ensures { next result ≡ machine.begin (machine.after (counts s)) b }
{
    if s.left == 0 {
        return Next::Bad;
    }
    if b == b'0' {
        return close(s);
    }
    if MOST_LITERALS <= s.literals {
        return Next::Bad;
    }
    if b == b'-' {
        if s.most == 0 {
            return Next::Bad;
        }
        return Next::On(to(s, Phase::Minus, false, 0));
    }
    lead(s, true, b)
}

// The 0 that closes a clause, with its end word.
fn close(s: State) -> Next
    requires { (1 ≤ s.left) × GoodCount (counts s) }
    ensures { next result ≡ machine.put (machine.closed (count s.most (s.left - 1) 0)) (end_word s.literals) }
{
    let t = State {
        phase: Phase::Closed,
        flag: false,
        most: s.most,
        left: s.left - 1,
        literals: 0,
        value: 0,
    };
    Next::Put(t, word::end_word(s.literals))
}

// The blank behind a literal, with the literal's word.
fn finish(s: State, b: u8) -> Next
    requires { GoodOpen (counts s) × (s.value ≤ s.most) }
    ensures { next result ≡ machine.after_digits (machine.literal (counts s) s.flag) s.value b }
{
    if is_blank(b) {
        let t = State {
            phase: Phase::Gap,
            flag: b == b'\n',
            most: s.most,
            left: s.left,
            literals: s.literals + 1,
            value: 0,
        };
        let v = Variable(s.value as u32);
        return Next::Put(t, word::literal(s.flag, v));
    }
    Next::Bad
}

// A byte in a gap before the header.
#[tactic(auto, unfolding(dimacs_text::specs::Machine::step))]
fn before(s: State, b: u8) -> Next
    ensures { next result ≡ machine.step (machine.gap machine.before s.flag) b }
{
    if is_blank(b) {
        return Next::On(to(s, Phase::Before, b == b'\n', 0));
    }
    if opens_comment(s, b) {
        return Next::On(to(s, Phase::CommentBefore, false, 0));
    }
    must_be(s, b'p', Phase::P, b)
}

// A byte in a gap behind the header.
#[tactic(auto, unfolding(dimacs_text::specs::Machine::step))]
fn gap(s: State, b: u8) -> Next
    requires { GoodCount (counts s) }
    ensures { next result ≡ machine.step (machine.gap (machine.after (counts s)) s.flag) b }
{
    if is_blank(b) {
        return Next::On(to(s, Phase::Gap, b == b'\n', 0));
    }
    if opens_comment(s, b) {
        return Next::On(to(s, Phase::Comment, false, 0));
    }
    begin(s, b)
}

// A byte of a comment, which its newline ends: then a line begins.
fn in_comment(s: State, gap: Phase, comment: Phase, b: u8) -> Next
    ensures { next result ≡ cond (eqb b 10) (machine.on (state gap true (counts s) 0)) (machine.on (state comment false (counts s) 0)) }
{
    if b == b'\n' {
        return Next::On(to(s, gap, true, 0));
    }
    Next::On(to(s, comment, false, 0))
}

// A byte of a literal's number, or behind it.
#[tactic(auto, unfolding(dimacs_text::specs::Machine::step))]
fn literal(s: State, b: u8) -> Next
    requires { GoodOpen (counts s) × (s.value ≤ s.most) }
    ensures { next result ≡ machine.step (machine.num (machine.literal (counts s) s.flag) s.value) b }
{
    if is_digit(b) {
        return grow(s, Phase::Literal, s.most as u64, b);
    }
    finish(s, b)
}

// A byte behind the 0 that closes a clause.
#[tactic(auto, unfolding(dimacs_text::specs::Machine::step))]
fn closed(s: State, b: u8) -> Next
    ensures { next result ≡ machine.step (machine.closed (counts s)) b }
{
    if is_blank(b) {
        return Next::On(to(s, Phase::Gap, b == b'\n', 0));
    }
    Next::Bad
}

// A byte behind `p` and a space.
#[tactic(auto, unfolding(dimacs_text::specs::Machine::step))]
fn after_p(s: State, b: u8) -> Next
    ensures { next result ≡ machine.step (machine.spaces machine.after_p) b }
{
    if is_space(b) {
        return Next::On(to(s, Phase::AfterP, false, 0));
    }
    must_be(s, b'c', Phase::C, b)
}

// A byte behind a space of the header, where a number follows.
fn before_number(s: State, gap: Phase, number: Phase, b: u8) -> Next
    ensures { next result ≡ opened gap number s b }
{
    if is_space(b) {
        return Next::On(to(s, gap, false, 0));
    }
    if is_digit(b) {
        return Next::On(to(s, number, false, (b - b'0') as u64));
    }
    Next::Bad
}

// A byte of the header's first number, or behind it.
#[tactic(auto, unfolding(dimacs_text::specs::Machine::step))]
fn first(s: State, b: u8) -> Next
    requires { s.value ≤ last_boolean }
    ensures { next result ≡ machine.step (machine.num machine.first s.value) b }
{
    if is_digit(b) {
        return grow(s, Phase::First, MOST_BOOLEANS, b);
    }
    if is_space(b) {
        return Next::On(State {
            phase: Phase::AfterFirst,
            flag: false,
            most: s.value as u32,
            left: 0,
            literals: 0,
            value: 0,
        });
    }
    Next::Bad
}

// A byte of the header's second number, or behind it.
#[tactic(auto, unfolding(dimacs_text::specs::Machine::step))]
fn second(s: State, b: u8) -> Next
    ensures { next result ≡ machine.step (machine.num (machine.second s.most) s.value) b }
{
    if is_digit(b) {
        return grow(s, Phase::Second, MOST_CLAUSES, b);
    }
    if is_blank(b) {
        return Next::On(State {
            phase: Phase::Gap,
            flag: b == b'\n',
            most: s.most,
            left: s.value,
            literals: 0,
            value: 0,
        });
    }
    Next::Bad
}

// What a byte leads to.
#[tactic(auto, unfolding(dimacs_text::specs::Machine::step))]
pub fn step(s: State, b: u8) -> Next
    requires { GoodState (view s) }
    ensures { next result ≡ machine.step (view s) b }
{
    match s.phase {
        Phase::Gap => gap(s, b),
        Phase::Literal => literal(s, b),
        Phase::Minus => lead(s, false, b),
        Phase::Closed => closed(s, b),
        Phase::Comment => in_comment(s, Phase::Gap, Phase::Comment, b),
        Phase::Before => before(s, b),
        Phase::CommentBefore => in_comment(s, Phase::Before, Phase::CommentBefore, b),
        Phase::P => must_space(s, Phase::AfterP, b),
        Phase::C => must_be(s, b'n', Phase::Cn, b),
        Phase::Cn => must_be(s, b'f', Phase::Cnf, b),
        Phase::Cnf => must_space(s, Phase::AfterCnf, b),
        Phase::AfterP => after_p(s, b),
        Phase::AfterCnf => before_number(s, Phase::AfterCnf, Phase::First, b),
        Phase::First => first(s, b),
        Phase::AfterFirst => before_number(s, Phase::AfterFirst, Phase::Second, b),
        Phase::Second => second(s, b),
    }
}

// Whether the text may end here.
pub fn is_final(s: State) -> bool
    ensures { result ≡ machine.final (view s) }
{
    match s.phase {
        Phase::Gap | Phase::Comment | Phase::Closed => s.left == 0,
        Phase::Second => s.value == 0,
        _ => false,
    }
}
