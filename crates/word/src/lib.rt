// Words: kind and payload, the words that the encoder writes, and the three numbers that must not be taken for each other.
#![tactic(auto)]

mod records; // the records of the flat table, where they are only read

ghost use Rattle.std.specs.Prelude.{◌≡◌, true, false, ◌≤◌};
ghost use Rattle.word.specs.Word.{kind, payload, domain_end, coefficient, boolean, negated, last_boolean, literal_word, last_count, end_word, of_bytes};
ghost use Rattle.word.specs.Padded.{filled};
ghost use Rattle.word.specs.Edge.{to, edge_word, edge_in, edge_boolean, edge_of};

pub use records::Records;

// A Boolean variable, from 1.
#[derive(Clone, Copy)]
pub struct Variable(pub u32);

// A node's number in the table, from 0.
#[derive(Clone, Copy)]
pub struct NodeNumber(pub usize);

// What is left of the bound, where it is not below 0.
#[derive(Clone, Copy)]
pub struct Remainder(pub u32);

// The end of an edge.
#[derive(Clone, Copy)]
pub enum Child {
    False,
    True,
    Node(NodeNumber),
}

// The words of a node's record in the flat table. The level stands first.
pub const RECORD: usize = 5;

// Where in them the other fields stand: both ends of the label, the first place in the edge list, and the number of entering edges.
pub const LOWER: usize = 1;

pub const UPPER: usize = 2;

pub const FIRST: usize = 3;

pub const ENTERING: usize = 4;

// The most nodes that a table is filled with, however long it is.
pub const NODES: usize = 65536;

// The greatest Boolean that a literal can hold.
pub const LAST_BOOLEAN: u32 = 536870911;

// Half of the payloads: what is taken from a payload that may say a number below 0.
pub const HALF: u32 = 0x20000000;

// The top two bits of a word.
pub fn kind_of(w: u32) -> u32
    ensures { result ≡ kind w }
{
    w / 0x40000000
}

// The other 30 bits.
pub fn payload_of(w: u32) -> u32
    ensures { result ≡ payload w }
{
    w % 0x40000000
}

// The word of four bytes, the first of them the highest.
pub fn word_of(a: u8, b: u8, c: u8, d: u8) -> u32
    ensures { result ≡ of_bytes a b c d }
{
    u32::from_be_bytes([a, b, c, d])
}

// A term's domain end.
pub fn end_of(w: u32) -> u32
    ensures { result ≡ domain_end w }
{
    w % HALF / 0x10000
}

// A term's coefficient without its sign.
pub fn coefficient_of(w: u32) -> u32
    ensures { result ≡ coefficient w }
{
    w % 0x10000
}

// A literal's Boolean.
pub fn boolean_of(w: u32) -> Variable
    ensures { result.0 ≡ boolean w }
{
    Variable(w % HALF)
}

// Whether a literal is negated, or a term's coefficient is negative.
pub fn is_negated(w: u32) -> bool
    ensures { result ≡ negated w }
{
    HALF <= payload_of(w)
}

// The word of the literal that says that a Boolean is true, or that it is false.
pub fn literal(says: bool, b: Variable) -> u32
    requires { b.0 ≤ last_boolean }
    ensures { result ≡ literal_word says b.0 }
{
    let sign = if says { 0x80000000 } else { 0xA0000000 };
    sign + b.0
}

// The end word of a clause with k literals.
pub fn end_word(k: u32) -> u32
    requires { k ≤ last_count }
    ensures { result ≡ end_word k }
{
    0xC0000000 + k
}

// The word of an edge. A node's number has to fit in it, so this is no `From`, which asks nothing.
pub fn edge_word(c: Child) -> u32
    requires { edge_word (edge_of c) ≤ 4294967295 }
    ensures { result ≡ edge_word (edge_of c) }
{
    match c {
        Child::False => 0xC0000000,
        Child::True => 0xC0000001,
        Child::Node(k) => k.0 as u32,
    }
}

impl From<u32> for Child {
    // The end of an edge, from its word.
    fn from(w: u32) -> Child
        ensures { edge_of result ≡ edge_in w }
    {
        match w {
            0xC0000000 => Child::False,
            0xC0000001 => Child::True,
            _ => Child::Node(NodeNumber(w as usize)),
        }
    }
}

// The numbering formula: node k is Boolean D + 3 + k, after D order Booleans, T and F.
pub fn node_variable(orders: u32, k: NodeNumber) -> Variable
    requires { edge_boolean orders (to k.0) ≤ last_boolean }
    ensures { result.0 ≡ edge_boolean orders (to k.0) }
{
    Variable(orders + 3 + k.0 as u32)
}

// The Boolean of an edge's end.
pub fn child_variable(orders: u32, c: Child) -> Variable
    requires { edge_boolean orders (edge_of c) ≤ last_boolean }
    ensures { result.0 ≡ edge_boolean orders (edge_of c) }
{
    match c {
        Child::False => Variable(orders + 2),
        Child::True => Variable(orders + 1),
        Child::Node(k) => node_variable(orders, k),
    }
}

// A value in lent memory, from a place on.
pub fn fill_from<T: Copy>(list: &mut [T], from: usize, value: T)
    ensures { list.new ≡ filled value from list.old }
{
    if from < list.len() {
        for place in list[from..].iter_mut() {
            *place = value;
        }
    }
}
