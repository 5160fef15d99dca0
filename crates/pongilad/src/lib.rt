// The calls of the static library, for C and Rust: each slice is a pointer and a length, each reply a struct of numbers. include/pongilad.h is their C side,
// which is why a reply stays a struct with a number for each kind, and is no Result or Option: it is made from one at the end of its call.
#![tactic(auto)]

ghost use Rattle.std.specs.Prelude.{◌≡◌, Err};
ghost use Rattle.word.specs.Record.{records};
ghost use Rattle.limits.specs.Limits.{main_limits};
ghost use Rattle.finder.specs.Find.{find_in};
ghost use Rattle.finder_records.specs.Nodes.{records_of};
ghost use Rattle.comparer.specs.Bytes.{compared};
ghost use Rattle.tester.specs.Tested.{tested};
ghost use Rattle.marker.specs.Reply.{marked_reply};
ghost use Rattle.dimacs_reader.specs.Reads.{Reads};
ghost use Rattle.dimacs_writer.specs.Writes.{Writes};
ghost use Rattle.pongilad.specs.Fields.{encoded_fields, found_fields, tested_fields, propagated_fields, marked_fields, compared_fields, text_fields, Encodes, Settles, Converts};

use constraint::Constraint;
use filler::Counts;
use finder_records::Node;
use limits::Limits;
use propagator::Propagated;
use refusal::Refusal;
use tester::NotTrue;
use word::{NodeNumber, Remainder};

// The encoder's reply: number 0 and the counts, or a refusal's number and place.
#[repr(C)]
#[derive(Drop)]
pub struct EncodedReply {
    pub number: u64,
    pub place: u64,
    pub nodes: u64,
    pub edges: u64,
    pub words: u64,
}

// The finder's reply: found is 1 and number a record's, or found is 0 and number the gap.
#[repr(C)]
#[derive(Drop)]
pub struct FoundReply {
    pub found: u64,
    pub number: u64,
}

// The clause tester's reply: verdict 0, all true; 1, the number and place of a clause; 2, those of a refusal.
#[repr(C)]
#[derive(Drop)]
pub struct TestedReply {
    pub verdict: u64,
    pub number: u64,
    pub place: u64,
}

// The propagator's reply: verdict 0, settled; 1, a conflict; 2, a refusal's number and place.
#[repr(C)]
#[derive(Drop)]
pub struct PropagatedReply {
    pub verdict: u64,
    pub number: u64,
    pub place: u64,
}

// The marker's reply: right is 1, or 0 with a refusal's number and place.
#[repr(C)]
#[derive(Drop)]
pub struct MarkedReply {
    pub right: u64,
    pub number: u64,
    pub place: u64,
}

// The file comparer's reply: same is 1 and word 0; or same is 0 and word the number of the first word whose bytes are not all there or are others, or the
// count of words where all have theirs and more bytes follow.
#[repr(C)]
#[derive(Drop)]
pub struct ComparedReply {
    pub same: u64,
    pub word: u64,
}

// The reply of the calls that write and read text: number 0 and the result's length, or a refusal's number and place.
#[repr(C)]
#[derive(Drop)]
pub struct TextReply {
    pub number: u64,
    pub place: u64,
    pub length: u64,
}

// The fields of an encoder's refusal.
impl From<Refusal> for EncodedReply {
    ghost from_gives = { λ x reply. reply ≡ encoded_fields (Err x) };

    fn from(x: Refusal) -> EncodedReply {
        EncodedReply {
            number: x.number() as u64,
            place: x.place() as u64,
            nodes: 0,
            edges: 0,
            words: 0,
        }
    }
}

// The fields of an encoder's reply.
impl From<Result<Counts, Refusal>> for EncodedReply {
    ghost from_gives = { λ x reply. reply ≡ encoded_fields x };

    fn from(x: Result<Counts, Refusal>) -> EncodedReply {
        match x {
            Ok(n) => EncodedReply {
                number: 0,
                place: 0,
                nodes: n.nodes as u64,
                edges: n.edges as u64,
                words: n.words as u64,
            },
            Err(y) => EncodedReply::from(y),
        }
    }
}

// The fields of a finder's reply.
impl From<Result<NodeNumber, usize>> for FoundReply {
    ghost from_gives = { λ x reply. reply ≡ found_fields x };

    fn from(x: Result<NodeNumber, usize>) -> FoundReply {
        match x {
            Ok(k) => FoundReply {
                found: 1,
                number: k.0 as u64,
            },
            Err(gap) => FoundReply {
                found: 0,
                number: gap as u64,
            },
        }
    }
}

// The fields of a clause tester's reply.
impl From<Result<Option<NotTrue>, Refusal>> for TestedReply {
    ghost from_gives = { λ x reply. reply ≡ tested_fields x };

    fn from(x: Result<Option<NotTrue>, Refusal>) -> TestedReply {
        match x {
            Ok(None) => TestedReply {
                verdict: 0,
                number: 0,
                place: 0,
            },
            Ok(Some(c)) => TestedReply {
                verdict: 1,
                number: c.clause as u64,
                place: c.at as u64,
            },
            Err(y) => TestedReply {
                verdict: 2,
                number: y.number() as u64,
                place: y.place() as u64,
            },
        }
    }
}

// The fields of a propagator's reply.
impl From<Result<Propagated, Refusal>> for PropagatedReply {
    ghost from_gives = { λ x reply. reply ≡ propagated_fields x };

    fn from(x: Result<Propagated, Refusal>) -> PropagatedReply {
        match x {
            Ok(Propagated::Settled) => PropagatedReply {
                verdict: 0,
                number: 0,
                place: 0,
            },
            Ok(Propagated::Conflict) => PropagatedReply {
                verdict: 1,
                number: 0,
                place: 0,
            },
            Err(y) => PropagatedReply {
                verdict: 2,
                number: y.number() as u64,
                place: y.place() as u64,
            },
        }
    }
}

// The fields of a marker's reply.
impl From<Result<(), Refusal>> for MarkedReply {
    ghost from_gives = { λ x reply. reply ≡ marked_fields x };

    fn from(x: Result<(), Refusal>) -> MarkedReply {
        match x {
            Ok(()) => MarkedReply {
                right: 1,
                number: 0,
                place: 0,
            },
            Err(y) => MarkedReply {
                right: 0,
                number: y.number() as u64,
                place: y.place() as u64,
            },
        }
    }
}

// The fields of a file comparer's reply.
impl From<Option<usize>> for ComparedReply {
    ghost from_gives = { λ x reply. reply ≡ compared_fields x };

    fn from(x: Option<usize>) -> ComparedReply {
        match x {
            None => ComparedReply { same: 1, word: 0 },
            Some(k) => ComparedReply {
                same: 0,
                word: k as u64,
            },
        }
    }
}

// The fields of the reply of a call that writes or reads text.
impl From<Result<usize, Refusal>> for TextReply {
    ghost from_gives = { λ x reply. reply ≡ text_fields x };

    fn from(x: Result<usize, Refusal>) -> TextReply {
        match x {
            Ok(n) => TextReply {
                number: 0,
                place: 0,
                length: n as u64,
            },
            Err(y) => TextReply {
                number: y.number() as u64,
                place: y.place() as u64,
                length: 0,
            },
        }
    }
}

// The node table, the edge list and the clause list of the constraint that the words state, under the caller's limits on terms and on nodes.
#[unsafe(no_mangle)]
pub extern "C" fn pongilad_encode_with(
    terms: u64,
    nodes: u64,
    words: &[u32],
    table: &mut [u32],
    edges: &mut [u32],
    clauses: &mut [u32],
) -> EncodedReply
    ensures { Encodes (record { terms = terms; nodes = nodes }) words.now table.old edges.old clauses.old table.new edges.new clauses.new result }
{
    let limits = Limits { terms, nodes };
    let x = encoder::encode_with(limits, words, table, edges, clauses);
    EncodedReply::from(x)
}

// The same under the main limits. The check stands here and not behind a call of the one above: that makes 20 nanoseconds, which tell at 3 nodes.
#[unsafe(no_mangle)]
pub extern "C" fn pongilad_encode(
    words: &[u32],
    table: &mut [u32],
    edges: &mut [u32],
    clauses: &mut [u32],
) -> EncodedReply
    ensures { Encodes main_limits words.now table.old edges.old clauses.old table.new edges.new clauses.new result }
{
    let limits = Constraint::main_limits();
    let plain = constraint_words::is_plain(words);
    match Constraint::check_by(limits, words, plain) {
        Err(x) => EncodedReply::from(x),
        Ok(()) => {
            let x = encoder::encode_passed(limits, words, plain, table, edges, clauses);
            EncodedReply::from(x)
        }
    }
}

// The first record of the level whose label holds the remainder.
#[unsafe(no_mangle)]
pub extern "C" fn pongilad_find(table: &[u32], level: u32, remainder: u32) -> FoundReply
    ensures { result ≡ found_fields (find_in (records table.now) level remainder) }
{
    let x = finder::find(table, level, Remainder(remainder));
    FoundReply::from(x)
}

// The same for a table that is a list of records.
#[unsafe(no_mangle)]
pub extern "C" fn pongilad_find_node(nodes: &[Node], level: u32, remainder: u32) -> FoundReply
    ensures { result ≡ found_fields (find_in (records_of nodes.now) level remainder) }
{
    let x = finder_records::find(nodes, level, Remainder(remainder));
    FoundReply::from(x)
}

// Whether every clause is true under the values, and if not, which is the first that is false or what is refused.
#[unsafe(no_mangle)]
pub extern "C" fn pongilad_test(values: &[u8], clauses: &[u32]) -> TestedReply
    ensures { result ≡ tested_fields (tested values.now clauses.now) }
{
    let x = tester::test(values, clauses);
    TestedReply::from(x)
}

// All that unit propagation settles from value bytes of 0 (false), 1 (true) and 2 (open); or a conflict, and the starting bytes; or what is refused.
#[unsafe(no_mangle)]
pub extern "C" fn pongilad_propagate(
    values: &[u8],
    clauses: &[u32],
    settled: &mut [u8],
) -> PropagatedReply
    ensures { Settles values.now clauses.now settled.old settled.new result }
{
    let x = propagator::propagate(values, clauses, settled);
    PropagatedReply::from(x)
}

// Whether the table and the edge list are a right drawing of the constraint that the words state, and if not, what is refused or which is the first bad record.
#[unsafe(no_mangle)]
pub extern "C" fn pongilad_mark(words: &[u32], table: &[u32], edges: &[u32]) -> MarkedReply
    ensures { result ≡ marked_fields (marked_reply words.now table.now edges.now) }
{
    let x = marker::mark(words, table, edges);
    MarkedReply::from(x)
}

// Whether the bytes are those of the words, and if not, where they part.
#[unsafe(no_mangle)]
pub extern "C" fn pongilad_compare(bytes: &[u8], words: &[u32]) -> ComparedReply
    ensures { result ≡ compared_fields (compared bytes.now words.now) }
{
    let x = comparer::compare(bytes, words);
    ComparedReply::from(x)
}

// The DIMACS text of a clause list, with zeros behind it.
#[unsafe(no_mangle)]
pub extern "C" fn pongilad_write(clauses: &[u32], text: &mut [u8]) -> TextReply
    ensures { Converts (Writes clauses.now text.old text.new) result }
{
    let x = dimacs_writer::write(clauses, text);
    TextReply::from(x)
}

// The clause list that a DIMACS text says, with zeros behind it.
#[unsafe(no_mangle)]
pub extern "C" fn pongilad_read(text: &[u8], clauses: &mut [u32]) -> TextReply
    ensures { Converts (Reads text.now clauses.old clauses.new) result }
{
    let x = dimacs_reader::read(text, clauses);
    TextReply::from(x)
}
