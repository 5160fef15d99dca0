// The refusal table: why a call refuses its input, one variant for each row.
#![tactic(auto)]

ghost use Rattle.std.specs.Prelude.{◌≡◌};
ghost use Rattle.refusal.specs.Table.{number_of, place_of};

// A variant carries its place where the row's place depends on the input.
#[derive(Clone, Copy)]
pub enum Refusal {
    NoWords,
    WrongKind(usize),
    TermCount(usize),
    DomainEnd(usize),
    ZeroCoefficient(usize),
    TooManyNodes,
    TooManyEdges,
    TooManyWords,
    ValueByte(usize),
    ClauseWord(usize),
    UnknownBoolean(usize),
    LiteralCount(usize),
    OpenClause(usize),
    NoRoom,
    NotDimacs(usize),
    WrongRelation(usize),
    LowerEnd(usize),
    BufferLength,
    BadRecord(usize),
}

impl Refusal {
    // The row's number.
    pub fn number(self) -> u32
        ensures { result ≡ number_of self }
    {
        match self {
            Refusal::NoWords => 1,
            Refusal::WrongKind(_) => 2,
            Refusal::TermCount(_) => 3,
            Refusal::DomainEnd(_) => 4,
            Refusal::ZeroCoefficient(_) => 5,
            Refusal::TooManyNodes => 6,
            Refusal::TooManyEdges => 7,
            Refusal::TooManyWords => 8,
            Refusal::ValueByte(_) => 10,
            Refusal::ClauseWord(_) => 11,
            Refusal::UnknownBoolean(_) => 12,
            Refusal::LiteralCount(_) => 13,
            Refusal::OpenClause(_) => 14,
            Refusal::NoRoom => 15,
            Refusal::NotDimacs(_) => 16,
            Refusal::WrongRelation(_) => 17,
            Refusal::LowerEnd(_) => 18,
            Refusal::BufferLength => 19,
            Refusal::BadRecord(_) => 20,
        }
    }

    // The place that the refusal names, from 0.
    pub fn place(self) -> usize
        ensures { result ≡ place_of self }
    {
        match self {
            Refusal::WrongKind(at)
            | Refusal::TermCount(at)
            | Refusal::DomainEnd(at)
            | Refusal::ZeroCoefficient(at)
            | Refusal::ValueByte(at)
            | Refusal::ClauseWord(at)
            | Refusal::UnknownBoolean(at)
            | Refusal::LiteralCount(at)
            | Refusal::OpenClause(at)
            | Refusal::NotDimacs(at)
            | Refusal::WrongRelation(at)
            | Refusal::LowerEnd(at)
            | Refusal::BadRecord(at) => at,
            _ => 0,
        }
    }
}
