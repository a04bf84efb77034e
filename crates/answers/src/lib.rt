// What the public calls answer: a result, with what was accepted in it or the refusal. `specs/` says by cases which number and which values each
// stands for.
#![tactic(auto)]

ghost use Rattle.std.specs.Prelude.{◌≡◌};
ghost use Rattle.answers.specs.Verdicts.{refusal_no, refusal_place};

use tables::Kind;

// Why a call was refused, in the order in which the ladder asks: where several apply, the first is answered.
#[derive(Clone, Copy, PartialEq, Eq)]
pub enum Refusal {
    // The table or its facts are unsound, from a node or an offset in a file on.
    Unsound { place: usize },
    // A named node is not in the table.
    NoSuchNode,
    // A named record type is too wide.
    TooWide,
    // A named record type is too large.
    TooLarge,
    // A record or a stream runs past its bytes, or a position past its stream.
    OutOfBytes,
    // A number is outside its range.
    OutOfRange,
    // A type or a record has the wrong shape.
    WrongShape,
    // The stream ends early.
    EndsEarly,
    // The output is shorter than the whole result needs.
    NoRoom,
}

// The table is unsound as a whole: its count, a column or its groups.
pub const UNSOUND: Refusal = Refusal::Unsound { place: 0 };

impl Refusal {
    // The number of the refusal on the ladder.
    pub fn number(self) -> u8
        ensures { result ≡ refusal_no self }
    {
        match self {
            Refusal::Unsound { .. } => 1,
            Refusal::NoSuchNode => 2,
            Refusal::TooWide => 3,
            Refusal::TooLarge => 4,
            Refusal::OutOfBytes => 5,
            Refusal::OutOfRange => 6,
            Refusal::WrongShape => 7,
            Refusal::EndsEarly => 8,
            Refusal::NoRoom => 9,
        }
    }

    // Its place: the node at fault or the offset in a file, and 0 where there is none.
    pub fn place(self) -> usize
        ensures { result ≡ refusal_place self }
    {
        match self {
            Refusal::Unsound { place } => place,
            _ => 0,
        }
    }
}

// The two sides of a node.
#[derive(Clone, Copy, PartialEq, Eq)]
pub struct Sides {
    pub left: usize,
    pub right: usize,
}

// Everything that a table says of a node.
#[derive(Clone, Copy, PartialEq, Eq)]
pub struct Facts {
    pub width: u64,
    pub size: u64,
    pub padded: bool,
    pub class: usize,
    pub kind: Kind,
    pub left: usize,
    pub right: usize,
    pub least: u64,
}

// A place in the caller's bytes: a bit offset and a node.
#[derive(Clone, Copy, PartialEq, Eq)]
pub struct Spot {
    pub offset: usize,
    pub node: usize,
}
