// What an accepted value is to C: one number, or several in an order.
ghost use Rattle.std.specs.Prelude.{◌≡◌, ℕ, List};
ghost use Rattle.meaning.specs.Tables.{digit};
ghost use Rattle.tables.specs.Kinds.{kind_no};
ghost use Rattle.answers.specs.Verdicts.{order, sides, node_facts, spot, spots};
ghost use Rattle.exports_answers.specs.Codes.{rank, facts_list, sides_list, spot_list, spots_list};

use answers::{Facts, Sides, Spot};
use std::cmp::Ordering;
use tables::Kind;

// A value that crosses as one number.
pub trait Number {
    ghost number: { Self → ℕ };

    fn number(self) -> u64
        ensures { result ≡ number self };
}

impl Number for usize {
    ghost number = { λ n. n };

    fn number(self) -> u64 {
        self as u64
    }
}

// Yes and no.
impl Number for bool {
    ghost number = { digit };

    fn number(self) -> u64 {
        if self { 1 } else { 0 }
    }
}

// Less, equal, greater.
impl Number for Ordering {
    ghost number = { λ o. rank (order o) };

    fn number(self) -> u64 {
        match self {
            Ordering::Less => 0,
            Ordering::Equal => 1,
            Ordering::Greater => 2,
        }
    }
}

// A value that crosses as N numbers.
pub trait Numbers<const N: usize> {
    ghost numbers: { Self → List ℕ };

    fn numbers(self) -> [u64; N]
        ensures { result ≡ numbers self };
}

// A kind's number.
fn kind_number(kind: Kind) -> u64
    ensures { result ≡ kind_no kind }
{
    match kind {
        Kind::Unit => 0,
        Kind::Sum => 1,
        Kind::Product => 2,
    }
}

impl Numbers<8> for Facts {
    ghost numbers = { λ f. facts_list (node_facts f) };

    fn numbers(self) -> [u64; 8] {
        [
            self.width,
            self.size,
            self.padded.number(),
            self.class as u64,
            kind_number(self.kind),
            self.left as u64,
            self.right as u64,
            self.least,
        ]
    }
}

impl Numbers<2> for Sides {
    ghost numbers = { λ s. sides_list (sides s) };

    fn numbers(self) -> [u64; 2] {
        [self.left as u64, self.right as u64]
    }
}

impl Numbers<2> for Spot {
    ghost numbers = { λ s. spot_list (spot s) };

    fn numbers(self) -> [u64; 2] {
        [self.offset as u64, self.node as u64]
    }
}

impl Numbers<4> for (Spot, Spot) {
    ghost numbers = { λ s. spots_list (spots s) };

    fn numbers(self) -> [u64; 4] {
        let (first, second) = self;
        [
            first.offset as u64,
            first.node as u64,
            second.offset as u64,
            second.node as u64,
        ]
    }
}
