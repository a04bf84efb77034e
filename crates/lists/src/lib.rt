// Reading a list of recorded answers: its bytes, numbers and runs, and the cases that are made of them. The form of a list stands at the head of
// oracle/src/bin/record.rs.
#![tactic(auto)]

mod cases;

ghost use Rattle.std.specs.Prelude.{◌≡◌, ℕ, ◌<◌, ◌≤◌, ◌↔◌, List, [], ◌∷◌, ◌++◌, length, IsTrue, MatchOption};
ghost use Rattle.lists.specs.Parts.{EndsWith, IsNumber, IsRun, LacksNumber, LacksRun, number_of};

pub use cases::{Case, Expected, MOST_VALUES, Numbers, Record, Request, UNTOUCHED};
use std::marker::Model;

// Whether two slices have the same bytes.
pub fn same_bytes(a: &[u8], b: &[u8]) -> bool
    ensures { IsTrue result ↔ a.now ≡ b.now }
{
    a == b
}

// What is left to read of a list. Each method reads one part, and gives nothing where the list does not hold it; what is then left is an end of what
// was left before, as it is after a part.
#[derive(Drop)]
pub struct Reader<'a> {
    rest: &'a [u8],
}

impl<'a> Model for Reader<'a> {
    ghost Value = { List ℕ };

    ghost view = { λ reader. reader.rest.now };
}

impl<'a> Reader<'a> {
    // All of a list.
    pub fn new(list: &'a [u8]) -> Self
        ensures { result ≡ list.now }
    {
        Reader { rest: list }
    }

    // Whether nothing is left.
    pub fn is_empty(&self) -> bool
        ensures { IsTrue result ↔ self.now ≡ [] }
    {
        self.rest.is_empty()
    }

    // A single byte.
    pub fn byte(&mut self) -> Option<u8>
        ensures part { MatchOption result ((self.old ≡ []) × (self.new ≡ [])) (λ byte. self.old ≡ byte ∷ self.new) }
        ensures left { EndsWith self.old self.new }
    {
        let (first, rest) = self.rest.split_first()?;
        self.rest = rest;
        Some(*first)
    }

    // So many bytes.
    fn bytes(&mut self, count: usize) -> Option<&'a [u8]>
        ensures part { MatchOption result ((length self.old < count) × (self.new ≡ self.old)) (λ bytes. (length bytes.now ≡ count) × (self.old ≡ bytes.now ++ self.new)) }
        ensures left { EndsWith self.old self.new }
    {
        let (front, rest) = self.rest.split_at_checked(count)?;
        self.rest = rest;
        Some(front)
    }

    // A number: how many bytes it takes, 0 to 8, and these, the highest first.
    pub fn number(&mut self) -> Option<u64>
        ensures part { MatchOption result (LacksNumber self.old) (λ number. IsNumber self.old number self.new) }
        ensures left { EndsWith self.old self.new }
    {
        let count = self.byte()?;
        if count > 8 {
            return None;
        }
        Some(highest_first(self.bytes(usize::from(count))?))
    }

    // A number that counts bytes or points to a place.
    pub fn size(&mut self) -> Option<usize>
        ensures part { MatchOption result (LacksNumber self.old) (λ number. IsNumber self.old number self.new) }
        ensures left { EndsWith self.old self.new }
    {
        usize::try_from(self.number()?).ok()
    }

    // A run: its length as a number, and so many bytes.
    pub fn run(&mut self) -> Option<&'a [u8]>
        ensures part { MatchOption result (LacksRun self.old) (λ run. IsRun self.old run.now self.new) }
        ensures left { EndsWith self.old self.new }
    {
        let count = self.size()?;
        self.bytes(count)
    }
}

// The number that bytes make, the highest first.
fn highest_first(bytes: &[u8]) -> u64
    requires { length bytes.now ≤ 8 }
    ensures { result ≡ number_of bytes.now }
{
    let mut number = 0;
    for byte in bytes {
        number = number * 256 + u64::from(*byte);
    }
    number
}
