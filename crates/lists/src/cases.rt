// A case of the list: what its call is handed, and what is expected of it. Every case has all parts, whether its call looks at them or not.
ghost use Rattle.std.specs.Prelude.{◌≡◌, ◌≢◌, ◌↔◌, IfSome, IsTrue, replicate};
ghost use Rattle.lists.specs.Parts.{EndsWith, HasPart};
ghost use Rattle.lists.specs.Cases.{Lent};

use crate::Reader;

// The most values that an accepted call gives: the facts of a node.
pub const MOST_VALUES: usize = 8;

// What stands in lent numbers before a call: 0xEE in every byte, as in lent bytes.
pub const UNTOUCHED: u64 = 0xEEEEEEEEEEEEEEEE;

// A record: where in which bytes it starts, and the node of its type.
#[derive(Clone, Copy)]
pub struct Record<'a> {
    pub bytes: &'a [u8],
    pub offset: usize,
    pub node: usize,
}

// What a call is handed.
#[derive(Clone, Copy)]
pub struct Request<'a> {
    pub a: Record<'a>,
    pub b: Record<'a>,
    pub stream: &'a [u8],
    pub until: usize,
    pub position: u64,
    pub n: u64,
    pub data: &'a [u8],
    pub buffer: &'a [u8],
    pub node: usize,
    pub other: usize,
    pub room: usize,
}

// The numbers that a call is lent: the position in its stream, a place for a single accepted value and places for several.
#[derive(Clone, Copy, PartialEq, Eq)]
pub struct Numbers {
    pub position: u64,
    pub value: u64,
    pub values: [u64; MOST_VALUES],
}

impl Numbers {
    // Before the call.
    pub fn lent(position: u64) -> Self
        ensures { result ≡ record { position = position; value = UNTOUCHED; values = replicate MOST_VALUES UNTOUCHED } }
    {
        Numbers {
            position,
            value: UNTOUCHED,
            values: [UNTOUCHED; MOST_VALUES],
        }
    }
}

// What is expected: the result, how many values are accepted, and the numbers and the output that the call leaves.
#[derive(Clone, Copy)]
pub struct Expected<'a> {
    pub code: u64,
    pub accepted: usize,
    pub numbers: Numbers,
    pub out: &'a [u8],
}

impl Expected<'_> {
    // Whether a call leaves the expected numbers. Where a single value is accepted, the places for several are not looked at.
    pub fn has_numbers(&self, numbers: &Numbers) -> bool
        ensures single { self.now.accepted ≡ 1 → (IsTrue result ↔ ((numbers.now.position ≡ self.now.numbers.position) × (numbers.now.value ≡ self.now.numbers.value))) }
        ensures several { self.now.accepted ≢ 1 → (IsTrue result ↔ (numbers.now ≡ self.now.numbers)) }
    {
        if self.accepted == 1 {
            numbers.position == self.numbers.position && numbers.value == self.numbers.value
        } else {
            *numbers == self.numbers
        }
    }
}

// A case, after the byte of its call.
#[derive(Clone, Copy)]
pub struct Case<'a> {
    pub request: Request<'a>,
    pub expected: Expected<'a>,
}

impl<'a> Reader<'a> {
    // A record: its bytes as a run, then where it starts and its node.
    fn record(&mut self) -> Option<Record<'a>>
        ensures lent { IfSome result (λ r. HasPart self.old r.bytes.now) }
        ensures left { EndsWith self.old self.new }
    {
        Some(Record {
            bytes: self.run()?,
            offset: self.size()?,
            node: self.size()?,
        })
    }

    // What a call is handed, in the order of a list.
    fn request(&mut self) -> Option<Request<'a>>
        ensures lent { IfSome result (λ request. Lent self.old request) }
        ensures left { EndsWith self.old self.new }
    {
        Some(Request {
            a: self.record()?,
            b: self.record()?,
            stream: self.run()?,
            until: self.size()?,
            position: self.number()?,
            n: self.number()?,
            data: self.run()?,
            buffer: self.run()?,
            node: self.size()?,
            other: self.size()?,
            room: self.size()?,
        })
    }

    // How many values are accepted, and these, beside the position. A single one has a place of its own.
    fn numbers(&mut self, position: u64) -> Option<(usize, Numbers)>
        ensures { EndsWith self.old self.new }
    {
        let mut numbers = Numbers::lent(position);
        let count = self.size()?;
        if count == 1 {
            numbers.value = self.number()?;
        } else {
            for value in numbers.values.get_mut(..count)? {
                *value = self.number()?;
            }
        }
        Some((count, numbers))
    }

    // What is expected. The last byte, who says so, is of no use to a replay.
    fn expected(&mut self) -> Option<Expected<'a>>
        ensures lent { IfSome result (λ expected. HasPart self.old expected.out.now) }
        ensures left { EndsWith self.old self.new }
    {
        let code = self.number()?;
        let position = self.number()?;
        let (accepted, numbers) = self.numbers(position)?;
        let out = self.run()?;
        self.byte()?;
        Some(Expected {
            code,
            accepted,
            numbers,
            out,
        })
    }

    // A case.
    pub fn case(&mut self) -> Option<Case<'a>>
        ensures lent { IfSome result (λ case. Lent self.old case.request) }
        ensures expected { IfSome result (λ case. HasPart self.old case.expected.out.now) }
        ensures left { EndsWith self.old self.new }
    {
        Some(Case {
            request: self.request()?,
            expected: self.expected()?,
        })
    }
}
