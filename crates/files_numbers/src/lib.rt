// A table's file, read number by number from its front or from any offset on: the count of nodes, and numbers below a limit.
// Whatever is read, the reader stands behind it afterwards, or at the fault in it.
#![tactic(auto)]

ghost use Rattle.std.specs.Prelude.{◌≡◌, ltb};
ghost use Rattle.meaning.specs.Tables.{count_right};
ghost use Rattle.meaning.specs.Files.{number_at, number, ended};
ghost use Rattle.files_numbers.specs.Places.{place_at, front, behind};
ghost use Rattle.files_numbers.specs.Readings.{answer_of, seen_at};

use std::marker::Model;

// The place of a fault: the first byte of a faulty number, or the first surplus byte.
#[derive(Clone, Copy, PartialEq, Eq)]
pub struct Fault {
    pub place: usize,
}

// A file that is read from an offset on. A clause sees both.
#[derive(Drop)]
pub struct Reader<'a> {
    file: &'a [u8],
    at: usize,
}

impl<'a> Model for Reader<'a> {
    ghost use Rattle.files_numbers.specs.Places.{Place};

    ghost Value = { Place };

    ghost view = { λ r. record { file = r.file.now; at = r.at } };
}

impl<'a> Reader<'a> {
    // A reader at the file's first byte.
    pub fn new(file: &'a [u8]) -> Reader<'a>
        ensures { result ≡ front file.now }
    {
        Reader { file, at: 0 }
    }

    // A reader at an offset of a file, which may lie past its end: no number stands there.
    pub fn at(file: &'a [u8], at: usize) -> Reader<'a>
        ensures { result ≡ place_at file.now at }
    {
        Reader { file, at }
    }

    // The offset of the byte that is next: after a number that was read, that of the byte behind it.
    pub fn offset(&self) -> usize
        ensures { result ≡ self.now.at }
    {
        let Reader { at, .. } = self;
        *at
    }

    // The number whose first byte is the next, in shortest form and of at most two groups, and the offset after it.
    #[tactic(auto, unfolding(meaning::specs::Files::seven_bit_groups))]
    fn number(&self) -> Option<(usize, usize)>
        ensures { seen_at self.now.at result ≡ number_at self.now.file self.now.at }
    {
        let low = usize::from(*self.file.get(self.at)?);
        let second = self.at + 1;
        if low < 128 {
            return Some((low, second));
        }
        match *self.file.get(second)? {
            high @ 1..=127 => Some((low % 128 + 128 * usize::from(high), self.at + 2)),
            _ => None,
        }
    }

    // The next number, if it is below a limit.
    pub fn number_below(&mut self, limit: usize) -> Result<usize, Fault>
        ensures answer { result ≡ answer_of (number (λ n. ltb n limit) self.old.file self.old.at) }
        ensures after { self.new ≡ behind self.old (number (λ n. ltb n limit) self.old.file self.old.at) }
    {
        match self.number() {
            Some((n, next)) if n < limit => {
                self.at = next;
                Ok(n)
            }
            _ => Err(Fault { place: self.at }),
        }
    }

    // The count of nodes, with which a file begins.
    pub fn count(&mut self) -> Result<usize, Fault>
        ensures answer { result ≡ answer_of (number count_right self.old.file self.old.at) }
        ensures after { self.new ≡ behind self.old (number count_right self.old.file self.old.at) }
    {
        match self.number() {
            Some((n @ 1..=1024, next)) => {
                self.at = next;
                Ok(n)
            }
            _ => Err(Fault { place: self.at }),
        }
    }

    // Whether nothing follows.
    pub fn end(&self) -> Result<(), Fault>
        ensures { result ≡ answer_of (ended self.now.file tt self.now.at) }
    {
        if self.at < self.file.len() {
            return Err(Fault { place: self.at });
        }
        Ok(())
    }
}
