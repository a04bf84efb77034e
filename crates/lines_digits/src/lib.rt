// Text that is written to a lent buffer: numbers, words and the words of kinds, each behind what stands there already.
// The parts are put one behind the other and no line is a `write!`, which says what was written only where it answers Ok, and never that it does.
#![tactic(auto)]

ghost use Rattle.std.specs.Prelude.{◌≡◌, ◌+◌, ◌≤◌, [], ◌∷◌, ◌++◌, length};
ghost use Rattle.tables.specs.Kinds.{kind_no};
ghost use Rattle.lines_digits.specs.Report.{ascii, decimal, kind_word};
ghost use Rattle.lines_digits.specs.Buffer.{PutAt, HasRoom, Wrote};

use tables::Kind;

// A number in decimal at an offset of a buffer, the leading digits first. Answers the offset after it.
fn put_digits(out: &mut [u8], at: usize, n: u64) -> usize
    requires { at + length (decimal n) ≤ length out.old }
    ensures { PutAt out.old at (decimal n) out.new result }
{
    if n < 10 {
        out[at] = 48 + n as u8;
        return at + 1;
    }
    let last = put_digits(out, at, n / 10);
    out[last] = 48 + (n % 10) as u8;
    last + 1
}

// A lent buffer, and how much of it is written.
#[derive(Drop)]
pub struct Text<'a> {
    pub out: &'a mut [u8],
    pub len: usize,
}

impl<'a> Text<'a> {
    // Nothing is written yet.
    pub fn new(out: &'a mut [u8]) -> Text<'a>
        ensures same_buffer { result.out.ghost_name ≡ out.entry.ghost_name }
        ensures empty { result.len ≡ 0 }
        ensures kept { result.out.now ≡ out.old }
    {
        Text { out, len: 0 }
    }

    // A word.
    pub fn word(&mut self, word: &[u8])
        requires { HasRoom self.old (length word.now) }
        ensures { Wrote self.old word.now self.new }
    {
        let end = self.len + word.len();
        self.out[self.len..end].copy_from_slice(word);
        self.len = end;
    }

    // A number in decimal, and the byte that follows it.
    pub fn number(&mut self, n: u64, stop: u8)
        requires { HasRoom self.old 21 }
        ensures { Wrote self.old (decimal n ++ (stop ∷ [])) self.new }
    {
        let end = put_digits(self.out, self.len, n);
        self.out[end] = stop;
        self.len = end + 1;
    }

    // The word of a kind, and a space.
    pub fn kind(&mut self, kind: Kind)
        requires { HasRoom self.old 8 }
        ensures { Wrote self.old (kind_word (kind_no kind) ++ ascii " ") self.new }
    {
        match kind {
            Kind::Unit => self.word(b"unit "),
            Kind::Sum => self.word(b"sum "),
            Kind::Product => self.word(b"product "),
        }
    }
}
