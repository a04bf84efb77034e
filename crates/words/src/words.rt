// Words of numbers and of big-endian bytes: u1 to u512, and byte arrays, which are a power of two of bytes as the word of so many bytes.
// Each names its word, and one inner function of each kind does the rest. The names stay, one call each, since the C interface has them.
ghost use Rattle.std.specs.Prelude.{◌≡◌, ◌+◌, ltb};
ghost use Rattle.std.specs.Bool.{then_some};
ghost use Rattle.meaning.specs.Words.{exponent};
ghost use Rattle.meaning.specs.WordCalls.{number_call, number_out, bytes_call, bytes_out, array_call, array_out};
ghost use Rattle.answers.specs.Verdicts.{count_of};

use answers::Refusal;
use tables::Table;
use words_bytes::{bytes_word, fixed_word};
use words_numbers::number_word;

// One bit: a number of 0 to 1.
pub fn u1(table: &Table<'_>, number: u64, res: usize, out: &mut [u8]) -> Result<usize, Refusal>
    ensures result_value { count_of result ≡ number_call table.now 0 number res out.old }
    ensures out_after { out.new ≡ number_out table.now 0 number res out.old }
{
    number_word(table, 0, number, res, out)
}

// Two bits: a number of 0 to 3.
pub fn u2(table: &Table<'_>, number: u64, res: usize, out: &mut [u8]) -> Result<usize, Refusal>
    ensures result_value { count_of result ≡ number_call table.now 1 number res out.old }
    ensures out_after { out.new ≡ number_out table.now 1 number res out.old }
{
    number_word(table, 1, number, res, out)
}

// Four bits: a number of 0 to 15.
pub fn u4(table: &Table<'_>, number: u64, res: usize, out: &mut [u8]) -> Result<usize, Refusal>
    ensures result_value { count_of result ≡ number_call table.now 2 number res out.old }
    ensures out_after { out.new ≡ number_out table.now 2 number res out.old }
{
    number_word(table, 2, number, res, out)
}

// One byte.
pub fn u8(table: &Table<'_>, bytes: &[u8], res: usize, out: &mut [u8]) -> Result<usize, Refusal>
    ensures result_value { count_of result ≡ bytes_call table.now 3 bytes.now res out.old }
    ensures out_after { out.new ≡ bytes_out table.now 3 bytes.now res out.old }
{
    fixed_word(table, 3, bytes, res, out)
}

// Two bytes.
pub fn u16(table: &Table<'_>, bytes: &[u8], res: usize, out: &mut [u8]) -> Result<usize, Refusal>
    ensures result_value { count_of result ≡ bytes_call table.now 4 bytes.now res out.old }
    ensures out_after { out.new ≡ bytes_out table.now 4 bytes.now res out.old }
{
    fixed_word(table, 4, bytes, res, out)
}

// Four bytes.
pub fn u32(table: &Table<'_>, bytes: &[u8], res: usize, out: &mut [u8]) -> Result<usize, Refusal>
    ensures result_value { count_of result ≡ bytes_call table.now 5 bytes.now res out.old }
    ensures out_after { out.new ≡ bytes_out table.now 5 bytes.now res out.old }
{
    fixed_word(table, 5, bytes, res, out)
}

// Eight bytes.
pub fn u64(table: &Table<'_>, bytes: &[u8], res: usize, out: &mut [u8]) -> Result<usize, Refusal>
    ensures result_value { count_of result ≡ bytes_call table.now 6 bytes.now res out.old }
    ensures out_after { out.new ≡ bytes_out table.now 6 bytes.now res out.old }
{
    fixed_word(table, 6, bytes, res, out)
}

// Sixteen bytes.
pub fn u128(table: &Table<'_>, bytes: &[u8], res: usize, out: &mut [u8]) -> Result<usize, Refusal>
    ensures result_value { count_of result ≡ bytes_call table.now 7 bytes.now res out.old }
    ensures out_after { out.new ≡ bytes_out table.now 7 bytes.now res out.old }
{
    fixed_word(table, 7, bytes, res, out)
}

// Thirty-two bytes.
pub fn u256(table: &Table<'_>, bytes: &[u8], res: usize, out: &mut [u8]) -> Result<usize, Refusal>
    ensures result_value { count_of result ≡ bytes_call table.now 8 bytes.now res out.old }
    ensures out_after { out.new ≡ bytes_out table.now 8 bytes.now res out.old }
{
    fixed_word(table, 8, bytes, res, out)
}

// Sixty-four bytes.
pub fn u512(table: &Table<'_>, bytes: &[u8], res: usize, out: &mut [u8]) -> Result<usize, Refusal>
    ensures result_value { count_of result ≡ bytes_call table.now 9 bytes.now res out.old }
    ensures out_after { out.new ≡ bytes_out table.now 9 bytes.now res out.old }
{
    fixed_word(table, 9, bytes, res, out)
}

// The word of so many bytes, for a length that is a power of two. The zeros below the lowest bit set name the only candidate.
fn word_of_bytes(size: usize) -> Option<usize>
    ensures { result ≡ then_some (ltb (exponent size) 29) (3 + exponent size) }
{
    let wide = size as u64;
    let k = wide.trailing_zeros() as usize;
    let n = 3 + k;
    if shapes::WORDS <= n {
        return None;
    }
    (shapes::word_width(k) == wide).then_some(n)
}

// A byte array.
pub fn from_byte_array(
    table: &Table<'_>,
    bytes: &[u8],
    res: usize,
    out: &mut [u8],
) -> Result<usize, Refusal>
    ensures result_value { count_of result ≡ array_call table.now bytes.now res out.old }
    ensures out_after { out.new ≡ array_out table.now bytes.now res out.old }
{
    let word = word_of_bytes(bytes.len());
    bytes_word(table, word, bytes, res, out)
}
