// Words of bytes, big-endian: the ladder's 1 to 4 for the result's node, 6 for a wrong length, 7 for a result that is another type, and 9.
// Inner: the public call says which word.
#![tactic(auto)]

ghost use Rattle.std.specs.Prelude.{◌≡◌, ◌*◌, ◌^◌, ◌<◌, ◌≤◌, length, IfSome};
ghost use Rattle.meaning.specs.Bits.{bits_of};
ghost use Rattle.meaning.specs.Ladder.{makes, made};
ghost use Rattle.meaning.specs.WordCalls.{bytes_call, bytes_out};
ghost use Rattle.answers.specs.Verdicts.{count_of};
ghost use Rattle.words_bytes.specs.Chosen.{chosen_rungs};

use answers::Refusal;
use checked_writers::write_run;
use tables::Table;

// A word of bytes: the word that has as many bytes, if there is one.
pub fn bytes_word(
    table: &Table<'_>,
    word: Option<usize>,
    bytes: &[u8],
    res: usize,
    out: &mut [u8],
) -> Result<usize, Refusal>
    requires { IfSome word (λ n. 8 * length bytes.now ≡ 2 ^ n) }
    ensures result_value { count_of result ≡ makes (chosen_rungs table.now word res) (bits_of bytes.now) out.old }
    ensures out_after { out.new ≡ made (chosen_rungs table.now word res) (bits_of bytes.now) out.old }
{
    let checked = checked_rungs::named(table, res)?;
    let n = word.ok_or(Refusal::OutOfRange)?;
    if !shapes::is_word(&checked, res, n) {
        return Err(Refusal::WrongShape);
    }
    if out.len() < bytes.len() {
        return Err(Refusal::NoRoom);
    }
    let width = 8 * bytes.len();
    write_run(out, bytes, 0, width);
    Ok(width)
}

// A word of 2^(n − 3) bytes.
pub fn fixed_word(
    table: &Table<'_>,
    n: usize,
    bytes: &[u8],
    res: usize,
    out: &mut [u8],
) -> Result<usize, Refusal>
    requires le_n { 3 ≤ n }
    requires n_bound { n < 32 }
    ensures result_value { count_of result ≡ bytes_call table.now n bytes.now res out.old }
    ensures out_after { out.new ≡ bytes_out table.now n bytes.now res out.old }
{
    let asked = shapes::word_width(n - 3) as usize;
    let word = (bytes.len() == asked).then_some(n);
    bytes_word(table, word, bytes, res, out)
}
