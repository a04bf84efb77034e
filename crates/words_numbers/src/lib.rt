// Words of a number: the ladder's 1 to 4 for the result's node, 6 for a number outside its range, 7 for a result that is another type, and 9.
// Inner: the public call says which word.
#![tactic(auto)]

ghost use Rattle.std.specs.Prelude.{◌≡◌, ◌<◌, ◌≤◌};
ghost use Rattle.meaning.specs.Bits.{to_bits, written};
ghost use Rattle.meaning.specs.WordCalls.{number_call, number_out};
ghost use Rattle.answers.specs.Verdicts.{count_of};
ghost use Rattle.bits.specs.Runs.{Run};

use answers::Refusal;
use tables::Table;

// The n lowest bits of a number, the top one first.
fn write_number(out: &mut [u8], x: u64, n: usize)
    requires n_bound { n ≤ 64 }
    requires run { Run out.old 0 n }
    ensures { out.new ≡ written (to_bits n x) out.old }
{
    bits_numbers::put_number(out, 0, x, n);
    bits_runs::finish(out, n);
}

// Word type n of a number, for n of 0 to 2.
pub fn number_word(
    table: &Table<'_>,
    n: usize,
    number: u64,
    res: usize,
    out: &mut [u8],
) -> Result<usize, Refusal>
    requires { n < 3 }
    ensures result_value { count_of result ≡ number_call table.now n number res out.old }
    ensures out_after { out.new ≡ number_out table.now n number res out.old }
{
    let checked = checked_rungs::named(table, res)?;
    let width = shapes::word_width(n) as usize;
    if number >> width != 0 {
        return Err(Refusal::OutOfRange);
    }
    if !shapes::is_word(&checked, res, n) {
        return Err(Refusal::WrongShape);
    }
    if out.len() < bits::bytes_for(width) {
        return Err(Refusal::NoRoom);
    }
    write_number(out, number, width);
    Ok(width)
}
