// A buffer that holds data.
// Inner: a public call has checked the table and the result's node.
#![tactic(auto)]

ghost use Rattle.std.specs.Prelude.{◌≡◌};
ghost use Rattle.meaning.specs.WordCalls.{buffer_call, buffer_out};
ghost use Rattle.answers.specs.Verdicts.{count_of};
ghost use Rattle.checked.specs.Passed.{Named};

use answers::Refusal;
use nodes::Checked;
use words_segments::write_buffer;

// Buffer type n that holds data: 6 for an n above 12 or data that is too long, 7 for a result that is another type, and 9.
pub fn make_buffer(
    table: &Checked<'_>,
    n: usize,
    data: &[u8],
    res: usize,
    out: &mut [u8],
) -> Result<usize, Refusal>
    requires { Named table.now res }
    ensures result_value { count_of result ≡ buffer_call table.now n «data».now res out.old }
    ensures out_after { out.new ≡ buffer_out table.now n «data».now res out.old }
{
    if shapes::BUFFERS <= n {
        return Err(Refusal::OutOfRange);
    }
    let limit = 2 * (shapes::word_width(n) as usize);
    if limit <= data.len() {
        return Err(Refusal::OutOfRange);
    }
    if !shapes::is_buffer(table, res, n) {
        return Err(Refusal::WrongShape);
    }
    let width = shapes::buffer_width(n) as usize;
    if out.len() < bits::bytes_for(width) {
        return Err(Refusal::NoRoom);
    }
    write_buffer(out, n, data);
    bits_runs::finish(out, width);
    Ok(width)
}
