// A word that is read from a stream.
// Inner: a public call has checked the table, the stream and the node.
#![tactic(auto)]

ghost use Rattle.std.specs.Prelude.{◌≡◌};
ghost use Rattle.meaning.specs.Ladder.{stream_of};
ghost use Rattle.meaning.specs.WordCalls.{word_read_call, word_read_out};
ghost use Rattle.answers.specs.Verdicts.{count_of};
ghost use Rattle.checked.specs.Passed.{Streamed};

use answers::Refusal;
use nodes::Checked;

// Word type n, read from a stream: 6 for an n that no word has, 7 for a node that is another type, 8 and 9. The answer is the next position.
pub fn read_word(
    table: &Checked<'_>,
    bytes: &[u8],
    until: usize,
    position: usize,
    n: usize,
    node: usize,
    out: &mut [u8],
) -> Result<usize, Refusal>
    requires { Streamed table.now (stream_of bytes.now until position) node }
    ensures result_value { count_of result ≡ word_read_call table.now (stream_of bytes.now until position) n node out.old }
    ensures out_after { out.new ≡ word_read_out table.now (stream_of bytes.now until position) n node out.old }
{
    if shapes::WORDS <= n {
        return Err(Refusal::OutOfRange);
    }
    if !shapes::is_word(table, node, n) {
        return Err(Refusal::WrongShape);
    }
    let width = shapes::word_width(n) as usize;
    if until - position < width {
        return Err(Refusal::EndsEarly);
    }
    if out.len() < bits::bytes_for(width) {
        return Err(Refusal::NoRoom);
    }
    let first = position / 8;
    checked_writers::write_run(out, &bytes[first..], position % 8, width);
    Ok(position + width)
}
