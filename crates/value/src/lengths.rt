// How wide a record is.
// Assumes nothing of its input. Refuses with 1 to 5.
ghost use Rattle.std.specs.Prelude.{◌≡◌};
ghost use Rattle.meaning.specs.Ladder.{record_of};
ghost use Rattle.meaning.specs.RecordCalls as calls;
ghost use Rattle.answers.specs.Verdicts.{count_of};

use answers::Refusal;
use tables::Table;

// How many bits a record takes: the width of its type.
pub fn padded_len(
    table: &Table<'_>,
    bytes: &[u8],
    offset: usize,
    node: usize,
) -> Result<usize, Refusal>
    ensures { count_of result ≡ calls.padded_len_call table.now (record_of bytes.now offset node) }
{
    let checked = checked_rungs::record(table, bytes, offset, node)?;
    Ok(checked_nodes::width_of(&checked, node))
}
