// How many compact bits a record has.
ghost use Rattle.std.specs.Prelude.{◌≡◌};
ghost use Rattle.meaning.specs.Ladder.{record_of};
ghost use Rattle.meaning.specs.RecordCalls.{compact_len_call};
ghost use Rattle.answers.specs.Verdicts.{count_of};

use answers::Refusal;
use codec_counting::count_compact;
use tables::Table;

// How many compact bits a record has. 1 to 5.
pub fn compact_len(
    table: &Table<'_>,
    bytes: &[u8],
    offset: usize,
    node: usize,
) -> Result<usize, Refusal>
    ensures { count_of result ≡ compact_len_call table.now (record_of bytes.now offset node) }
{
    let checked = checked_rungs::record(table, bytes, offset, node)?;
    Ok(count_compact(&checked, &bytes[offset / 8..], offset % 8, node))
}
