// Views: the payload of a sum, the parts of a product. A view keeps the caller's bytes and moves offset and node only.
// Assumes nothing of its input. Refuses with 1 to 5, and with 7 for another kind or the other tag.
ghost use Rattle.std.specs.Prelude.{◌≡◌};
ghost use Rattle.meaning.specs.Ladder.{record_of};
ghost use Rattle.meaning.specs.RecordCalls.{as_left_call, as_right_call, as_product_call};
ghost use Rattle.answers.specs.Verdicts.{spot_of, spots_of};

use answers::{Refusal, Spot};
use tables::Table;
use value_views::{parts, payload};

// The payload of a left record.
pub fn as_left(table: &Table<'_>, bytes: &[u8], offset: usize, node: usize) -> Result<Spot, Refusal>
    ensures { spot_of result ≡ as_left_call table.now (record_of bytes.now offset node) }
{
    let checked = checked_rungs::record(table, bytes, offset, node)?;
    payload(&checked, bytes, offset, node, false)
}

// The payload of a right record.
pub fn as_right(
    table: &Table<'_>,
    bytes: &[u8],
    offset: usize,
    node: usize,
) -> Result<Spot, Refusal>
    ensures { spot_of result ≡ as_right_call table.now (record_of bytes.now offset node) }
{
    let checked = checked_rungs::record(table, bytes, offset, node)?;
    payload(&checked, bytes, offset, node, true)
}

// The two parts of a product.
pub fn as_product(
    table: &Table<'_>,
    bytes: &[u8],
    offset: usize,
    node: usize,
) -> Result<(Spot, Spot), Refusal>
    ensures { spots_of result ≡ as_product_call table.now (record_of bytes.now offset node) }
{
    let checked = checked_rungs::record(table, bytes, offset, node)?;
    parts(&checked, bytes, offset, node)
}
