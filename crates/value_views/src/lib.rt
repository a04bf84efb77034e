// Views of records that a public call has checked: the payload of a sum, the parts of a product.
// Inner: the node is in the table, and the record lies within its bytes.
#![tactic(auto)]

ghost use Rattle.std.specs.Prelude.{◌≡◌, ◌+◌, ◌<◌, ◌≤◌, MatchResult};
ghost use Rattle.meaning.specs.Types.{top};
ghost use Rattle.meaning.specs.Ladder.{record_of};
ghost use Rattle.answers.specs.declared.Refusal.{Refusal};
ghost use Rattle.answers.specs.Verdicts.{spot_of, spots_of};
ghost use Rattle.checked.specs.Passed.{Held};
ghost use Rattle.value_views.specs.Views.{payload_at, parts_at};

use answers::{Refusal, Spot};
use nodes::Checked;
use tables::Kind;

// Where a record ends; 5 where that is no 64-bit number.
fn end_of(offset: usize, width: usize) -> Result<usize, Refusal>
    ensures { MatchResult result (λ end. (end ≡ offset + width) × (end ≤ top)) (λ r. (r ≡ Refusal.OutOfBytes) × (top < offset + width)) }
{
    offset.checked_add(width).ok_or(Refusal::OutOfBytes)
}

// The payload of a sum with this tag; 5 where a place in the record might be no 64-bit number, 7 for another kind or the other tag.
pub fn payload(
    table: &Checked<'_>,
    bytes: &[u8],
    offset: usize,
    node: usize,
    right: bool,
) -> Result<Spot, Refusal>
    requires { Held table.now (record_of bytes.now offset node) }
    ensures { spot_of result ≡ payload_at right table.now (record_of bytes.now offset node) }
{
    let n = table.node(node);
    let end = end_of(offset, n.width as usize)?;
    if n.kind != Kind::Sum {
        return Err(Refusal::WrongShape);
    }
    let tag = bits::bit_at(&bytes[offset / 8..], offset % 8);
    if tag != right {
        return Err(Refusal::WrongShape);
    }
    let side = n.side(right);
    Ok(Spot {
        offset: end - side.width as usize,
        node: side.node,
    })
}

// The two parts of a product; 5 as above, 7 for another kind.
pub fn parts(
    table: &Checked<'_>,
    bytes: &[u8],
    offset: usize,
    node: usize,
) -> Result<(Spot, Spot), Refusal>
    requires { Held table.now (record_of bytes.now offset node) }
    ensures { spots_of result ≡ parts_at table.now (record_of bytes.now offset node) }
{
    let n = table.node(node);
    end_of(offset, n.width as usize)?;
    if n.kind != Kind::Product {
        return Err(Refusal::WrongShape);
    }
    let first = Spot {
        offset,
        node: n.left,
    };
    let second = Spot {
        offset: offset + n.left_width as usize,
        node: n.right,
    };
    Ok((first, second))
}
