// Views: the caller's bytes by reference, with a bit offset and a node. A sub-view keeps the bytes and moves offset and node only.
// Each question to a view takes it apart and calls one on slice and numbers. A caller that keeps no view calls those, or `left_spot`.
// Assumes nothing of its input, and refuses what the function that it calls refuses.
#![tactic(auto)]

ghost use Rattle.std.specs.Prelude.{◌≡◌, IfOk};
ghost use Rattle.meaning.specs.Ladder.{record_of};
ghost use Rattle.meaning.specs.RecordCalls as calls;
ghost use Rattle.meaning.specs.TypeCalls.{is_unit_call};
ghost use Rattle.answers.specs.Verdicts.{flag_of, spot_of};
ghost use Rattle.view.specs.Views.{view_of, views_of};

use answers::{Refusal, Spot};
use tables::Table;

// A record: the caller's bytes, by reference, a bit offset and a node.
#[derive(Clone, Copy)]
pub struct View<'a> {
    pub bytes: &'a [u8],
    pub offset: usize,
    pub node: usize,
}

impl<'a> View<'a> {
    // The view of a record.
    pub fn new(bytes: &'a [u8], offset: usize, node: usize) -> View<'a>
        ensures { (result.bytes ≡ bytes.entry) × (result.offset ≡ offset) × (result.node ≡ node) }
    {
        View {
            bytes,
            offset,
            node,
        }
    }

    // Back to plain parts: the bytes.
    pub fn bytes(self) -> &'a [u8]
        ensures { result ≡ self.entry.bytes }
    {
        self.bytes
    }

    // Back to plain parts: offset and node.
    pub fn spot(self) -> Spot
        ensures { (result.offset ≡ self.entry.offset) × (result.node ≡ self.entry.node) }
    {
        Spot {
            offset: self.offset,
            node: self.node,
        }
    }

    // What stands elsewhere in the same bytes.
    fn at(self, spot: Spot) -> View<'a>
        ensures { (result.bytes ≡ self.entry.bytes) × (result.offset ≡ spot.offset) × (result.node ≡ spot.node) }
    {
        View::new(self.bytes, spot.offset, spot.node)
    }

    // Whether the type is unit: a question on the type alone.
    pub fn is_unit(self, table: &Table<'_>) -> Result<bool, Refusal>
        ensures { flag_of result ≡ is_unit_call table.now self.entry.node }
    {
        types::is_unit(table, self.node)
    }

    // The payload of a left record.
    pub fn as_left(self, table: &Table<'_>) -> Result<View<'a>, Refusal>
        ensures same_bytes { IfOk result (λ left. left.bytes ≡ self.entry.bytes) }
        ensures place { view_of result ≡ calls.as_left_call table.now (record_of self.entry.bytes.now self.entry.offset self.entry.node) }
    {
        let spot = value::as_left(table, self.bytes, self.offset, self.node)?;
        Ok(self.at(spot))
    }

    // The payload of a right record.
    pub fn as_right(self, table: &Table<'_>) -> Result<View<'a>, Refusal>
        ensures same_bytes { IfOk result (λ right. right.bytes ≡ self.entry.bytes) }
        ensures place { view_of result ≡ calls.as_right_call table.now (record_of self.entry.bytes.now self.entry.offset self.entry.node) }
    {
        let spot = value::as_right(table, self.bytes, self.offset, self.node)?;
        Ok(self.at(spot))
    }

    // The two parts of a product.
    pub fn as_product(self, table: &Table<'_>) -> Result<(View<'a>, View<'a>), Refusal>
        ensures same_bytes { IfOk result (λ parts. (parts.0.bytes ≡ self.entry.bytes) × (parts.1.bytes ≡ self.entry.bytes)) }
        ensures places { views_of result ≡ calls.as_product_call table.now (record_of self.entry.bytes.now self.entry.offset self.entry.node) }
    {
        let (first, second) = value::as_product(table, self.bytes, self.offset, self.node)?;
        Ok((self.at(first), self.at(second)))
    }

    // Whether two records are equal: the same class, and the same width bits.
    pub fn equal(self, table: &Table<'_>, other: View<'_>) -> Result<bool, Refusal>
        ensures { flag_of result ≡ calls.equal_call table.now (record_of self.entry.bytes.now self.entry.offset self.entry.node) (record_of other.entry.bytes.now other.entry.offset other.entry.node) }
    {
        value::equal(
            table,
            self.bytes,
            self.offset,
            self.node,
            other.bytes,
            other.offset,
            other.node,
        )
    }
}

// For callers that keep no view: where the payload of a left record stands, by way of its view.
pub fn left_spot(
    table: &Table<'_>,
    bytes: &[u8],
    offset: usize,
    node: usize,
) -> Result<Spot, Refusal>
    ensures { spot_of result ≡ calls.as_left_call table.now (record_of bytes.now offset node) }
{
    let payload = View::new(bytes, offset, node).as_left(table)?;
    Ok(payload.spot())
}
