// Constructors: a record of a named result node, at bit 0 of the output, with zero bits after it in its last byte; later bytes stay. New
// padding is zero, and a payload keeps its own. Each answers how many bits the record has.
// Assumes nothing of its input. Refuses with 1 to 5, with 7 where the result is not made of the types given, and with 9 where the output is
// too short (but `unit`, whose result has no bytes); then no byte has changed.
ghost use Rattle.std.specs.Prelude.{◌≡◌};
ghost use Rattle.meaning.specs.Ladder.{record_of};
ghost use Rattle.meaning.specs.RecordCalls.{unit_call, unit_out, zero_call, zero_out, left_call, left_out, right_call, right_out, product_call, product_out};
ghost use Rattle.meaning.specs.RecordCalls.{none_call, none_out, some_call, some_out};
ghost use Rattle.answers.specs.Verdicts.{count_of};
ghost use Rattle.value.specs.Sides.{side_call, side_out};

use answers::Refusal;
use tables::{Kind, Table};
use value_fitting::optional;
use value_making::{blank, join, wrap};

// The record of unit, which has no bits.
pub fn unit(table: &Table<'_>, res: usize, out: &mut [u8]) -> Result<usize, Refusal>
    ensures result_value { count_of result ≡ unit_call table.now res out.old }
    ensures out_after { out.new ≡ unit_out table.now res out.old }
{
    let checked = checked_rungs::result(table, res)?;
    if checked.node(res).kind != Kind::Unit {
        return Err(Refusal::WrongShape);
    }
    Ok(0)
}

// The record whose bits are all zero, of any node.
pub fn zero(table: &Table<'_>, res: usize, out: &mut [u8]) -> Result<usize, Refusal>
    ensures result_value { count_of result ≡ zero_call table.now res out.old }
    ensures out_after { out.new ≡ zero_out table.now res out.old }
{
    let checked = checked_rungs::result(table, res)?;
    blank(&checked, res, out)
}

// The record of a payload on one side of a sum: the left one or the right one.
fn one_side(
    table: &Table<'_>,
    bytes: &[u8],
    offset: usize,
    node: usize,
    res: usize,
    right: bool,
    out: &mut [u8],
) -> Result<usize, Refusal>
    ensures result_value { count_of result ≡ side_call right table.now (record_of bytes.now offset node) res out.old }
    ensures out_after { out.new ≡ side_out right table.now (record_of bytes.now offset node) res out.old }
{
    let checked = checked_rungs::record_to(table, bytes, offset, node, res)?;
    wrap(&checked, bytes, offset, node, res, right, out)
}

// The left record of a payload, of a sum whose left side is the payload's type.
pub fn left(
    table: &Table<'_>,
    bytes: &[u8],
    offset: usize,
    node: usize,
    res: usize,
    out: &mut [u8],
) -> Result<usize, Refusal>
    ensures result_value { count_of result ≡ left_call table.now (record_of bytes.now offset node) res out.old }
    ensures out_after { out.new ≡ left_out table.now (record_of bytes.now offset node) res out.old }
{
    one_side(table, bytes, offset, node, res, false, out)
}

// The right record of a payload, of a sum whose right side is the payload's type.
pub fn right(
    table: &Table<'_>,
    bytes: &[u8],
    offset: usize,
    node: usize,
    res: usize,
    out: &mut [u8],
) -> Result<usize, Refusal>
    ensures result_value { count_of result ≡ right_call table.now (record_of bytes.now offset node) res out.old }
    ensures out_after { out.new ≡ right_out table.now (record_of bytes.now offset node) res out.old }
{
    one_side(table, bytes, offset, node, res, true, out)
}

// The product of two records, of the product of their types: left, then right.
pub fn product(
    table: &Table<'_>,
    a_bytes: &[u8],
    a_offset: usize,
    a_node: usize,
    b_bytes: &[u8],
    b_offset: usize,
    b_node: usize,
    res: usize,
    out: &mut [u8],
) -> Result<usize, Refusal>
    ensures result_value { count_of result ≡ product_call table.now (record_of a_bytes.now a_offset a_node) (record_of b_bytes.now b_offset b_node) res out.old }
    ensures out_after { out.new ≡ product_out table.now (record_of a_bytes.now a_offset a_node) (record_of b_bytes.now b_offset b_node) res out.old }
{
    let checked = checked_rungs::two_to(
        table, a_bytes, a_offset, a_node, b_bytes, b_offset, b_node, res,
    )?;
    join(
        &checked, a_bytes, a_offset, a_node, b_bytes, b_offset, b_node, res, out,
    )
}

// The left record of unit, of a sum with a unit left side: all its bits are zero.
pub fn none(table: &Table<'_>, res: usize, out: &mut [u8]) -> Result<usize, Refusal>
    ensures result_value { count_of result ≡ none_call table.now res out.old }
    ensures out_after { out.new ≡ none_out table.now res out.old }
{
    let checked = checked_rungs::result(table, res)?;
    if !optional(&checked, res) {
        return Err(Refusal::WrongShape);
    }
    blank(&checked, res, out)
}

// The right record of a payload, of the sum of unit and the payload's type.
pub fn some(
    table: &Table<'_>,
    bytes: &[u8],
    offset: usize,
    node: usize,
    res: usize,
    out: &mut [u8],
) -> Result<usize, Refusal>
    ensures result_value { count_of result ≡ some_call table.now (record_of bytes.now offset node) res out.old }
    ensures out_after { out.new ≡ some_out table.now (record_of bytes.now offset node) res out.old }
{
    let checked = checked_rungs::record_to(table, bytes, offset, node, res)?;
    if !optional(&checked, res) {
        return Err(Refusal::WrongShape);
    }
    wrap(&checked, bytes, offset, node, res, true, out)
}
