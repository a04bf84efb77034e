// Equality and order of records. They read the records' own bits alone, padding too.
// Assumes nothing of its input. Refuses with 1 to 5.
ghost use Rattle.std.specs.Prelude.{◌≡◌};
ghost use Rattle.meaning.specs.Ladder.{record_of};
ghost use Rattle.meaning.specs.RecordCalls as calls;
ghost use Rattle.answers.specs.Verdicts.{flag_of, order_of};

use answers::Refusal;
use checked_rungs::two;
use std::cmp::Ordering;
use tables::Table;
use value_comparing::{alike, ordered};

// Two records have the same type and the same bits.
pub fn equal(
    table: &Table<'_>,
    a_bytes: &[u8],
    a_offset: usize,
    a_node: usize,
    b_bytes: &[u8],
    b_offset: usize,
    b_node: usize,
) -> Result<bool, Refusal>
    ensures { flag_of result ≡ calls.equal_call table.now (record_of a_bytes.now a_offset a_node) (record_of b_bytes.now b_offset b_node) }
{
    let checked = two(table, a_bytes, a_offset, a_node, b_bytes, b_offset, b_node)?;
    Ok(alike(
        &checked, a_bytes, a_offset, a_node, b_bytes, b_offset, b_node,
    ))
}

// The order of two records: the smaller class number first; within a class the first differing bit decides, 0 before 1.
pub fn compare(
    table: &Table<'_>,
    a_bytes: &[u8],
    a_offset: usize,
    a_node: usize,
    b_bytes: &[u8],
    b_offset: usize,
    b_node: usize,
) -> Result<Ordering, Refusal>
    ensures { order_of result ≡ calls.compare_call table.now (record_of a_bytes.now a_offset a_node) (record_of b_bytes.now b_offset b_node) }
{
    let checked = two(table, a_bytes, a_offset, a_node, b_bytes, b_offset, b_node)?;
    Ok(ordered(
        &checked, a_bytes, a_offset, a_node, b_bytes, b_offset, b_node,
    ))
}
