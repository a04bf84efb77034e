// Comparison of records, for C.
ghost use Rattle.std.specs.Prelude.{◌≡◌};
ghost use Rattle.meaning.specs.Tables.{table};
ghost use Rattle.meaning.specs.Ladder.{record_of};
ghost use Rattle.meaning.specs.RecordCalls.{equal_call, compare_call};
ghost use Rattle.exports_answers.specs.Codes.{code, stored_flag, stored_order};

use exports_answers::tell_number;
use tables::Table;

// Whether two records have the same type and the same bits.
pub fn qv_equal(
    kinds: &[u8],
    lefts: &[u16],
    rights: &[u16],
    groups: &[u8],
    count: usize,
    a_bytes: &[u8],
    a_offset: usize,
    a_node: usize,
    b_bytes: &[u8],
    b_offset: usize,
    b_node: usize,
    answer: &mut u64,
) -> u64
    ensures value { result ≡ code (equal_call (table kinds.now lefts.now rights.now groups.now count) (record_of a_bytes.now a_offset a_node) (record_of b_bytes.now b_offset b_node)) }
    ensures answer_after { answer.new ≡ stored_flag (equal_call (table kinds.now lefts.now rights.now groups.now count) (record_of a_bytes.now a_offset a_node) (record_of b_bytes.now b_offset b_node)) answer.old }
{
    let table = Table::new(kinds, lefts, rights, groups, count);
    tell_number(
        value::equal(&table, a_bytes, a_offset, a_node, b_bytes, b_offset, b_node),
        answer,
    )
}

// Accepted: the order of two records, by class and then by the first differing bit.
pub fn qv_compare(
    kinds: &[u8],
    lefts: &[u16],
    rights: &[u16],
    groups: &[u8],
    count: usize,
    a_bytes: &[u8],
    a_offset: usize,
    a_node: usize,
    b_bytes: &[u8],
    b_offset: usize,
    b_node: usize,
    order: &mut u64,
) -> u64
    ensures value { result ≡ code (compare_call (table kinds.now lefts.now rights.now groups.now count) (record_of a_bytes.now a_offset a_node) (record_of b_bytes.now b_offset b_node)) }
    ensures order_after { order.new ≡ stored_order (compare_call (table kinds.now lefts.now rights.now groups.now count) (record_of a_bytes.now a_offset a_node) (record_of b_bytes.now b_offset b_node)) order.old }
{
    let table = Table::new(kinds, lefts, rights, groups, count);
    tell_number(
        value::compare(&table, a_bytes, a_offset, a_node, b_bytes, b_offset, b_node),
        order,
    )
}
