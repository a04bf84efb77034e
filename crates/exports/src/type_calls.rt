// Questions about types, for C.
ghost use Rattle.std.specs.Prelude.{◌≡◌};
ghost use Rattle.meaning.specs.Tables.{table};
ghost use Rattle.meaning.specs.TypeCalls.{facts_of_call, same_type_call, is_unit_call, is_empty_call, type_as_sum_call, type_as_product_call, pad_left_call, pad_right_call};
ghost use Rattle.exports_answers.specs.Codes.{code, stored, stored_flag, roomy, stored_all, facts_list, sides_list};

use exports_answers::{tell_number, tell_numbers};
use tables::Table;

// Accepted: width, size, padded, class, kind, left, right and least compact length of a node.
pub fn qv_facts_of(
    kinds: &[u8],
    lefts: &[u16],
    rights: &[u16],
    groups: &[u8],
    count: usize,
    node: usize,
    facts: &mut [u64],
) -> u64
    ensures value { result ≡ code (roomy facts_list facts.old (facts_of_call (table kinds.now lefts.now rights.now groups.now count) node)) }
    ensures facts_after { facts.new ≡ stored_all facts_list (roomy facts_list facts.old (facts_of_call (table kinds.now lefts.now rights.now groups.now count) node)) facts.old }
{
    let table = Table::new(kinds, lefts, rights, groups, count);
    tell_numbers(types::facts_of(&table, node), facts)
}

// Whether two nodes have the same type.
pub fn qv_same_type(
    kinds: &[u8],
    lefts: &[u16],
    rights: &[u16],
    groups: &[u8],
    count: usize,
    a: usize,
    b: usize,
    answer: &mut u64,
) -> u64
    ensures value { result ≡ code (same_type_call (table kinds.now lefts.now rights.now groups.now count) a b) }
    ensures answer_after { answer.new ≡ stored_flag (same_type_call (table kinds.now lefts.now rights.now groups.now count) a b) answer.old }
{
    let table = Table::new(kinds, lefts, rights, groups, count);
    tell_number(types::same_type(&table, a, b), answer)
}

// Whether a type is unit.
pub fn qv_is_unit(
    kinds: &[u8],
    lefts: &[u16],
    rights: &[u16],
    groups: &[u8],
    count: usize,
    node: usize,
    answer: &mut u64,
) -> u64
    ensures value { result ≡ code (is_unit_call (table kinds.now lefts.now rights.now groups.now count) node) }
    ensures answer_after { answer.new ≡ stored_flag (is_unit_call (table kinds.now lefts.now rights.now groups.now count) node) answer.old }
{
    let table = Table::new(kinds, lefts, rights, groups, count);
    tell_number(types::is_unit(&table, node), answer)
}

// Whether a type has no width.
pub fn qv_is_empty(
    kinds: &[u8],
    lefts: &[u16],
    rights: &[u16],
    groups: &[u8],
    count: usize,
    node: usize,
    answer: &mut u64,
) -> u64
    ensures value { result ≡ code (is_empty_call (table kinds.now lefts.now rights.now groups.now count) node) }
    ensures answer_after { answer.new ≡ stored_flag (is_empty_call (table kinds.now lefts.now rights.now groups.now count) node) answer.old }
{
    let table = Table::new(kinds, lefts, rights, groups, count);
    tell_number(types::is_empty(&table, node), answer)
}

// Accepted: the sides of a sum.
pub fn qv_type_as_sum(
    kinds: &[u8],
    lefts: &[u16],
    rights: &[u16],
    groups: &[u8],
    count: usize,
    node: usize,
    sides: &mut [u64],
) -> u64
    ensures value { result ≡ code (roomy sides_list sides.old (type_as_sum_call (table kinds.now lefts.now rights.now groups.now count) node)) }
    ensures sides_after { sides.new ≡ stored_all sides_list (roomy sides_list sides.old (type_as_sum_call (table kinds.now lefts.now rights.now groups.now count) node)) sides.old }
{
    let table = Table::new(kinds, lefts, rights, groups, count);
    tell_numbers(types::as_sum(&table, node), sides)
}

// Accepted: the sides of a product.
pub fn qv_type_as_product(
    kinds: &[u8],
    lefts: &[u16],
    rights: &[u16],
    groups: &[u8],
    count: usize,
    node: usize,
    sides: &mut [u64],
) -> u64
    ensures value { result ≡ code (roomy sides_list sides.old (type_as_product_call (table kinds.now lefts.now rights.now groups.now count) node)) }
    ensures sides_after { sides.new ≡ stored_all sides_list (roomy sides_list sides.old (type_as_product_call (table kinds.now lefts.now rights.now groups.now count) node)) sides.old }
{
    let table = Table::new(kinds, lefts, rights, groups, count);
    tell_numbers(types::as_product(&table, node), sides)
}

// Accepted: the padding of left records of the sum of two types.
pub fn qv_pad_left(
    kinds: &[u8],
    lefts: &[u16],
    rights: &[u16],
    groups: &[u8],
    count: usize,
    a: usize,
    b: usize,
    padding: &mut u64,
) -> u64
    ensures value { result ≡ code (pad_left_call (table kinds.now lefts.now rights.now groups.now count) a b) }
    ensures padding_after { padding.new ≡ stored (pad_left_call (table kinds.now lefts.now rights.now groups.now count) a b) padding.old }
{
    let table = Table::new(kinds, lefts, rights, groups, count);
    tell_number(types::pad_left(&table, a, b), padding)
}

// Accepted: the padding of right records of the sum of two types.
pub fn qv_pad_right(
    kinds: &[u8],
    lefts: &[u16],
    rights: &[u16],
    groups: &[u8],
    count: usize,
    a: usize,
    b: usize,
    padding: &mut u64,
) -> u64
    ensures value { result ≡ code (pad_right_call (table kinds.now lefts.now rights.now groups.now count) a b) }
    ensures padding_after { padding.new ≡ stored (pad_right_call (table kinds.now lefts.now rights.now groups.now count) a b) padding.old }
{
    let table = Table::new(kinds, lefts, rights, groups, count);
    tell_number(types::pad_right(&table, a, b), padding)
}
