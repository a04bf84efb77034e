// Constructors for C. Accepted: the width of the result, whose record stands at bit 0 of the output.
ghost use Rattle.std.specs.Prelude.{◌≡◌};
ghost use Rattle.meaning.specs.Tables.{table};
ghost use Rattle.meaning.specs.Ladder.{record_of};
ghost use Rattle.meaning.specs.RecordCalls.{unit_call, unit_out, left_call, left_out, right_call, right_out, product_call, product_out, none_call, none_out, some_call, some_out, zero_call, zero_out};
ghost use Rattle.exports_answers.specs.Codes.{code, stored};

use exports_answers::tell_number;
use tables::Table;

// The record of unit.
pub fn qv_unit(
    kinds: &[u8],
    lefts: &[u16],
    rights: &[u16],
    groups: &[u8],
    count: usize,
    res: usize,
    width: &mut u64,
    out: &mut [u8],
) -> u64
    ensures value { result ≡ code (unit_call (table kinds.now lefts.now rights.now groups.now count) res out.old) }
    ensures width_after { width.new ≡ stored (unit_call (table kinds.now lefts.now rights.now groups.now count) res out.old) width.old }
    ensures out_after { out.new ≡ unit_out (table kinds.now lefts.now rights.now groups.now count) res out.old }
{
    let table = Table::new(kinds, lefts, rights, groups, count);
    tell_number(value::unit(&table, res, out), width)
}

// The record of zero bits, of any type.
pub fn qv_zero(
    kinds: &[u8],
    lefts: &[u16],
    rights: &[u16],
    groups: &[u8],
    count: usize,
    res: usize,
    width: &mut u64,
    out: &mut [u8],
) -> u64
    ensures value { result ≡ code (zero_call (table kinds.now lefts.now rights.now groups.now count) res out.old) }
    ensures width_after { width.new ≡ stored (zero_call (table kinds.now lefts.now rights.now groups.now count) res out.old) width.old }
    ensures out_after { out.new ≡ zero_out (table kinds.now lefts.now rights.now groups.now count) res out.old }
{
    let table = Table::new(kinds, lefts, rights, groups, count);
    tell_number(value::zero(&table, res, out), width)
}

// A left record around its payload.
pub fn qv_left(
    kinds: &[u8],
    lefts: &[u16],
    rights: &[u16],
    groups: &[u8],
    count: usize,
    bytes: &[u8],
    offset: usize,
    node: usize,
    res: usize,
    width: &mut u64,
    out: &mut [u8],
) -> u64
    ensures value { result ≡ code (left_call (table kinds.now lefts.now rights.now groups.now count) (record_of bytes.now offset node) res out.old) }
    ensures width_after { width.new ≡ stored (left_call (table kinds.now lefts.now rights.now groups.now count) (record_of bytes.now offset node) res out.old) width.old }
    ensures out_after { out.new ≡ left_out (table kinds.now lefts.now rights.now groups.now count) (record_of bytes.now offset node) res out.old }
{
    let table = Table::new(kinds, lefts, rights, groups, count);
    tell_number(value::left(&table, bytes, offset, node, res, out), width)
}

// A right record around its payload.
pub fn qv_right(
    kinds: &[u8],
    lefts: &[u16],
    rights: &[u16],
    groups: &[u8],
    count: usize,
    bytes: &[u8],
    offset: usize,
    node: usize,
    res: usize,
    width: &mut u64,
    out: &mut [u8],
) -> u64
    ensures value { result ≡ code (right_call (table kinds.now lefts.now rights.now groups.now count) (record_of bytes.now offset node) res out.old) }
    ensures width_after { width.new ≡ stored (right_call (table kinds.now lefts.now rights.now groups.now count) (record_of bytes.now offset node) res out.old) width.old }
    ensures out_after { out.new ≡ right_out (table kinds.now lefts.now rights.now groups.now count) (record_of bytes.now offset node) res out.old }
{
    let table = Table::new(kinds, lefts, rights, groups, count);
    tell_number(value::right(&table, bytes, offset, node, res, out), width)
}

// Two records as one.
pub fn qv_product(
    kinds: &[u8],
    lefts: &[u16],
    rights: &[u16],
    groups: &[u8],
    count: usize,
    a_bytes: &[u8],
    a_offset: usize,
    a_node: usize,
    b_bytes: &[u8],
    b_offset: usize,
    b_node: usize,
    res: usize,
    width: &mut u64,
    out: &mut [u8],
) -> u64
    ensures value { result ≡ code (product_call (table kinds.now lefts.now rights.now groups.now count) (record_of a_bytes.now a_offset a_node) (record_of b_bytes.now b_offset b_node) res out.old) }
    ensures width_after { width.new ≡ stored (product_call (table kinds.now lefts.now rights.now groups.now count) (record_of a_bytes.now a_offset a_node) (record_of b_bytes.now b_offset b_node) res out.old) width.old }
    ensures out_after { out.new ≡ product_out (table kinds.now lefts.now rights.now groups.now count) (record_of a_bytes.now a_offset a_node) (record_of b_bytes.now b_offset b_node) res out.old }
{
    let table = Table::new(kinds, lefts, rights, groups, count);
    tell_number(
        value::product(
            &table, a_bytes, a_offset, a_node, b_bytes, b_offset, b_node, res, out,
        ),
        width,
    )
}

// The left record of unit, of a sum that begins with unit.
pub fn qv_none(
    kinds: &[u8],
    lefts: &[u16],
    rights: &[u16],
    groups: &[u8],
    count: usize,
    res: usize,
    width: &mut u64,
    out: &mut [u8],
) -> u64
    ensures value { result ≡ code (none_call (table kinds.now lefts.now rights.now groups.now count) res out.old) }
    ensures width_after { width.new ≡ stored (none_call (table kinds.now lefts.now rights.now groups.now count) res out.old) width.old }
    ensures out_after { out.new ≡ none_out (table kinds.now lefts.now rights.now groups.now count) res out.old }
{
    let table = Table::new(kinds, lefts, rights, groups, count);
    tell_number(value::none(&table, res, out), width)
}

// The right record of a payload, of the sum of unit and its type.
pub fn qv_some(
    kinds: &[u8],
    lefts: &[u16],
    rights: &[u16],
    groups: &[u8],
    count: usize,
    bytes: &[u8],
    offset: usize,
    node: usize,
    res: usize,
    width: &mut u64,
    out: &mut [u8],
) -> u64
    ensures value { result ≡ code (some_call (table kinds.now lefts.now rights.now groups.now count) (record_of bytes.now offset node) res out.old) }
    ensures width_after { width.new ≡ stored (some_call (table kinds.now lefts.now rights.now groups.now count) (record_of bytes.now offset node) res out.old) width.old }
    ensures out_after { out.new ≡ some_out (table kinds.now lefts.now rights.now groups.now count) (record_of bytes.now offset node) res out.old }
{
    let table = Table::new(kinds, lefts, rights, groups, count);
    tell_number(value::some(&table, bytes, offset, node, res, out), width)
}
