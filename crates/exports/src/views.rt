// Views of a record for C: the caller's bytes at another offset and node.
ghost use Rattle.std.specs.Prelude.{◌≡◌};
ghost use Rattle.meaning.specs.Tables.{table};
ghost use Rattle.meaning.specs.Ladder.{record_of};
ghost use Rattle.meaning.specs.RecordCalls.{as_left_call, as_right_call, as_product_call};
ghost use Rattle.exports_answers.specs.Codes.{code, roomy, stored_all, spot_list, spots_list};

use exports_answers::tell_numbers;
use tables::Table;

// Accepted: offset and node of the payload of a left record.
pub fn qv_as_left(
    kinds: &[u8],
    lefts: &[u16],
    rights: &[u16],
    groups: &[u8],
    count: usize,
    bytes: &[u8],
    offset: usize,
    node: usize,
    view: &mut [u64],
) -> u64
    ensures value { result ≡ code (roomy spot_list view.old (as_left_call (table kinds.now lefts.now rights.now groups.now count) (record_of bytes.now offset node))) }
    ensures view_after { view.new ≡ stored_all spot_list (roomy spot_list view.old (as_left_call (table kinds.now lefts.now rights.now groups.now count) (record_of bytes.now offset node))) view.old }
{
    let table = Table::new(kinds, lefts, rights, groups, count);
    tell_numbers(value::as_left(&table, bytes, offset, node), view)
}

// Accepted: offset and node of the payload of a right record.
pub fn qv_as_right(
    kinds: &[u8],
    lefts: &[u16],
    rights: &[u16],
    groups: &[u8],
    count: usize,
    bytes: &[u8],
    offset: usize,
    node: usize,
    view: &mut [u64],
) -> u64
    ensures value { result ≡ code (roomy spot_list view.old (as_right_call (table kinds.now lefts.now rights.now groups.now count) (record_of bytes.now offset node))) }
    ensures view_after { view.new ≡ stored_all spot_list (roomy spot_list view.old (as_right_call (table kinds.now lefts.now rights.now groups.now count) (record_of bytes.now offset node))) view.old }
{
    let table = Table::new(kinds, lefts, rights, groups, count);
    tell_numbers(value::as_right(&table, bytes, offset, node), view)
}

// Accepted: offset and node of both parts of a product, the first before the second.
pub fn qv_as_product(
    kinds: &[u8],
    lefts: &[u16],
    rights: &[u16],
    groups: &[u8],
    count: usize,
    bytes: &[u8],
    offset: usize,
    node: usize,
    views: &mut [u64],
) -> u64
    ensures value { result ≡ code (roomy spots_list views.old (as_product_call (table kinds.now lefts.now rights.now groups.now count) (record_of bytes.now offset node))) }
    ensures views_after { views.new ≡ stored_all spots_list (roomy spots_list views.old (as_product_call (table kinds.now lefts.now rights.now groups.now count) (record_of bytes.now offset node))) views.old }
{
    let table = Table::new(kinds, lefts, rights, groups, count);
    tell_numbers(value::as_product(&table, bytes, offset, node), views)
}
