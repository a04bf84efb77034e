// Lengths of records, for C.
ghost use Rattle.std.specs.Prelude.{◌≡◌};
ghost use Rattle.meaning.specs.Tables.{table};
ghost use Rattle.meaning.specs.Ladder.{record_of};
ghost use Rattle.meaning.specs.RecordCalls.{compact_len_call, padded_len_call};
ghost use Rattle.exports_answers.specs.Codes.{code, stored};

use exports_answers::tell_number;
use tables::Table;

// Accepted: how many compact bits a record has.
pub fn qv_compact_len(
    kinds: &[u8],
    lefts: &[u16],
    rights: &[u16],
    groups: &[u8],
    count: usize,
    bytes: &[u8],
    offset: usize,
    node: usize,
    bits: &mut u64,
) -> u64
    ensures value { result ≡ code (compact_len_call (table kinds.now lefts.now rights.now groups.now count) (record_of bytes.now offset node)) }
    ensures bits_after { bits.new ≡ stored (compact_len_call (table kinds.now lefts.now rights.now groups.now count) (record_of bytes.now offset node)) bits.old }
{
    let table = Table::new(kinds, lefts, rights, groups, count);
    tell_number(codec::compact_len(&table, bytes, offset, node), bits)
}

// Accepted: the width of a record.
pub fn qv_padded_len(
    kinds: &[u8],
    lefts: &[u16],
    rights: &[u16],
    groups: &[u8],
    count: usize,
    bytes: &[u8],
    offset: usize,
    node: usize,
    bits: &mut u64,
) -> u64
    ensures value { result ≡ code (padded_len_call (table kinds.now lefts.now rights.now groups.now count) (record_of bytes.now offset node)) }
    ensures bits_after { bits.new ≡ stored (padded_len_call (table kinds.now lefts.now rights.now groups.now count) (record_of bytes.now offset node)) bits.old }
{
    let table = Table::new(kinds, lefts, rights, groups, count);
    tell_number(value::padded_len(&table, bytes, offset, node), bits)
}
