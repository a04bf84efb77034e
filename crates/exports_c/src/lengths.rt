// Lengths of records, for C.
ghost use Rattle.std.specs.Prelude.{◌≡◌};
ghost use Rattle.meaning.specs.Tables.{table};
ghost use Rattle.meaning.specs.Ladder.{record_of};
ghost use Rattle.meaning.specs.RecordCalls.{compact_len_call, padded_len_call};
ghost use Rattle.exports_answers.specs.Codes.{code, stored};

// Accepted: how many compact bits a record has.
#[unsafe(no_mangle)]
pub extern "C" fn qv_compact_len(
    kinds: &[u8],
    lefts: &[u16],
    rights: &[u16],
    groups: &[u8],
    count: usize,
    bytes: &[u8],
    offset: usize,
    node: usize,
    bits: &mut u64,
) -> u64
    ensures value { result ≡ code (compact_len_call (table kinds.now lefts.now rights.now groups.now count) (record_of bytes.now offset node)) }
    ensures bits_after { bits.new ≡ stored (compact_len_call (table kinds.now lefts.now rights.now groups.now count) (record_of bytes.now offset node)) bits.old }
{
    exports::qv_compact_len(
        kinds, lefts, rights, groups, count, bytes, offset, node, bits,
    )
}

// Accepted: the width of a record.
#[unsafe(no_mangle)]
pub extern "C" fn qv_padded_len(
    kinds: &[u8],
    lefts: &[u16],
    rights: &[u16],
    groups: &[u8],
    count: usize,
    bytes: &[u8],
    offset: usize,
    node: usize,
    bits: &mut u64,
) -> u64
    ensures value { result ≡ code (padded_len_call (table kinds.now lefts.now rights.now groups.now count) (record_of bytes.now offset node)) }
    ensures bits_after { bits.new ≡ stored (padded_len_call (table kinds.now lefts.now rights.now groups.now count) (record_of bytes.now offset node)) bits.old }
{
    exports::qv_padded_len(
        kinds, lefts, rights, groups, count, bytes, offset, node, bits,
    )
}
