// The two codecs, for C. A reader moves the position; a writer answers how many bits it has written. Both write from bit 0 of the output on.
ghost use Rattle.std.specs.Prelude.{◌≡◌};
ghost use Rattle.meaning.specs.Tables.{table};
ghost use Rattle.meaning.specs.Ladder.{record_of, stream_of};
ghost use Rattle.meaning.specs.CodecCalls.{from_compact_call, from_compact_out, from_padded_call, from_padded_out, to_compact_call, to_compact_out, to_padded_call, to_padded_out};
ghost use Rattle.exports_answers.specs.Codes.{code, stored};

use exports_answers::tell_number;
use tables::Table;

// Reads a record from its compact bits; padding is zero. Accepted: the next position.
pub fn qv_from_compact_bits(
    kinds: &[u8],
    lefts: &[u16],
    rights: &[u16],
    groups: &[u8],
    count: usize,
    bytes: &[u8],
    until: usize,
    position: &mut u64,
    node: usize,
    out: &mut [u8],
) -> u64
    ensures value { result ≡ code (from_compact_call (table kinds.now lefts.now rights.now groups.now count) (stream_of bytes.now until position.old) node out.old) }
    ensures position_after { position.new ≡ stored (from_compact_call (table kinds.now lefts.now rights.now groups.now count) (stream_of bytes.now until position.old) node out.old) position.old }
    ensures out_after { out.new ≡ from_compact_out (table kinds.now lefts.now rights.now groups.now count) (stream_of bytes.now until position.old) node out.old }
{
    let table = Table::new(kinds, lefts, rights, groups, count);
    let from = *position as usize;
    let answer = codec::from_compact_bits(&table, bytes, until, from, node, out);
    tell_number(answer, position)
}

// Reads a record from its padded bits; padding is as read. Accepted: the next position.
pub fn qv_from_padded_bits(
    kinds: &[u8],
    lefts: &[u16],
    rights: &[u16],
    groups: &[u8],
    count: usize,
    bytes: &[u8],
    until: usize,
    position: &mut u64,
    node: usize,
    out: &mut [u8],
) -> u64
    ensures value { result ≡ code (from_padded_call (table kinds.now lefts.now rights.now groups.now count) (stream_of bytes.now until position.old) node out.old) }
    ensures position_after { position.new ≡ stored (from_padded_call (table kinds.now lefts.now rights.now groups.now count) (stream_of bytes.now until position.old) node out.old) position.old }
    ensures out_after { out.new ≡ from_padded_out (table kinds.now lefts.now rights.now groups.now count) (stream_of bytes.now until position.old) node out.old }
{
    let table = Table::new(kinds, lefts, rights, groups, count);
    let from = *position as usize;
    let answer = codec::from_padded_bits(&table, bytes, until, from, node, out);
    tell_number(answer, position)
}

// Writes the compact bits of a record. Accepted: how many they are.
pub fn qv_to_compact_bits(
    kinds: &[u8],
    lefts: &[u16],
    rights: &[u16],
    groups: &[u8],
    count: usize,
    bytes: &[u8],
    offset: usize,
    node: usize,
    bits: &mut u64,
    out: &mut [u8],
) -> u64
    ensures value { result ≡ code (to_compact_call (table kinds.now lefts.now rights.now groups.now count) (record_of bytes.now offset node) out.old) }
    ensures bits_after { bits.new ≡ stored (to_compact_call (table kinds.now lefts.now rights.now groups.now count) (record_of bytes.now offset node) out.old) bits.old }
    ensures out_after { out.new ≡ to_compact_out (table kinds.now lefts.now rights.now groups.now count) (record_of bytes.now offset node) out.old }
{
    let table = Table::new(kinds, lefts, rights, groups, count);
    tell_number(
        codec::to_compact_bits(&table, bytes, offset, node, out),
        bits,
    )
}

// Writes the padded bits of a record. Accepted: how many they are.
pub fn qv_to_padded_bits(
    kinds: &[u8],
    lefts: &[u16],
    rights: &[u16],
    groups: &[u8],
    count: usize,
    bytes: &[u8],
    offset: usize,
    node: usize,
    bits: &mut u64,
    out: &mut [u8],
) -> u64
    ensures value { result ≡ code (to_padded_call (table kinds.now lefts.now rights.now groups.now count) (record_of bytes.now offset node) out.old) }
    ensures bits_after { bits.new ≡ stored (to_padded_call (table kinds.now lefts.now rights.now groups.now count) (record_of bytes.now offset node) out.old) bits.old }
    ensures out_after { out.new ≡ to_padded_out (table kinds.now lefts.now rights.now groups.now count) (record_of bytes.now offset node) out.old }
{
    let table = Table::new(kinds, lefts, rights, groups, count);
    tell_number(
        codec::to_padded_bits(&table, bytes, offset, node, out),
        bits,
    )
}
