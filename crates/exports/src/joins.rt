// Words from records and from streams, for C.
ghost use Rattle.std.specs.Prelude.{◌≡◌};
ghost use Rattle.meaning.specs.Tables.{table};
ghost use Rattle.meaning.specs.Ladder.{record_of, stream_of};
ghost use Rattle.meaning.specs.WordCalls.{join_call, join_out, word_read_call, word_read_out};
ghost use Rattle.exports_answers.specs.Codes.{code, stored};

use exports_answers::tell_number;
use tables::Table;

// Two records of the same word type as a record of the next.
pub fn qv_word_product(
    kinds: &[u8],
    lefts: &[u16],
    rights: &[u16],
    groups: &[u8],
    count: usize,
    a_bytes: &[u8],
    a_offset: usize,
    a_node: usize,
    b_bytes: &[u8],
    b_offset: usize,
    b_node: usize,
    res: usize,
    width: &mut u64,
    out: &mut [u8],
) -> u64
    ensures value { result ≡ code (join_call (table kinds.now lefts.now rights.now groups.now count) (record_of a_bytes.now a_offset a_node) (record_of b_bytes.now b_offset b_node) res out.old) }
    ensures width_after { width.new ≡ stored (join_call (table kinds.now lefts.now rights.now groups.now count) (record_of a_bytes.now a_offset a_node) (record_of b_bytes.now b_offset b_node) res out.old) width.old }
    ensures out_after { out.new ≡ join_out (table kinds.now lefts.now rights.now groups.now count) (record_of a_bytes.now a_offset a_node) (record_of b_bytes.now b_offset b_node) res out.old }
{
    let table = Table::new(kinds, lefts, rights, groups, count);
    tell_number(
        words::word_product(
            &table, a_bytes, a_offset, a_node, b_bytes, b_offset, b_node, res, out,
        ),
        width,
    )
}

// Reads word n from a stream. Accepted: the next position.
pub fn qv_word_from_bits(
    kinds: &[u8],
    lefts: &[u16],
    rights: &[u16],
    groups: &[u8],
    count: usize,
    bytes: &[u8],
    until: usize,
    position: &mut u64,
    n: usize,
    node: usize,
    out: &mut [u8],
) -> u64
    ensures value { result ≡ code (word_read_call (table kinds.now lefts.now rights.now groups.now count) (stream_of bytes.now until position.old) n node out.old) }
    ensures position_after { position.new ≡ stored (word_read_call (table kinds.now lefts.now rights.now groups.now count) (stream_of bytes.now until position.old) n node out.old) position.old }
    ensures out_after { out.new ≡ word_read_out (table kinds.now lefts.now rights.now groups.now count) (stream_of bytes.now until position.old) n node out.old }
{
    let table = Table::new(kinds, lefts, rights, groups, count);
    let from = *position as usize;
    let answer = words::word_from_bits(&table, bytes, until, from, n, node, out);
    tell_number(answer, position)
}
