// The two codecs. A reader reads the stream of the case, a writer its first record.
use lists::{Numbers, Request};
use replay_parts::Table;
use samples_names::CodecsCall;

// Makes one of these calls, and answers its result.
pub fn ask(
    call: CodecsCall,
    table: &Table,
    q: &Request,
    numbers: &mut Numbers,
    out: &mut [u8],
) -> u64 {
    let (kinds, lefts, rights, groups, count) = table.lent();
    let a = q.a;
    let Numbers {
        position,
        value,
        ..
    } = numbers;
    match call {
        CodecsCall::FromCompactBits => exports::qv_from_compact_bits(
            kinds, lefts, rights, groups, count, q.stream, q.until, position, q.node, out,
        ),
        CodecsCall::FromPaddedBits => exports::qv_from_padded_bits(
            kinds, lefts, rights, groups, count, q.stream, q.until, position, q.node, out,
        ),
        CodecsCall::ToCompactBits => exports::qv_to_compact_bits(
            kinds, lefts, rights, groups, count, a.bytes, a.offset, a.node, value, out,
        ),
        CodecsCall::ToPaddedBits => exports::qv_to_padded_bits(
            kinds, lefts, rights, groups, count, a.bytes, a.offset, a.node, value, out,
        ),
    }
}
