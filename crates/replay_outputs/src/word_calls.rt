// Words from numbers and from bytes.
use lists::{Numbers, Request};
use replay_parts::Table;
use samples_names::WordsCall;

// A call that makes a word from bytes: a table, the bytes, the node, the place of the answer and the output.
type FromBytes = fn(&[u8], &[u16], &[u16], &[u8], usize, &[u8], usize, &mut u64, &mut [u8]) -> u64;

// Makes one of these calls, and answers its result.
pub fn ask(
    call: WordsCall,
    table: &Table,
    q: &Request,
    numbers: &mut Numbers,
    out: &mut [u8],
) -> u64 {
    let (kinds, lefts, rights, groups, count) = table.lent();
    let value = &mut numbers.value;
    let from_bytes: FromBytes = match call {
        WordsCall::U1 => return exports::qv_u1(
            kinds, lefts, rights, groups, count, q.n, q.node, value, out,
        ),
        WordsCall::U2 => return exports::qv_u2(
            kinds, lefts, rights, groups, count, q.n, q.node, value, out,
        ),
        WordsCall::U4 => return exports::qv_u4(
            kinds, lefts, rights, groups, count, q.n, q.node, value, out,
        ),
        WordsCall::U8 => exports::qv_u8,
        WordsCall::U16 => exports::qv_u16,
        WordsCall::U32 => exports::qv_u32,
        WordsCall::U64 => exports::qv_u64,
        WordsCall::U128 => exports::qv_u128,
        WordsCall::U256 => exports::qv_u256,
        WordsCall::U512 => exports::qv_u512,
        WordsCall::FromByteArray => exports::qv_from_byte_array,
    };
    from_bytes(
        kinds, lefts, rights, groups, count, q.data, q.node, value, out,
    )
}
