// Words from words and from a stream.
use lists::{Numbers, Request};
use replay_parts::Table;
use samples_names::JoinsCall;

// Makes one of these calls, and answers its result.
pub fn ask(
    call: JoinsCall,
    table: &Table,
    q: &Request,
    numbers: &mut Numbers,
    out: &mut [u8],
) -> u64 {
    let (kinds, lefts, rights, groups, count) = table.lent();
    let (a, b) = (q.a, q.b);
    let Numbers {
        position,
        value,
        ..
    } = numbers;
    match call {
        JoinsCall::WordProduct => exports::qv_word_product(
            kinds, lefts, rights, groups, count, a.bytes, a.offset, a.node, b.bytes, b.offset,
            b.node, q.node, value, out,
        ),
        JoinsCall::WordFromBits => {
            let n = q.n as usize;
            exports::qv_word_from_bits(
                kinds, lefts, rights, groups, count, q.stream, q.until, position, n, q.node, out,
            )
        }
    }
}
