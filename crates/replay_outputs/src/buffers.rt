// Buffers and the hash state.
use lists::{Numbers, Request};
use replay_parts::Table;
use samples_names::BuffersCall;

// Makes one of these calls, and answers its result.
pub fn ask(
    call: BuffersCall,
    table: &Table,
    q: &Request,
    numbers: &mut Numbers,
    out: &mut [u8],
) -> u64 {
    let (kinds, lefts, rights, groups, count) = table.lent();
    let value = &mut numbers.value;
    match call {
        BuffersCall::Buffer8TwoNPlusOne => {
            let n = q.n as usize;
            exports::qv_buffer8_two_n_plus_one(
                kinds, lefts, rights, groups, count, n, q.data, q.node, value, out,
            )
        }
        BuffersCall::Ctx8 => exports::qv_ctx8(
            kinds, lefts, rights, groups, count, q.data, q.n, q.buffer, q.node, value, out,
        ),
    }
}
