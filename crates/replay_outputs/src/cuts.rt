// The cut, of the first record.
use lists::{Numbers, Request};
use replay_parts::Table;
use samples_names::CutsCall;

// Makes one of these calls, and answers its result.
pub fn ask(
    call: CutsCall,
    table: &Table,
    q: &Request,
    numbers: &mut Numbers,
    out: &mut [u8],
) -> u64 {
    let (kinds, lefts, rights, groups, count) = table.lent();
    let a = q.a;
    let value = &mut numbers.value;
    match call {
        CutsCall::Prune => exports::qv_prune(
            kinds, lefts, rights, groups, count, a.bytes, a.offset, a.node, q.node, value, out,
        ),
    }
}
