// Lengths of a record.
use lists::{Numbers, Request};
use replay_parts::Table;
use samples_names::LengthsCall;

// Makes one of these calls, and answers its result.
pub fn ask(call: LengthsCall, table: &Table, q: &Request, numbers: &mut Numbers) -> u64 {
    let (kinds, lefts, rights, groups, count) = table.lent();
    let a = q.a;
    let value = &mut numbers.value;
    match call {
        LengthsCall::CompactLen => exports::qv_compact_len(
            kinds, lefts, rights, groups, count, a.bytes, a.offset, a.node, value,
        ),
        LengthsCall::PaddedLen => exports::qv_padded_len(
            kinds, lefts, rights, groups, count, a.bytes, a.offset, a.node, value,
        ),
    }
}
