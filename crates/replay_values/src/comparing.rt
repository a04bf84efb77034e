// Comparison of records.
use lists::{Numbers, Request};
use replay_parts::Table;
use samples_names::ComparingCall;

// Makes one of these calls, and answers its result.
pub fn ask(call: ComparingCall, table: &Table, q: &Request, numbers: &mut Numbers) -> u64 {
    let (kinds, lefts, rights, groups, count) = table.lent();
    let (a, b) = (q.a, q.b);
    let value = &mut numbers.value;
    match call {
        ComparingCall::Equal => exports::qv_equal(
            kinds, lefts, rights, groups, count, a.bytes, a.offset, a.node, b.bytes, b.offset,
            b.node, value,
        ),
        ComparingCall::Compare => exports::qv_compare(
            kinds, lefts, rights, groups, count, a.bytes, a.offset, a.node, b.bytes, b.offset,
            b.node, value,
        ),
    }
}
