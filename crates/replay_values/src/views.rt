// Views of a record.
use lists::{Numbers, Request};
use replay_parts::Table;
use samples_names::ViewsCall;

// Makes one of these calls, and answers its result.
pub fn ask(call: ViewsCall, table: &Table, q: &Request, numbers: &mut Numbers) -> u64 {
    let (kinds, lefts, rights, groups, count) = table.lent();
    let a = q.a;
    let values = &mut numbers.values;
    match call {
        ViewsCall::AsLeft => exports::qv_as_left(
            kinds, lefts, rights, groups, count, a.bytes, a.offset, a.node, values,
        ),
        ViewsCall::AsRight => exports::qv_as_right(
            kinds, lefts, rights, groups, count, a.bytes, a.offset, a.node, values,
        ),
        ViewsCall::AsProduct => exports::qv_as_product(
            kinds, lefts, rights, groups, count, a.bytes, a.offset, a.node, values,
        ),
    }
}
