// Questions about types.
use lists::{Numbers, Request};
use replay_parts::Table;
use samples_names::TypesCall;

// Makes one of these calls, and answers its result.
pub fn ask(call: TypesCall, table: &Table, q: &Request, numbers: &mut Numbers) -> u64 {
    let (kinds, lefts, rights, groups, count) = table.lent();
    let Numbers { value, values, .. } = numbers;
    match call {
        TypesCall::FactsOf => exports::qv_facts_of(
            kinds, lefts, rights, groups, count, q.node, values,
        ),
        TypesCall::SameType => exports::qv_same_type(
            kinds, lefts, rights, groups, count, q.node, q.other, value,
        ),
        TypesCall::IsUnit => exports::qv_is_unit(
            kinds, lefts, rights, groups, count, q.node, value,
        ),
        TypesCall::IsEmpty => exports::qv_is_empty(
            kinds, lefts, rights, groups, count, q.node, value,
        ),
        TypesCall::TypeAsSum => exports::qv_type_as_sum(
            kinds, lefts, rights, groups, count, q.node, values,
        ),
        TypesCall::TypeAsProduct => exports::qv_type_as_product(
            kinds, lefts, rights, groups, count, q.node, values,
        ),
        TypesCall::PadLeft => exports::qv_pad_left(
            kinds, lefts, rights, groups, count, q.node, q.other, value,
        ),
        TypesCall::PadRight => exports::qv_pad_right(
            kinds, lefts, rights, groups, count, q.node, q.other, value,
        ),
    }
}
