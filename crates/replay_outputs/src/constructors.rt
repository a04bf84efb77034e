// Constructors.
use lists::{Numbers, Request};
use replay_parts::Table;
use samples_names::ConstructorsCall;

// Makes one of these calls, and answers its result.
pub fn ask(
    call: ConstructorsCall,
    table: &Table,
    q: &Request,
    numbers: &mut Numbers,
    out: &mut [u8],
) -> u64 {
    let (kinds, lefts, rights, groups, count) = table.lent();
    let (a, b) = (q.a, q.b);
    let target = q.node;
    let value = &mut numbers.value;
    match call {
        ConstructorsCall::Unit => exports::qv_unit(
            kinds, lefts, rights, groups, count, target, value, out,
        ),
        ConstructorsCall::Left => exports::qv_left(
            kinds, lefts, rights, groups, count, a.bytes, a.offset, a.node, target, value, out,
        ),
        ConstructorsCall::Right => exports::qv_right(
            kinds, lefts, rights, groups, count, a.bytes, a.offset, a.node, target, value, out,
        ),
        ConstructorsCall::Product => exports::qv_product(
            kinds, lefts, rights, groups, count, a.bytes, a.offset, a.node, b.bytes, b.offset,
            b.node, target, value, out,
        ),
        ConstructorsCall::None => exports::qv_none(
            kinds, lefts, rights, groups, count, target, value, out,
        ),
        ConstructorsCall::Some => exports::qv_some(
            kinds, lefts, rights, groups, count, a.bytes, a.offset, a.node, target, value, out,
        ),
        ConstructorsCall::Zero => exports::qv_zero(
            kinds, lefts, rights, groups, count, target, value, out,
        ),
    }
}
