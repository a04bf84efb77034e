// Questions about word types, buffer types and the hash state's type.
use lists::{Numbers, Request};
use replay_parts::Table;
use samples_names::WordTypesCall;

// Makes one of these calls, and answers its result.
pub fn ask(call: WordTypesCall, table: &Table, q: &Request, numbers: &mut Numbers) -> u64 {
    let (kinds, lefts, rights, groups, count) = table.lent();
    let value = &mut numbers.value;
    let n = q.n as usize;
    match call {
        WordTypesCall::AsWord => exports::qv_as_word(
            kinds, lefts, rights, groups, count, q.node, value,
        ),
        WordTypesCall::WordWidth => exports::qv_word_width(n, value),
        WordTypesCall::BufferWidth => exports::qv_buffer_width(n, value),
        WordTypesCall::IsBuffer8 => exports::qv_is_buffer8(
            kinds, lefts, rights, groups, count, q.node, n, value,
        ),
        WordTypesCall::IsCtx8 => exports::qv_is_ctx8(
            kinds, lefts, rights, groups, count, q.node, value,
        ),
    }
}
