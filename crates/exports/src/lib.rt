// The C interface: every public call of the library as `qv_NAME`, of numbers and slices only. The result is one number: 0 for accepted, else
// number + 256 · place of the refusal. What was accepted goes to numbers and slices that the caller lends, and a refusal leaves all of them as
// they stood. The position of a stream is lent too: an accepted reading moves it.
// No call expects anything of its input. Each hands on to the call that it is named after and is proved against that call's definition.
// `exports_c` gives them to C, under the same names and clauses, and `include/quelomavunt.h` declares them there. Here they are public to
// Rattle: recorded answers are replayed through what C calls, and their contracts can be named where pairs of results are settled.
// The files are the parts of the calls. The parts `tables`, `types`, `word_types` and `words` are `table_calls`, `type_calls`, `word_type_calls`
// and `word_calls` here, since no module has the name of a crate that is called.
#![tactic(auto)]

mod buffers;
mod codecs;
mod comparing;
mod constructors;
mod cuts;
mod joins;
mod lengths;
mod table_calls;
mod type_calls;
mod views;
mod word_calls;
mod word_type_calls;

pub use buffers::{qv_buffer8_two_n_plus_one, qv_ctx8};
pub use codecs::{
    qv_from_compact_bits, qv_from_padded_bits, qv_to_compact_bits, qv_to_padded_bits,
};
pub use comparing::{qv_compare, qv_equal};
pub use constructors::{qv_left, qv_none, qv_product, qv_right, qv_some, qv_unit, qv_zero};
pub use cuts::qv_prune;
pub use joins::{qv_word_from_bits, qv_word_product};
pub use lengths::{qv_compact_len, qv_padded_len};
pub use table_calls::{qv_check_table, qv_fill_facts, qv_read_table};
pub use type_calls::{
    qv_facts_of, qv_is_empty, qv_is_unit, qv_pad_left, qv_pad_right, qv_same_type,
    qv_type_as_product, qv_type_as_sum,
};
pub use views::{qv_as_left, qv_as_product, qv_as_right};
pub use word_calls::{
    qv_from_byte_array, qv_u1, qv_u2, qv_u4, qv_u8, qv_u16, qv_u32, qv_u64, qv_u128, qv_u256,
    qv_u512,
};
pub use word_type_calls::{qv_as_word, qv_buffer_width, qv_is_buffer8, qv_is_ctx8, qv_word_width};
