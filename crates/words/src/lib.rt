// Words, byte arrays, joins, buffers and the hash state, from numbers and bytes to records. Every call judges all that it is handed, in the
// order of the ladder's numbers, and writes only what it has accepted.
#![tactic(auto)]

mod buffers;
mod joins;
mod words;

pub use buffers::{buffer8_two_n_plus_one, ctx8};
pub use joins::{word_from_bits, word_product};
pub use words::{from_byte_array, u1, u2, u4, u8, u16, u32, u64, u128, u256, u512};
pub use words_states::HashState;
