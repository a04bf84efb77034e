// The two codecs: compact and padded reading and writing of records, and the number of compact bits. A reader takes a stream, which is bytes, a
// length in bits and a position, and answers the next position; a writer takes a record, and answers how many bits it has written. Both write
// from bit 0 of the output on. No call expects a checked input. Each climbs the ladder in the order of the numbers and acts when all of it is
// climbed, so a refusal has touched nothing.
#![tactic(auto)]

mod codecs;
mod lengths;

pub use codecs::{from_compact_bits, from_padded_bits, to_compact_bits, to_padded_bits};
pub use lengths::compact_len;
