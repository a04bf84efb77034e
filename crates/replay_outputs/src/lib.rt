// Makes the calls that write a record or bits, with the arguments of a case: constructors, words, buffers and the hash state, the codecs and the
// cut. Each function makes the calls of one part of include/calls.list, and answers the call's result.
#![tactic(auto)]

pub mod buffers;
pub mod codecs;
pub mod constructors;
pub mod cuts;
pub mod joins;
pub mod word_calls;
