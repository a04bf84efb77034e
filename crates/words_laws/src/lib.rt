// The laws of words, buffers and the hash state, and what a segment of a buffer holds. No code.
#![tactic(auto)]
