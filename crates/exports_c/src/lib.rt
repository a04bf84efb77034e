// The static library for C: every call of `exports` under its own name, `qv_NAME`, with its very clauses. `include/quelomavunt.h` declares them.
// A crate is a library or a static library and not both, so each function here is one call of `exports`, which Rattle calls too.
// `tools/exports-c` writes the other files, a part each, from those of `exports`.
#![tactic(auto)]

mod buffers;
mod codecs;
mod comparing;
mod constructors;
mod cuts;
mod joins;
mod lengths;
mod table_calls;
mod type_calls;
mod views;
mod word_calls;
mod word_type_calls;
