// What a passed ladder means, said once: the storey between the leaves and the public crates. This crate is its vocabulary and its laws, and has
// no code. `checked_table`, `checked_present`, `checked_limits` and `checked_rungs` ask the rungs; `checked_nodes` tells of checked nodes, and
// `checked_writers` writes whole records.
#![tactic(auto)]
