#![tactic(auto)]

// What document 01 says, as definitions (`specs/`) with the marked samples and the basic laws (`proofs/`). No function lives here.
