// For every public call: any two results that its statement allows are equal, the answer and every lent buffer (`proofs/`). No function lives here.
#![tactic(auto)]
