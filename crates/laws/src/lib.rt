#![tactic(auto)]

// The great theorems over the definitions of `meaning`, in `proofs/`. No function lives here.
