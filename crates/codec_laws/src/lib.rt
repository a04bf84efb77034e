// What the walks of the codecs share: the words in which they say what they wrote and read, in `specs/`, and the laws of compact bits piece by
// piece, in `proofs/`. No function lives here.
#![tactic(auto)]
