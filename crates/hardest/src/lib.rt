// The hardest song of n bytes: no list of n bytes makes a fresh device steal more often, and the song that crate `song`
// writes makes it steal as often. specs/ states it, proofs/ proves it. There is no code here. Assumes nothing.
#![tactic(auto)]
