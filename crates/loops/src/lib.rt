// Ways of going over a list, as definitions (specs/) with the laws of each (proofs/): what the loops and the chains of
// iterators of this repository are proved by, in words that all share. No code. Assumes nothing.
#![tactic(auto)]
