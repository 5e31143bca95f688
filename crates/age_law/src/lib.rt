// The law that the order in the record is the order of assignment, for every history: specs/ states it, proofs/ proves
// it. There is no code here.
// Assumes nothing.
#![tactic(auto)]
