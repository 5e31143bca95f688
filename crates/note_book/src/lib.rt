// Demand 3 and the order of age over every list of bytes and reports: definitions in specs/, theorems in proofs/. There
// is no code here.
// Assumes nothing.
#![tactic(auto)]
