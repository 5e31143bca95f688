// The examples P1 to P9 of docs/RULES.md, computed from the definitions that the contracts cite: specs/ lists them,
// proofs/ has the one proof. There is no code here.
// Assumes nothing.
#![tactic(auto)]
