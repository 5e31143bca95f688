// What the service page shows (section 15 of docs/RULES.md): after every list of events it is the note book's, and
// what the queries answer; and its lines are lines. No code: the theorems are stated in specs/ and proved in proofs/.
// Assumes nothing.
#![tactic(auto)]
