// Short lists in which demand 3 says what becomes of a note (proofs/Lists.antt): no code.
#![tactic(auto)]
