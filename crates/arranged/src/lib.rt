// What holds of every MIP message that crate `arranging` writes (R14.7 to R14.10): our reader takes it, and its
// values are as low as the log allows. No code: the theorems are stated in specs/ and proved in proofs/. Assumes
// nothing.
#![tactic(auto)]
