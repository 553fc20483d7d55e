// Theorems about the definitions of the crate `model`, and laws of them that the crates above use. The
// crate has no code.
#![tactic(auto)]
