// Functions on lists that the definitions of the crates above are written with, and their laws.
// The crate has no code: `specs/Lists.antt` defines, `proofs/` proves.
#![tactic(auto)]
