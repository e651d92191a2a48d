// The account of the code is in specs/ and proofs/. It has no program; a crate must have a function.
#![tactic(auto)]

fn account() {}
