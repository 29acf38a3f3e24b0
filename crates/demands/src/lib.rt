// What follows for the user from the promises of the other crates: there is no code here, only statements (specs/) and their proofs (proofs/).
#![tactic(auto)]
