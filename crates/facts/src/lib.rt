// General facts that every crate may cite: there is no code here, only definitions (specs/) and laws (proofs/).
#![tactic(auto)]
