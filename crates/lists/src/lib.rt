// Searches and collections below a bound: definitions (specs/) and their laws (proofs/), no code.
#![tactic(auto)]
