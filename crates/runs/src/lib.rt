// What jobs read under a set of copies: definitions (specs/) and theorems (proofs/), no code.
#![tactic(auto)]
