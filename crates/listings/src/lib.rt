// A listing taken out of its bytes: definitions (specs/) and laws (proofs/), no code.
#![tactic(auto)]
