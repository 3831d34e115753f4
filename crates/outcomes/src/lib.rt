// What is said to a question: definitions (specs/) and laws (proofs/), no code.
#![tactic(auto)]
