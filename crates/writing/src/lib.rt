// The image of a table: definitions (specs/) and laws (proofs/). No code stands here yet.
#![tactic(auto)]
