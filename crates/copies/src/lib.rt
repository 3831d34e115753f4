// Copies, frames and the listing of a core: definitions (specs/); the code follows.
#![tactic(auto)]
