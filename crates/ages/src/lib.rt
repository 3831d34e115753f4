// The age of a chain: definitions (specs/); the code follows.
#![tactic(auto)]
