// How fields are taken out of a string of bytes, one after the other: definitions and laws, no code. Images are read by
// them.
#![tactic(auto)]
