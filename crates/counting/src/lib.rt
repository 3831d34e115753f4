// The counters count the points of a table: laws of what crates/gathering and crates/counters ensure (specs/, proofs/).
#![tactic(auto)]
