// What is proved, under the user's three demands: proofs/Demand1.antt to Demand3.antt. No code.
#![tactic(auto)]
