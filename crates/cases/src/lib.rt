// Document 01's starred cases: the table (specs/) and its theorem (proofs/), and its printed example. Then further
// cases in the same manner: a second table (specs/Further.antt) and its theorem. The cases on points, hyperperiods and
// refusals are also run by crates/run_cases, all of document 01's by the independent program.
#![tactic(auto)]
