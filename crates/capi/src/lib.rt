// What the C interface says: each question about an image as one function, its answer a struct of numbers. The number is 0
// where the question is answered, and else that of document 01, Numbers that say no. What each answer says:
// crates/c_answers, specs/Said.antt. No function requires anything. crates/capi_c exports them to C under the same names.
#![tactic(auto)]

pub mod chain_ages;
pub mod cores;
pub mod pairs;
pub mod reading;
