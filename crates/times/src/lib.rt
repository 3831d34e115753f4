// Releases, the hyperperiod and the points of a pair of tasks (document 01: Table image, Points): definitions and laws
// (specs/, proofs/), and the code of the hyperperiod.
#![tactic(auto)]

pub mod divisors;
pub mod rounds;

// What fixes a task's releases. Document 01: "A task with period T is released at 0, T, 2T and so on".
#[derive(Clone, Copy)]
pub struct Timing {
    pub period: u32,
}
