// How often a task is released: its period, by which numbers are divided again and again, and so beside it what stands for
// the division, a product and a shift. For periods up to 1,000,000.
#![tactic(auto)]

mod divided;
mod pace;
mod releases;

pub use divided::{paces_of, quotient};
pub use pace::Pace;
