// The basic paths of a chain, gone through from one to the next (document 01, Age of a chain). A chain has up to 1,000,000
// starts and at most so many basic paths as its slowest task has releases in a round: the walk goes along those.
#![tactic(auto)]

ghost use Rattle.std.specs.Prelude.{◌≡◌, ℕ, ◌<◌, ◌≤◌, length};
ghost use Rattle.quotients.specs.Paces.{periods_of};
ghost use Rattle.paths.specs.Walks.{RightChain, SumsOfRound, first_walk};

mod steps;

use following::{end_from, last_start, passed_on};
use path_sums::Walk;
use quotients::{Pace, paces_of};
use steps::step;

// The most tasks that a chain has.
const MOST_TASKS: usize = 8;

// The task with the longest period. The walk is right along any task, and shortest along this one.
fn slowest(paces: &[Pace]) -> usize
    requires { 0 < length paces.now }
    ensures { result < length paces.now }
{
    (0..paces.len())
        .max_by_key(|at| paces[*at].period)
        .unwrap_or(0)
}

// The walk at the instant at which task number `at` publishes the first start: no path is counted yet.
fn begun(paces: &[Pace], at: usize) -> Walk
    requires { ((round : ℕ) × RightChain (periods_of paces.now) (length paces.now) round) × (at < length paces.now) }
    ensures { result ≡ first_walk (periods_of paces.now) at (length paces.now) }
{
    let instants = passed_on(&paces[1..=at], [0; 4]);
    let starts = last_start(paces, at, instants);
    let ends = end_from(paces, at, instants);
    Walk {
        instant: instants[0],
        start: starts[0],
        end: ends[0],
        paths: 0,
        longest: 0,
        worst: 0,
        best: 0,
    }
}

// The basic paths of a round, counted.
pub fn count_paths(periods: &[u32], round: u32) -> Walk
    requires { RightChain periods.now (length periods.now) round }
    ensures { SumsOfRound periods.now (length periods.now) round result }
{
    let mut room = [Pace::of(1); MOST_TASKS];
    paces_of(periods, &mut room);
    let paces = &room[..periods.len()];
    let at = slowest(paces);
    let mut walk = begun(paces, at);
    while walk.start < round {
        walk = step(paces, at, round, walk);
    }
    walk
}
