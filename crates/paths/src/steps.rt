// From one release of a task of the chain to its next, four of them at once.
ghost use Rattle.std.specs.Prelude.{ℕ, ◌<◌, length};
ghost use Rattle.quotients.specs.Paces.{periods_of};
ghost use Rattle.paths.specs.Walks.{Walks, Walking, Taking, Taken};

use following::{end_from, last_start};
use path_sums::Walk;
use quotients::Pace;

// What the task publishes next, at `instant`: the last start that it has then published, and that start's end. The starts
// after the one that the walk has come to have all the same end; so that one is a basic path where it ends earlier, and
// none of them but the last may be one. Past the round nothing is taken.
fn take(paces: &[Pace], round: u32, walk: Walk, instant: u32, start: u32, end: u32) -> Walk
    requires { (at : ℕ) × Taking (periods_of paces.now) (length paces.now) at round walk instant start end }
    ensures { (at : ℕ) → Taking (periods_of paces.now) (length paces.now) at round walk instant start end
        → Taken (periods_of paces.now) (length paces.now) at round walk instant result }
{
    if round <= walk.start {
        return walk;
    }
    if start == walk.start {
        return walk.moved_to(instant, start, walk.end);
    }
    if end == walk.end {
        return walk.moved_to(instant, start, end);
    }
    let first = paces[0].period;
    let last = paces[paces.len() - 1].period;
    let counted = walk.with_path(first, last, end);
    counted.moved_to(instant, start, end)
}

// The next four releases of task number `at`, as far as the round goes.
pub(crate) fn step(paces: &[Pace], at: usize, round: u32, walk: Walk) -> Walk
    requires { Walking (periods_of paces.now) (length paces.now) at round walk }
    ensures { Walks (periods_of paces.now) (length paces.now) at round result × (walk.instant < result.instant) }
{
    let period = paces[at].period;
    let a = walk.instant + period;
    let b = a + period;
    let c = b + period;
    let d = c + period;
    let instants = [a, b, c, d];
    let starts = last_start(paces, at, instants);
    let ends = end_from(paces, at, instants);
    let mut reached = walk;
    // By number, since three arrays are gone through side by side: pairs of pairs would be no plainer.
    for i in 0..4 {
        reached = take(paces, round, reached, instants[i], starts[i], ends[i]);
    }
    reached
}
