// The counters of a core, gathered from a table (document 003: "two counters for each pair of communicating tasks: one
// for write operations, and one for read operations"). Publishing points and reading points are counted alike, a `Kind`
// saying which. What a counter is: specs/.
#![tactic(auto)]

ghost use Rattle.std.specs.Prelude.{◌≡◌, min};
ghost use Rattle.gathering.specs.Kinds.{reads};
ghost use Rattle.gathering.specs.Pairs.{joined_masks, pairs_below};
ghost use Rattle.gathering.specs.Counters.{counter_of};
ghost use Rattle.gathering.specs.Stored.{Stored};

mod storing;

use storing::store_pairs;
use table::Table;

// The points that a counter counts: those at which a writer publishes, or those at which a reader reads.
#[derive(Clone, Copy)]
pub enum Kind {
    Publishing,
    Reading,
}

// The last tick that a counter can have: last_tick of specs/Counters.antt.
const LAST_TICK: u64 = 4_194_303;

// The counter of a pair with its next point.
pub fn counter_of(point: u64, code: u32) -> u32
    ensures { result ≡ counter_of point code }
{
    point.min(LAST_TICK) as u32 * 1024 + code % 1024
}

// Of each task the readers of the labels that it writes. Labels past 64 are not looked at.
pub fn joined_masks(table: &Table) -> [u32; 32]
    ensures { result ≡ joined_masks table.now.labels table.now.writer table.now.readers }
{
    let mut masks = [0; 32];
    for l in 0..table.labels.min(64) {
        masks[(table.writer[l] % 32) as usize] |= table.readers[l];
    }
    masks
}

// The counters of a core at tick 0, of the pairs whose writer is among the first tasks: how many there are. They stand at the
// start of what is lent, as far as it goes.
pub fn gather(
    kind: Kind,
    core: u32,
    table: &Table,
    joined: &[u32; 32],
    counters: &mut [u32],
) -> usize
    ensures { Stored (counter_of 0)
        (pairs_below (reads kind) core table.now.core joined.now (min table.now.tasks 32))
        counters.old result counters.new }
{
    let mut count = 0;
    for w in 0..table.tasks.min(32) as u32 {
        count = store_pairs(kind, core, table, w, joined[w as usize], counters, count);
    }
    count
}
