// The counters of a core go on from instant to instant, and say what is due (document 003: "Such counters can be used
// to identify the time instants in which the LET communications for a pair of tasks must be performed"). What is due:
// specs/.
#![tactic(auto)]

ghost use Rattle.std.specs.Prelude.{◌≡◌, ℕ, map, true, false, ◌≤◌, ◌<◌, ◌^◌, length};
ghost use Rattle.std.specs.Int.Count.{ones};
ghost use Rattle.gathering.specs.Kinds.{reads};
ghost use Rattle.counters.specs.Advanced.{stepped, folded, masks_due, labels_due, count_due, next_due};
ghost use Rattle.counters.specs.Tallies.{where_due};

mod one;
mod tallies;

use gathering::Kind;
use label_masks::LabelMasks;
use one::{gone_on, tick_in};
use table::Table;
use tallies::Tally;

// How many labels a mask has.
pub fn how_many(labels: u64) -> u32
    ensures { (result ≡ ones labels) × (result ≤ 64) × (labels < 2 ^ 64) }
{
    labels.count_ones()
}

// What is written at an instant: the labels, and the next tick at which a publishing counter is due.
#[derive(Clone, Copy)]
pub struct Written {
    pub labels: u64,
    pub next: u32,
}

// What is read at an instant: of each writer a mask of the readers that are served, the labels, how many reads there are,
// and the next tick at which a reading counter is due.
#[derive(Clone, Copy)]
pub struct Read {
    pub serves: [u32; 32],
    pub labels: u64,
    pub count: u32,
    pub next: u32,
}

// One pass over counters of a kind: those of tick t are tallied, and each of them goes on to its next point. It answers the
// next tick at which a counter is due.
fn advance<T: Tally>(
    kind: Kind,
    tally: &mut T,
    counters: &mut [u32],
    t: u32,
    table: &Table,
    masks: &LabelMasks,
) -> u32
    requires { (n : ℕ) → n ≤ length counters.old → T.HasRoom tally.old n }
    ensures due { tally.new ≡ folded (where_due (T.with_one_more masks.now) t) tally.old counters.old }
    ensures room { T.HasRoom tally.new 0 }
    ensures next { result ≡ next_due (reads kind) table.now.period t counters.old }
    ensures gone { counters.new ≡ map (stepped (reads kind) table.now.period t) counters.old }
{
    let mut least = u32::MAX;
    for counter in counters.iter_mut() {
        if tick_in(*counter) == t {
            tally.add(masks, *counter);
            *counter = gone_on(kind, table, *counter);
        }
        least = least.min(*counter);
    }
    tick_in(least)
}

// What is written at tick t, by the labels that each task writes and reads; each counter of that tick goes on to its next
// point.
pub fn advance_writes(counters: &mut [u32], t: u32, table: &Table, masks: &LabelMasks) -> Written
    ensures due { result ≡ record {
      labels = labels_due t masks.now.written masks.now.read counters.old;
      next = next_due false table.now.period t counters.old;
    } }
    ensures gone { counters.new ≡ map (stepped false table.now.period t) counters.old }
{
    let mut written = Written { labels: 0, next: 0 };
    written.next = advance(Kind::Publishing, &mut written, counters, t, table, masks);
    written
}

// What is read at tick t, likewise.
pub fn advance_reads(counters: &mut [u32], t: u32, table: &Table, masks: &LabelMasks) -> Read
    requires { length counters.old ≤ 1024 }
    ensures due { result ≡ record {
      serves = masks_due t counters.old;
      labels = labels_due t masks.now.written masks.now.read counters.old;
      count = count_due t masks.now.written masks.now.read counters.old;
      next = next_due true table.now.period t counters.old;
    } }
    ensures few { result.count ≤ 65536 }
    ensures gone { counters.new ≡ map (stepped true table.now.period t) counters.old }
{
    let mut read = Read {
        serves: [0; 32],
        labels: 0,
        count: 0,
        next: 0,
    };
    read.next = advance(Kind::Reading, &mut read, counters, t, table, masks);
    read
}
