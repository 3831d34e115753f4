// Counters are stored one after the other, for the pairs whose own task is on the core. How many they are goes beside the
// lent slice, since the count goes on past its end.
ghost use Rattle.std.specs.Prelude.{◌≡◌, ◌+◌, ◌<◌, ◌≤◌, eqb, get_or, set};
ghost use Rattle.gathering.specs.Kinds.{reads};
ghost use Rattle.gathering.specs.Pairs.{own_task, pair_counted, pairs_with};
ghost use Rattle.gathering.specs.Counters.{counter_of};
ghost use Rattle.gathering.specs.Stored.{Adds};

use crate::{Kind, counter_of};
use readers::readers;
use table::Table;

// The core is that of the task to which a point belongs.
fn on_core(kind: Kind, core: u32, table: &Table, w: u32, r: u32) -> bool
    requires writer { w < 32 }
    requires reader { r < 32 }
    ensures { result ≡ eqb (get_or table.now.core (own_task (reads kind) w r) 0) core }
{
    let own = match kind {
        Kind::Publishing => w,
        Kind::Reading => r,
    };
    table.core[own as usize] == core
}

// A counter at its place, where there is room for it. (By `get_mut` a proof would not know the entry afterwards.)
fn store(counters: &mut [u32], place: usize, counter: u32)
    ensures { counters.new ≡ set counters.old place counter }
{
    if place < counters.len() {
        counters[place] = counter;
    }
}

// The counter of a pair, where its own task is on the core. At tick 0 each pair has a point.
fn store_pair(
    kind: Kind,
    core: u32,
    table: &Table,
    w: u32,
    r: u32,
    counters: &mut [u32],
    count: usize,
) -> usize
    requires writer { w < 32 }
    requires reader { r < 32 }
    requires room { count < 1024 }
    ensures adds { Adds (counter_of 0) (pair_counted (reads kind) core table.now.core w r) count
        counters.old result counters.new }
    ensures few { result ≤ count + 1 }
{
    if on_core(kind, core, table, w, r) {
        store(counters, count, counter_of(0, w * 32 + r));
        count + 1
    } else {
        count
    }
}

// The counters of one writer with the tasks of a mask, by rising task.
pub(crate) fn store_pairs(
    kind: Kind,
    core: u32,
    table: &Table,
    w: u32,
    mask: u32,
    counters: &mut [u32],
    count: usize,
) -> usize
    requires writer { w < 32 }
    requires room { count ≤ 992 }
    ensures adds { Adds (counter_of 0) (pairs_with (reads kind) core table.now.core w mask) count
        counters.old result counters.new }
    ensures few { result ≤ count + 32 }
{
    let mut more = count;
    for r in readers(mask) {
        more = store_pair(kind, core, table, w, r, counters, more);
    }
    more
}
