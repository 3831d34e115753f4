// The frames of a core over a round, gone through from point to point (document 01, Copies and frames): counted first,
// so that a listing's length is known before a byte is written, and written second.
#![tactic(auto)]

ghost use Rattle.frames.specs.Ready.{StoredBoth};

pub mod counts;
pub mod instant;
pub mod walk;

use gathering::{Kind, gather};
use table::Table;

// How many frames a core has in a round, and how many copies in all of them.
#[derive(Clone, Copy)]
pub struct Measured {
    pub frames: u32,
    pub copies: u64,
}

// How many publishing counters and how many reading counters a core has.
#[derive(Clone, Copy)]
pub struct Both {
    pub publishing: usize,
    pub reading: usize,
}

// The counters of a core at tick 0, at the start of what is lent, as far as it goes: by the cores of the tasks, and of each
// task the readers of the labels that it writes. Here and above the two arrays are lent side by side: a struct of both would be
// lent anew for each walk, and each contract would have to say that it holds the same two.
pub fn gather_both(
    core: u32,
    table: &Table,
    joined: &[u32; 32],
    publishing: &mut [u32],
    reading: &mut [u32],
) -> Both
    ensures { StoredBoth table.now core joined.now
        publishing.old reading.old result publishing.new reading.new }
{
    let first = gather(Kind::Publishing, core, table, joined, publishing);
    let second = gather(Kind::Reading, core, table, joined, reading);
    Both {
        publishing: first,
        reading: second,
    }
}
