// The frames of a core, one after the other: a walk from instant to instant that stops where there is a copy.
ghost use Rattle.std.specs.Prelude.{ℕ, ◌≡◌, ◌≤◌, ◌-◌, length};
ghost use Rattle.std.specs.Iterator.{at_most};
ghost use Rattle.frames.specs.Counts.{RightRound};
ghost use Rattle.frames.specs.Ready.{MasksOf, Ready};
ghost use Rattle.frames.specs.Walk.{GivesFrame, Starts};

use crate::instant::{Instant, instant_at};
use label_masks::LabelMasks;
use table::Table;

// A walk at tick t of a round, by the counters of a core.
#[derive(Drop)]
pub struct Frames<'a> {
    t: u32,
    round: u32,
    table: &'a Table,
    masks: &'a LabelMasks,
    publishing: &'a mut [u32],
    reading: &'a mut [u32],
}

impl<'a> Frames<'a> {
    // A walk at the start of a round, by counters at tick 0.
    pub fn new(
        round: u32,
        table: &'a Table,
        masks: &'a LabelMasks,
        publishing: &'a mut [u32],
        reading: &'a mut [u32],
    ) -> Frames<'a>
        ensures of_table { result.table.now ≡ table.now }
        ensures few { length result.reading.now ≡ length reading.old }
        ensures same_publishing { result.publishing.ghost_name ≡ publishing.entry.ghost_name }
        ensures same_reading { result.reading.ghost_name ≡ reading.entry.ghost_name }
        ensures starts { (core : ℕ) → RightRound table.now round → MasksOf table.now masks.now
            → Ready table.now core 0 publishing.old reading.old → Starts core result }
    {
        Frames {
            t: 0,
            round,
            table,
            masks,
            publishing,
            reading,
        }
    }
}

impl<'a> Iterator for Frames<'a> {
    type Item = (u32, Instant);

    ghost can_next = { λ s. length s.reading.now ≤ 1024 };

    ghost next_gives = { GivesFrame };

    ghost remaining = { λ s. at_most (s.round - s.t) };

    // Of a table that is not right an instant may not move on: there the walk ends. A call would copy the instant once
    // more for each frame, a fifth of the time that a listing takes.
    #[inline(always)]
    fn next(&mut self) -> Option<(u32, Instant)> {
        // No range goes over these ticks: which comes next the counters say.
        while self.t < self.round {
            let start = self.t;
            let due = instant_at(start, self.table, self.masks, self.publishing, self.reading);
            self.t = if due.next > start {
                due.next
            } else {
                self.round
            };
            if due.copies > 0 {
                return Some((start, due));
            }
        }
        None
    }
}
