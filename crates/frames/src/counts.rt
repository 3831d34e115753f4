// The frames of a round, counted.
ghost use Rattle.std.specs.Prelude.{ℕ, ◌≤◌, length};
ghost use Rattle.frames.specs.Counts.{RightRound, CountsFrames};
ghost use Rattle.frames.specs.Ready.{MasksOf, Ready};

use crate::Measured;
use crate::walk::Frames;
use label_masks::LabelMasks;
use table::Table;

// Frame after frame: how many frames and copies there are.
pub fn count_frames(
    round: u32,
    table: &Table,
    masks: &LabelMasks,
    publishing: &mut [u32],
    reading: &mut [u32],
) -> Measured
    requires { length reading.old ≤ 1024 }
    ensures { (core : ℕ) → RightRound table.now round → MasksOf table.now masks.now
        → Ready table.now core 0 publishing.old reading.old → CountsFrames table.now core result }
{
    let mut frames: u32 = 0;
    let mut copies: u64 = 0;
    for (_, due) in Frames::new(round, table, masks, publishing, reading) {
        frames += 1;
        copies += u64::from(due.copies);
    }
    Measured { frames, copies }
}
