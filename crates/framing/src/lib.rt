// The listing of a core, written into lent bytes (document 01, Copies and frames: "A listing: core 3, H 20, frame count
// 20; then each frame by rising time: start 20, copy count 12, and each copy").
#![tactic(auto)]

ghost use Rattle.std.specs.Prelude.{◌≤◌, length};
ghost use Rattle.frames.specs.Counts.{RightRound};
ghost use Rattle.frames.specs.Ready.{MasksOf, Ready};
ghost use Rattle.framing.specs.Written.{WritesListing};

mod written;

use label_masks::LabelMasks;
use table::Table;
use written::{write_frames, write_head};

// The listing of a core of a table that has so many frames there, by its counters at tick 0; of any other table the bytes
// may hold anything, and it ends. It answers how many bytes the listing fills.
pub fn write_listing(
    bytes: &mut [u8],
    core: u32,
    round: u32,
    frames: u32,
    table: &Table,
    masks: &LabelMasks,
    publishing: &mut [u32],
    reading: &mut [u32],
) -> usize
    requires { length reading.old ≤ 1024 }
    ensures { RightRound table.now round → MasksOf table.now masks.now
        → Ready table.now core 0 publishing.old reading.old
        → WritesListing table.now core frames bytes.old bytes.new result }
{
    let head = write_head(bytes, core, round, frames);
    let pen = write_frames(bytes, head, round, table, masks, publishing, reading);
    pen.finish(bytes)
}
