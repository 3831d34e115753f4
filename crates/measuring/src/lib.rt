// The frames and copies of a core of a table, counted over a round, for those who need no more than the length of a
// listing.
#![tactic(auto)]

ghost use Rattle.frames.specs.Counts.{RightRound, CountsFrames};

use frames::counts::count_frames;
use frames::{Measured, gather_both};
use gathering::joined_masks;
use label_masks::label_masks;
use table::Table;

// How many frames and copies the listing of a core of a table has; of any other table it says nothing, and ends.
pub fn measure(table: &Table, core: u32, round: u32) -> Measured
    ensures { RightRound table.now round → CountsFrames table.now core result }
{
    let masks = label_masks(table);
    let joined = joined_masks(table);
    let mut publishing = [u32::MAX; 1024];
    let mut reading = [u32::MAX; 1024];
    let both = gather_both(core, table, &joined, &mut publishing, &mut reading);
    count_frames(
        round,
        table,
        &masks,
        &mut publishing[..both.publishing],
        &mut reading[..both.reading],
    )
}
