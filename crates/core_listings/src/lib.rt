// The listing of a core of a table, written where there is room for it (document 01, Numbers that say no: 11, "lent buffer
// shorter than the listing"), which is known before a byte is written.
#![tactic(auto)]

ghost use Rattle.std.specs.Prelude.{◌<◌};
ghost use Rattle.frames.specs.Counts.{RightRound};
ghost use Rattle.counted_listings.specs.Listed.{Fills};

use counted_listings::listed_in;
use gathering::joined_masks;
use label_masks::{LabelMasks, fill_masks};
use table::Table;

// The listing of a core of a right table: how many bytes it fills, or `None` where there is no room. A core with few counters
// needs few places for them, and no core has more than 1024 of a kind.
pub fn list_core(table: &Table, core: u32, round: u32, buffer: &mut [u8]) -> Option<usize>
    requires { (core < table.now.cores) × RightRound table.now round }
    ensures { Fills table.now core buffer.old result buffer.new }
{
    let mut masks = LabelMasks::none();
    fill_masks(table, &mut masks);
    let joined = joined_masks(table);
    match listed_in::<32>(table, core, round, &masks, &joined, buffer) {
        Some(listed) => listed,
        None => listed_in::<1024>(table, core, round, &masks, &joined, buffer)?,
    }
}
