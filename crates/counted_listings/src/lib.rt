// The listing of a core by its counters: measured, and written where there is room for it (document 01, Numbers that say no:
// 11, "lent buffer shorter than the listing"), which is known before a byte is written.
#![tactic(auto)]

ghost use Rattle.std.specs.Prelude.{◌≡◌, ◌≤◌, ◌<◌, length, IfNone, IfSome};
ghost use Rattle.frames.specs.Ready.{Ready};
ghost use Rattle.counted_listings.specs.Listed.{Fills, ListsBy, most_counters};

use frames::counts::count_frames;
use frames::gather_both;
use framing::write_listing;
use label_masks::LabelMasks;
use table::Table;

// The listing, by the counters of the core at tick 0, where there is room for it: how many bytes it fills. The counters
// are gathered again for the second round of the walk.
pub fn listed(
    table: &Table,
    core: u32,
    round: u32,
    masks: &LabelMasks,
    joined: &[u32; 32],
    publishing: &mut [u32],
    reading: &mut [u32],
    buffer: &mut [u8],
) -> Option<usize>
    requires few { length reading.old ≤ 1024 }
    requires by { ListsBy table.now core round masks.now joined.now }
    requires ready { Ready table.now core 0 publishing.old reading.old }
    ensures { Fills table.now core buffer.old result buffer.new }
{
    let measured = count_frames(round, table, masks, publishing, reading);
    let bits = 43 + 32 * u64::from(measured.frames) + 12 * measured.copies;
    // A length is a `usize`, from which the language has no conversion to `u64` but `as`.
    if (buffer.len() as u64) < bits.div_ceil(8) {
        return None;
    }
    gather_both(core, table, joined, publishing, reading);
    Some(write_listing(
        buffer,
        core,
        round,
        measured.frames,
        table,
        masks,
        publishing,
        reading,
    ))
}

// The listing, by N places for the counters of each kind; `None` where the core has more of them than that.
pub fn listed_in<const N: usize>(
    table: &Table,
    core: u32,
    round: u32,
    masks: &LabelMasks,
    joined: &[u32; 32],
    buffer: &mut [u8],
) -> Option<Option<usize>>
    requires few_places { N ≤ 1024 }
    requires by { ListsBy table.now core round masks.now joined.now }
    ensures listed { IfSome result (λ listed. Fills table.now core buffer.old listed buffer.new) }
    ensures few { IfSome result (λ listed. most_counters table.now core joined.now ≤ N) }
    ensures unlisted { IfNone result ((N < 1024) × (buffer.new ≡ buffer.old)) }
    ensures many { IfNone result (N < most_counters table.now core joined.now) }
{
    let mut publishing = [u32::MAX; N];
    let mut reading = [u32::MAX; N];
    let both = gather_both(core, table, joined, &mut publishing, &mut reading);
    if both.publishing > N || both.reading > N {
        None
    } else {
        Some(listed(
            table,
            core,
            round,
            masks,
            joined,
            &mut publishing[..both.publishing],
            &mut reading[..both.reading],
            buffer,
        ))
    }
}
