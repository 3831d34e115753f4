// The text of a core, put into lent bytes where the text goes on (document 01, The printing program): its own line and the
// lines of its frames, gone through from point to point.
#![tactic(auto)]

ghost use Rattle.std.specs.Prelude.{ℕ, ◌≤◌, length};
ghost use Rattle.lists.specs.Lists.{each_of};
ghost use Rattle.copies.specs.Copies.{frames_of};
ghost use Rattle.copies.specs.Listing.{core_listing};
ghost use Rattle.frames.specs.Counts.{RightRound};
ghost use Rattle.frames.specs.Ready.{MasksOf, Ready};
ghost use Rattle.printing.specs.Printed.{core_text, frame_text};
ghost use Rattle.texts.specs.Puts.{Puts};

use frame_texts::put_frame;
use frames::gather_both;
use frames::walk::Frames;
use gathering::joined_masks;
use label_masks::{LabelMasks, label_masks};
use line_texts::put_core;
use table::Table;
use texts::Text;

// The lines of the frames of a round, one after the other, by counters that are ready.
fn put_frames(
    text: &mut Text<'_>,
    round: u32,
    table: &Table,
    masks: &LabelMasks,
    publishing: &mut [u32],
    reading: &mut [u32],
)
    requires { length reading.old ≤ 1024 }
    ensures { (core : ℕ) → RightRound table.now round → MasksOf table.now masks.now
        → Ready table.now core 0 publishing.old reading.old
        → Puts text.old text.new (each_of (frames_of table.now core) frame_text) }
{
    for (start, due) in Frames::new(round, table, masks, publishing, reading) {
        put_frame(text, start, table, &due);
    }
}

// The text of a core of a table. Of any other table the bytes may hold anything, and it ends. The counters fill the first
// places of two arrays, since the program works in fixed memory.
pub fn put_core_text(text: &mut Text<'_>, table: &Table, core: u32, round: u32)
    ensures { RightRound table.now round
        → Puts text.old text.new (core_text (core_listing table.now core)) }
{
    let masks = label_masks(table);
    let joined = joined_masks(table);
    let mut publishing = [u32::MAX; 1024];
    let mut reading = [u32::MAX; 1024];
    let both = gather_both(core, table, &joined, &mut publishing, &mut reading);
    put_core(text, core);
    put_frames(
        text,
        round,
        table,
        &masks,
        &mut publishing[..both.publishing],
        &mut reading[..both.reading],
    );
}
