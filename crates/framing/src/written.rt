// Head and frames, put one after the other.
ghost use Rattle.std.specs.Prelude.{ℕ, ◌<◌, ◌≤◌, ◌^◌, [], ◌∷◌, ◌++◌, length};
ghost use Rattle.lists.specs.Lists.{each_of};
ghost use Rattle.bits.specs.Packing.{bits};
ghost use Rattle.copies.specs.Copies.{frames_of};
ghost use Rattle.copies.specs.Listing.{copy_fields, frame_fields};
ghost use Rattle.instants.specs.Due.{writes_in, reads_in};
ghost use Rattle.instants.specs.Puts.{Puts};
ghost use Rattle.frames.specs.Counts.{RightRound};
ghost use Rattle.frames.specs.Ready.{MasksOf, Ready};

use frames::instant::Instant;
use frames::walk::Frames;
use instants::write_copies;
use label_masks::LabelMasks;
use packing::Pen;
use table::Table;

// "core 3, H 20, frame count 20"
pub(crate) fn write_head(bytes: &mut [u8], core: u32, round: u32, frames: u32) -> Pen
    ensures { core < 2 ^ 3 → round < 2 ^ 20 → frames < 2 ^ 20
        → Puts bytes.old bytes.new (record { at = 0; filled = 0; word = 0 }) result
        (bits 3 core ∷ bits 20 round ∷ bits 20 frames ∷ []) }
{
    let first = Pen::new().put(bytes, 3, core);
    let second = first.put(bytes, 20, round);
    second.put(bytes, 20, frames)
}

// "start 20, copy count 12, and each copy"
fn write_frame(bytes: &mut [u8], pen: Pen, start: u32, due: &Instant, table: &Table) -> Pen
    ensures { start < 2 ^ 20 → due.now.copies < 2 ^ 12
        → Puts bytes.old bytes.new pen result
        (bits 20 start ∷ bits 12 due.now.copies ∷ each_of (writes_in table.now.writer due.now.written
        ++ reads_in table.now.writer table.now.readers due.now.serves due.now.read) copy_fields) }
{
    let first = pen.put(bytes, 20, start);
    let second = first.put(bytes, 12, due.copies);
    write_copies(bytes, second, table, &due.serves, due.written, due.read)
}

// Frame after frame.
pub(crate) fn write_frames(
    bytes: &mut [u8],
    pen: Pen,
    round: u32,
    table: &Table,
    masks: &LabelMasks,
    publishing: &mut [u32],
    reading: &mut [u32],
) -> Pen
    requires { length reading.old ≤ 1024 }
    ensures { (core : ℕ) → RightRound table.now round → MasksOf table.now masks.now
        → Ready table.now core 0 publishing.old reading.old
        → Puts bytes.old bytes.new pen result (each_of (frames_of table.now core) frame_fields) }
{
    let mut ink = pen;
    for (start, due) in Frames::new(round, table, masks, publishing, reading) {
        ink = write_frame(bytes, ink, start, &due, table);
    }
    ink
}
