// What is due on a core at an instant, by its counters.
ghost use Rattle.std.specs.Prelude.{◌≡◌, map, true, false, min, ◌+◌, ◌≤◌, ◌<◌, ◌^◌, length};
ghost use Rattle.std.specs.Int.Count.{ones};
ghost use Rattle.counters.specs.Advanced.{stepped, masks_due, labels_due, count_due, next_due};

use counters::{advance_reads, advance_writes, how_many};
use label_masks::LabelMasks;
use table::Table;

// An instant: of each writer the readers that are served, the labels that are written and those that are read, how many
// copies there are, and the next instant at which a counter is due.
#[derive(Drop)]
pub struct Instant {
    pub serves: [u32; 32],
    pub written: u64,
    pub read: u64,
    pub copies: u32,
    pub next: u32,
}

// What is due at tick t, by the labels that each task writes and reads; each counter of that tick goes on.
pub fn instant_at(
    t: u32,
    table: &Table,
    masks: &LabelMasks,
    publishing: &mut [u32],
    reading: &mut [u32],
) -> Instant
    requires { length reading.old ≤ 1024 }
    ensures due { result ≡ record {
      serves = masks_due t reading.old;
      written = labels_due t masks.now.written masks.now.read publishing.old;
      read = labels_due t masks.now.written masks.now.read reading.old;
      copies = ones (labels_due t masks.now.written masks.now.read publishing.old)
          + count_due t masks.now.written masks.now.read reading.old;
      next = min (next_due false table.now.period t publishing.old)
          (next_due true table.now.period t reading.old);
    } }
    ensures gone { (publishing.new ≡ map (stepped false table.now.period t) publishing.old)
        × (reading.new ≡ map (stepped true table.now.period t) reading.old) }
    ensures few { (result.copies ≤ 65600) × (result.written < 2 ^ 64) }
{
    let writes = advance_writes(publishing, t, table, masks);
    let reads = advance_reads(reading, t, table, masks);
    let serves = reads.serves;
    Instant {
        serves,
        written: writes.labels,
        read: reads.labels,
        copies: how_many(writes.labels) + reads.count,
        next: writes.next.min(reads.next),
    }
}
