// One counter: its tick, the writer and the reader of its pair and their labels, and how it goes on.
ghost use Rattle.std.specs.Prelude.{◌≡◌, ◌<◌};
ghost use Rattle.gathering.specs.Counters.{tick_in, writer_in, reader_in};
ghost use Rattle.gathering.specs.Kinds.{reads};
ghost use Rattle.counters.specs.Advanced.{common_labels, point_after, gone_on};

use gathering::{Kind, counter_of};
use label_masks::LabelMasks;
use next_points::{publishing_after, reading_after};
use table::Table;
use times::Timing;

// The tick of a counter.
pub(crate) fn tick_in(counter: u32) -> u32
    ensures { result ≡ tick_in counter }
{
    counter / 1024
}

// The writer of a counter's pair.
pub(crate) fn writer_in(counter: u32) -> usize
    ensures is { result ≡ writer_in counter }
    ensures task { result < 32 }
{
    (counter / 32 % 32) as usize
}

// The reader of a counter's pair.
pub(crate) fn reader_in(counter: u32) -> usize
    ensures is { result ≡ reader_in counter }
    ensures task { result < 32 }
{
    (counter % 32) as usize
}

// The labels that go from the writer of a counter's pair to its reader.
pub(crate) fn common_labels(masks: &LabelMasks, counter: u32) -> u64
    ensures { result ≡ common_labels masks.now.written masks.now.read counter }
{
    masks.written[writer_in(counter)] & masks.read[reader_in(counter)]
}

// The point of a pair after one of them.
fn point_after(kind: Kind, writer: Timing, reader: Timing, t: u32) -> u64
    ensures { result ≡ point_after (reads kind) writer reader t }
{
    match kind {
        Kind::Publishing => publishing_after(writer, reader, t),
        Kind::Reading => reading_after(writer, reader, t),
    }
}

// A counter that goes on to its pair's next point.
pub(crate) fn gone_on(kind: Kind, table: &Table, counter: u32) -> u32
    ensures { result ≡ gone_on (reads kind) table.now.period counter }
{
    let writer = Timing {
        period: table.period[writer_in(counter)],
    };
    let reader = Timing {
        period: table.period[reader_in(counter)],
    };
    counter_of(point_after(kind, writer, reader, tick_in(counter)), counter)
}
