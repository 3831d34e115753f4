// The next point of a pair of tasks (document 01: Points; Copies and frames). With a period of 0 the answers are what the
// definitions give; a table has none (document 01: refusal 5). Writer and reader come as two tasks, as the definitions take
// them: each call of crates/releases asks for one of them.
#![tactic(auto)]

ghost use Rattle.std.specs.Prelude.{◌≡◌};
ghost use Rattle.next_points.specs.Next.{next_publishing, next_reading, publishing_after, reading_after};

mod beside;

use beside::{publishing_from, reading_from};
use releases::first_from;
use times::Timing;

// The first publishing point of the pair at or after tick t.
pub fn next_publishing(writer: Timing, reader: Timing, t: u32) -> u64
    ensures { result ≡ next_publishing writer reader t }
{
    publishing_from(writer, reader, first_from(writer, u64::from(t)))
}

// The first publishing point of the pair after one of them, or after any release of the writer.
pub fn publishing_after(writer: Timing, reader: Timing, point: u32) -> u64
    ensures { result ≡ publishing_after writer reader point }
{
    publishing_from(writer, reader, u64::from(point) + u64::from(writer.period))
}

// The first reading point of the pair at or after tick t.
pub fn next_reading(writer: Timing, reader: Timing, t: u32) -> u64
    ensures { result ≡ next_reading writer reader t }
{
    reading_from(writer, reader, first_from(reader, u64::from(t)))
}

// The first reading point of the pair after one of them, or after any release of the reader.
pub fn reading_after(writer: Timing, reader: Timing, point: u32) -> u64
    ensures { result ≡ reading_after writer reader point }
{
    reading_from(writer, reader, u64::from(point) + u64::from(reader.period))
}
