// Whether a tick is a point of a pair of tasks (document 01: Points; Copies and frames). With a period of 0 the answers are
// what the definitions give; a table has none (document 01: refusal 5).
#![tactic(auto)]

ghost use Rattle.std.specs.Prelude.{◌≡◌};
ghost use Rattle.times.specs.PointTests.{publishing_test, reading_test};

use releases::{first_from, is_release, last_to};
use times::Timing;

// Tick t is a publishing point of the pair.
pub fn publishes_at(writer: Timing, reader: Timing, t: u32) -> bool
    ensures { result ≡ publishing_test writer reader t }
{
    let tick = u64::from(t);
    is_release(writer, tick)
        && (reader.period <= writer.period
            || first_from(reader, tick) < tick + u64::from(writer.period))
}

// Tick t is a reading point of the pair.
pub fn serves_at(writer: Timing, reader: Timing, t: u32) -> bool
    ensures { result ≡ reading_test writer reader t }
{
    let tick = u64::from(t);
    is_release(reader, tick)
        && (writer.period <= reader.period
            || tick < last_to(writer, tick) + u64::from(reader.period))
}
