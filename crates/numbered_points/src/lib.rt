// The points of a pair of tasks by their number n. Document 01, Points: with M the larger of the two periods, P(n) =
// floor(n·M / Tw) · Tw and Q(n) = ceil(n·M / Tr) · Tr: the writer's last release at or before n·M, and the reader's first
// one at or after it.
#![tactic(auto)]

ghost use Rattle.std.specs.Prelude.{◌≡◌, ◌*◌, ◌-◌, ◌^◌, ◌≤◌};
ghost use Rattle.times.specs.Points.{larger, publishing, reading};

use releases::{first_from, last_to};
use times::Timing;

// n·M, with M the larger of the two periods.
fn times_larger(writer: Timing, reader: Timing, n: u32) -> u64
    ensures is { result ≡ n * larger writer reader }
    ensures few { result ≤ (2 ^ 32 - 1) * (2 ^ 32 - 1) }
{
    u64::from(n) * u64::from(writer.period.max(reader.period))
}

// The publishing point P(n). A writer of period 0 has no other than 0.
pub fn publishing(writer: Timing, reader: Timing, n: u32) -> u64
    ensures { result ≡ publishing writer reader n }
{
    last_to(writer, times_larger(writer, reader, n))
}

// The reading point Q(n). A reader of period 0 has no other than 0.
pub fn reading(writer: Timing, reader: Timing, n: u32) -> u64
    ensures { result ≡ reading writer reader n }
{
    first_from(reader, times_larger(writer, reader, n))
}
