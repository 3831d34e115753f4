// The first point of a pair from a release on. A slower task's points are all its releases; a faster task's are those
// beside the releases of the slower one: the last at or before it for a writer, the first at or after it for a reader.
// Two formulas, and so two functions: one for both kinds would be a test around the two.
ghost use Rattle.std.specs.Prelude.{◌≡◌, ◌<◌, ◌^◌};
ghost use Rattle.next_points.specs.Next.{publishing_from, reading_from};

use releases::{after_previous, first_from, last_to};
use times::Timing;

// The first publishing point from a release of the writer on.
pub(crate) fn publishing_from(writer: Timing, reader: Timing, release: u64) -> u64
    requires { release < 2 ^ 34 }
    ensures { result ≡ publishing_from writer reader release }
{
    if reader.period <= writer.period {
        release
    } else {
        last_to(writer, first_from(reader, release))
    }
}

// The first reading point from a release of the reader on.
pub(crate) fn reading_from(writer: Timing, reader: Timing, release: u64) -> u64
    requires { release < 2 ^ 34 }
    ensures { result ≡ reading_from writer reader release }
{
    if writer.period <= reader.period {
        release
    } else {
        first_from(reader, first_from(writer, after_previous(reader, release)))
    }
}
