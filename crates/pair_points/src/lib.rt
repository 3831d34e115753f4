// The points of a pair of tasks, asked of a table: first 12, then 13 (document 01, Numbers that say no), then P(n) and
// Q(n).
#![tactic(auto)]

ghost use Rattle.std.specs.Prelude.{◌≡◌, ◌&&◌, leb, ltb};
ghost use Rattle.table.specs.Table.{joins, timing_of};
ghost use Rattle.pair_points.specs.PairPoints.{said_of_points, points_of};

use table::{Refusal, Refused, Table};
use times::Timing;

// The points P(n) and Q(n) of a pair of tasks.
#[derive(Clone, Copy)]
pub struct Points {
    pub publishing: u64,
    pub reading: u64,
}

// Some label goes from task w to task r. Past the arrays no label has a reader. By the number of a label, as `joins` counts
// them.
fn joined(table: &Table, w: u64, r: u64) -> bool
    ensures { result ≡ joins table.now w r }
{
    for l in 0..table.labels.min(64) {
        if table::goes(table.writer[l], table.readers[l], w, r) {
            return true;
        }
    }
    false
}

// What fixes the releases of task i; past the array there is none, and its period is 0.
fn timing_of(table: &Table, i: u64) -> Timing
    ensures { result ≡ timing_of table.now i }
{
    Timing {
        period: table.period.get(i as usize).copied().unwrap_or(0),
    }
}

// The asked tasks are in the table, and n is at most 1,000,000.
fn askable(table: &Table, writer: u64, reader: u64, n: u64) -> bool
    ensures { result ≡ (ltb writer table.now.tasks && ltb reader table.now.tasks && leb n 1000000) }
{
    let tasks = table.tasks as u64;
    writer < tasks && reader < tasks && n <= 1_000_000
}

// The points P(n) and Q(n) of tasks `writer` and `reader` of a table: 12 comes before 13.
pub fn points_of(table: &Table, writer: u64, reader: u64, n: u64) -> Result<Points, Refused>
    ensures { said_of_points result ≡ points_of table.now writer reader n }
{
    if !askable(table, writer, reader, n) {
        return Err(Refused {
            refusal: Refusal::Asked,
            place: 0,
        });
    }
    if !joined(table, writer, reader) {
        return Err(Refused {
            refusal: Refusal::Unjoined,
            place: 0,
        });
    }
    let of_writer = timing_of(table, writer);
    let of_reader = timing_of(table, reader);
    let number = n as u32;
    Ok(Points {
        publishing: numbered_points::publishing(of_writer, of_reader, number),
        reading: numbered_points::reading(of_writer, of_reader, number),
    })
}
