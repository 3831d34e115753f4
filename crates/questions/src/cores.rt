// The listing of a core, asked of a table: first 12, then 11 (document 01, Numbers that say no), both known before a byte
// is written.
ghost use Rattle.frames.specs.Counts.{RightRound};
ghost use Rattle.questions.specs.Parts.{Answered};

use core_listings::list_core;
use table::{Refusal, Refused, Table};

// The listing of core `core` of a right table: 12 comes before 11.
pub(crate) fn core_listed(
    table: &Table,
    core: u64,
    round: u32,
    buffer: &mut [u8],
) -> Result<usize, Refused>
    requires { RightRound table.now round }
    ensures { Answered table.now core buffer.old result buffer.new }
{
    if table.cores as u64 <= core {
        return Err(Refused {
            refusal: Refusal::Asked,
            place: 0,
        });
    }
    list_core(table, core as u32, round, buffer).ok_or(Refused {
        refusal: Refusal::Room,
        place: 0,
    })
}
