// The hyperperiod H of an image, which the first line of the text tells (document 01, The printing program). What the
// answer says: specs/.
#![tactic(auto)]

ghost use Rattle.std.specs.Prelude.{◌≡◌};
ghost use Rattle.first_line.specs.FirstLine.{said_of_hyperperiod, hyperperiod};
ghost use Rattle.times.specs.Rounds.{within_limit};
ghost use Rattle.table.specs.Table.{hyperperiod_of};

use images::read_table;
use table::{Refusal, Refused, Table};

// The hyperperiod of a table's tasks, or 10.
fn round_of(table: &Table) -> Result<u32, Refused>
    ensures { said_of_hyperperiod result ≡ within_limit (hyperperiod_of table.now) }
{
    table.hyperperiod().ok_or(Refused {
        refusal: Refusal::Hyperperiod,
        place: 0,
    })
}

// The hyperperiod H in ticks, asked of any bytes. The image's own refusal is handed on (document 01, Language form for each
// place: "each question takes the image's answer apart by let .. else and hands the refusal on").
pub fn hyperperiod(image: &[u8]) -> Result<u32, Refused>
    ensures { said_of_hyperperiod result ≡ hyperperiod image.now }
{
    let read = read_table(image);
    let Err(refused) = read.answer else {
        return round_of(&read.table);
    };
    Err(refused)
}
