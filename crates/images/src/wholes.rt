// The whole image: all fields and the fill, and then the hyperperiod (document 01, Table image).
ghost use Rattle.all_fields.specs.FieldsRead.{HoldNothing};
ghost use Rattle.images.specs.Parts.{WholeRead};

use all_fields::read_fields;
use table::{Refusal, Refused, Table};

// Any string of bytes, read where its table is to be used: the table and the rows, whose entries are 0 at first, hold the
// image's, and the answer is its hyperperiod. "Then 9, then 10" (Numbers that say no). Of a refused image they may hold
// anything.
#[tactic(auto, using(crate::proofs::WholeImage::refused_whole))]
pub fn read_into(image: &[u8], table: &mut Table, rows: &mut [[u32; 8]; 16]) -> Result<u32, Refused>
    requires { HoldNothing table.old rows.old }
    ensures { WholeRead image.now result table.new rows.new }
{
    read_fields(image, table, rows)?;
    table.hyperperiod().ok_or(Refused {
        refusal: Refusal::Hyperperiod,
        place: 0,
    })
}
