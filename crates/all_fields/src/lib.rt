// All fields of an image: head, tasks, labels, chains and the fill (document 01, Table image).
#![tactic(auto)]

ghost use Rattle.all_fields.specs.FieldsRead.{HoldNothing, FieldsRead};

use body::read_body;
use chains::read_chains;
use table::{Refused, Table};

mod endings;

use endings::read_fill;

// All fields and the fill: the table and the rows, whose entries are 0 at first, hold the image's.
pub fn read_fields(
    image: &[u8],
    table: &mut Table,
    rows: &mut [[u32; 8]; 16],
) -> Result<(), Refused>
    requires { HoldNothing table.old rows.old }
    ensures { FieldsRead image.now result table.new rows.new }
{
    let mut reader = read_body(image, table)?;
    read_chains(&mut reader, table, rows)?;
    read_fill(&mut reader)
}
