// The reader of an image: any string of bytes in, a table or one numbered refusal out (document 01: Table image, Numbers
// that say no).
#![tactic(auto)]

ghost use Rattle.std.specs.Prelude.{◌≡◌};
ghost use Rattle.table.specs.Shown.{shown_of};
ghost use Rattle.images.specs.TableShown.{TableShown};

use table::{Refused, Table};

pub mod wholes;

use wholes::read_into;

// What reading an image shows: its answer and, beside it, its table; of a refused image, the table with nothing in it.
// Document 01, Language form for each place: "the table stands beside that answer in a struct, not in a case".
#[derive(Clone, Copy)]
pub struct TableRead {
    pub answer: Result<(), Refused>,
    pub table: Table,
}

// Any string of bytes: its table with the answer beside it. Of a refused image the table holds nothing.
pub fn read_table(image: &[u8]) -> TableRead
    ensures { TableShown image.now result }
{
    let mut table = Table::empty();
    let mut rows = [[0; 8]; 16];
    match read_into(image, &mut table, &mut rows) {
        Ok(_) => TableRead {
            answer: Ok(()),
            table,
        },
        Err(refused) => TableRead {
            answer: Err(refused),
            table: Table::empty(),
        },
    }
}

// The task numbers of an image's chains: sixteen rows of eight, by value. Of a refused image they are all 0.
pub fn read_rows(image: &[u8]) -> [[u32; 8]; 16]
    ensures { result ≡ (shown_of image.now).rows }
{
    let mut beside = Table::empty();
    let mut taken = [[0; 8]; 16];
    let Ok(_) = read_into(image, &mut beside, &mut taken) else {
        return [[0; 8]; 16];
    };
    taken
}
