// The tasks and labels of an image, read into a table where they are to be used, and its hyperperiod.
#![tactic(auto)]

ghost use Rattle.image_arrays.specs.ArraysShown.{ArraysShown, NoArrays};

use images::wholes::read_into;
use table::{Refused, Table};

// Any string of bytes: its hyperperiod, and its table in a lent one, whose arrays of tasks and labels hold nothing at first.
// Of a refused image the table shows no core, no task, no label and no chain; its arrays may hold anything.
pub fn read_arrays(image: &[u8], table: &mut Table) -> Result<u32, Refused>
    requires { NoArrays table.old }
    ensures { ArraysShown image.now result table.new }
{
    let mut rows = [[0; 8]; 16];
    table.length = [0; 16];
    let answer = read_into(image, table, &mut rows);
    if answer.is_err() {
        table.cores = 0;
        table.tasks = 0;
        table.labels = 0;
        table.chains = 0;
    }
    answer
}
