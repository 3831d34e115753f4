// Head, tasks and labels: the table but for its chains (document 01, Table image).
#![tactic(auto)]

ghost use Rattle.std.specs.Prelude.{◌≡◌, ◌+◌, ◌*◌, IfOk};
ghost use Rattle.table.specs.Image.{head_bits, task_bits, label_bits};
ghost use Rattle.body.specs.Parts.{BodyRead};

mod labels;
mod tasks;

use image_parts::heads::read_head;
use labels::read_labels;
use reader::FieldReader;
use table::{HEAD_BITS, Refused, Table};
use tasks::read_tasks;

// Head, tasks and labels: the table has the head's counts, the first entries of its arrays hold its tasks and labels, and
// the entries after those keep their values. It gives the reader that stands after the labels.
pub fn read_body<'a>(image: &'a [u8], table: &mut Table) -> Result<FieldReader<'a>, Refused>
    ensures read { BodyRead image.now result table.old table.new }
    ensures on { IfOk result (λ reader. (reader.at
        ≡ head_bits + task_bits * table.new.tasks + label_bits * table.new.labels) × (reader.image ≡ image.entry)) }
    ensures length { table.new.length ≡ table.old.length }
{
    let head = read_head(image)?;
    table.cores = head.cores;
    table.tasks = head.tasks;
    table.labels = head.labels;
    table.chains = head.chains;
    // The head is read by itself, and the reader goes on after it.
    let mut reader = FieldReader::new(image, HEAD_BITS);
    read_tasks(&mut reader, table)?;
    read_labels(&mut reader, table)?;
    Ok(reader)
}
