// All tasks of an image, one after the other (document 01, Table image).
ghost use Rattle.std.specs.Prelude.{◌≡◌, ◌+◌, ◌*◌, ◌≤◌, [], ◌∷◌, IfOk};
ghost use Rattle.table.specs.Image.{task_bits};
ghost use Rattle.body.specs.Parts.{TasksTaken, with_tasks};

use image_parts::tasks::read_task;
use reader::FieldReader;
use table::{Refused, Table};

// All tasks of a table whose counts are known; the first entries of its arrays hold their cores and periods.
pub(crate) fn read_tasks(reader: &mut FieldReader<'_>, table: &mut Table) -> Result<(), Refused>
    requires { (reader.old.at ≤ 26) × (table.old.cores ≤ 8) × (table.old.tasks ≤ 32) }
    ensures taken { TasksTaken reader.old.image.now reader.old.at table.old.cores table.old.tasks result
        (table.old.core ∷ table.old.period ∷ []) (table.new.core ∷ table.new.period ∷ []) }
    ensures rest { table.new ≡ with_tasks table.old table.new.core table.new.period }
    ensures on { IfOk result (λ done. reader.new.at ≡ reader.old.at + task_bits * table.old.tasks) }
    ensures image { reader.new.image ≡ reader.old.image }
{
    // A count is a `usize`, as lengths are: the cast is proved to lose nothing, where `try_from` would be one more way to fail.
    for i in 0..table.tasks {
        let task = read_task(reader, table.cores as u32)?;
        table.core[i] = task.core;
        table.period[i] = task.period;
    }
    Ok(())
}
