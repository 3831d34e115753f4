// "Each task: core 3, period 20" (document 01, Table image).
ghost use Rattle.std.specs.Prelude.{◌≡◌, ◌+◌, ◌≤◌, IfOk};
ghost use Rattle.table.specs.Image.{task_bits, task_fields};
ghost use Rattle.fields.specs.TakenTo.{taken_as};
ghost use Rattle.image_parts.specs.Parts.{task_of};

use crate::Task;
use fields::ranged;
use reader::FieldReader;
use table::{Refusal, Refused};

// One task: its core and its period.
pub fn read_task(reader: &mut FieldReader<'_>, cores: u32) -> Result<Task, Refused>
    requires { reader.old.at ≤ 65535 }
    ensures taken { taken_as task_of (reader.old.at + task_bits) result
        ≡ task_fields cores reader.old.image.now reader.old.at }
    ensures on { IfOk result (λ task. reader.new.at ≡ reader.old.at + task_bits) }
    ensures image { reader.new.image ≡ reader.old.image }
{
    let core = ranged(reader, 3, 0..cores, Refusal::Core)?;
    let period = ranged(reader, 20, 1..1_000_001, Refusal::Period)?;
    Ok(Task { core, period })
}
