// All labels of an image, one after the other (document 01, Table image).
ghost use Rattle.std.specs.Prelude.{◌≡◌, ◌+◌, ◌*◌, ◌≤◌, [], ◌∷◌, IfOk};
ghost use Rattle.table.specs.Image.{label_bits};
ghost use Rattle.body.specs.Parts.{LabelsTaken, with_labels};

use image_parts::labels::read_label;
use reader::FieldReader;
use table::{Refused, Table};

// All labels of a table whose counts are known; the first entries of its arrays hold their writers and readers.
pub(crate) fn read_labels(reader: &mut FieldReader<'_>, table: &mut Table) -> Result<(), Refused>
    requires { (reader.old.at ≤ 1024) × (table.old.tasks ≤ 32) × (table.old.labels ≤ 64) }
    ensures taken { LabelsTaken reader.old.image.now reader.old.at table.old.tasks table.old.labels result
        (table.old.writer ∷ table.old.readers ∷ []) (table.new.writer ∷ table.new.readers ∷ []) }
    ensures rest { table.new ≡ with_labels table.old table.new.writer table.new.readers }
    ensures on { IfOk result (λ done. reader.new.at ≡ reader.old.at + label_bits * table.old.labels) }
    ensures image { reader.new.image ≡ reader.old.image }
{
    // A count is a `usize`, as lengths are: the cast is proved to lose nothing, where `try_from` would be one more way to fail.
    let tasks = table.tasks as u32; // once: in the loop it would be looked up anew, since the table is written
    for l in 0..table.labels {
        let label = read_label(reader, tasks)?;
        table.writer[l] = label.writer;
        table.readers[l] = label.readers;
    }
    Ok(())
}
