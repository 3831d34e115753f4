// "Each label: writer 5, readers 32" (document 01, Table image).
ghost use Rattle.std.specs.Prelude.{◌≡◌, ◌+◌, ◌≤◌, ◌<◌, IfOk};
ghost use Rattle.table.specs.Image.{label_bits, label_fields, right_readers};
ghost use Rattle.taking.specs.Reading.{field};
ghost use Rattle.fields.specs.TakenTo.{taken_as, taken_to};
ghost use Rattle.image_parts.specs.Parts.{label_of};

use crate::Label;
use fields::{ranged, whole};
use reader::FieldReader;
use table::{Refusal, Refused};

// A readers field marks only tasks of the table, and not the writer. The bits past the last task's are what is left of
// the field, shifted by as many places as there are tasks, within 32 bits.
fn right_readers(tasks: u32, writer: u32, readers: u32) -> bool
    requires { (tasks ≤ 32) × (writer < tasks) }
    ensures { result ≡ right_readers tasks writer readers }
{
    let past = ((readers as u64) << tasks) % 4294967296;
    if past != 0 {
        return false;
    }
    let own = (readers >> (31 - writer)) % 2;
    own == 0
}

// The readers of a label of this writer, "read whole and then checked". A function of its own: where `read_label` checks
// them, the compiled code puts each label together in memory and waits for it.
fn read_readers(reader: &mut FieldReader<'_>, tasks: u32, writer: u32) -> Result<u32, Refused>
    requires { (reader.old.at ≤ 65540) × (tasks ≤ 32) × (writer < tasks) }
    ensures taken { taken_to (reader.old.at + 32) result
        ≡ field 32 7 (right_readers tasks writer) reader.old.image.now reader.old.at }
    ensures on { IfOk result (λ readers. reader.new.at ≡ reader.old.at + 32) }
    ensures image { reader.new.image ≡ reader.old.image }
{
    let place = reader.place(); // where the readers start
    let readers = whole(reader, 32)?;
    if right_readers(tasks, writer, readers) {
        Ok(readers)
    } else {
        Err(Refused {
            refusal: Refusal::Reader,
            place,
        })
    }
}

// One label: its writer and its readers.
pub fn read_label(reader: &mut FieldReader<'_>, tasks: u32) -> Result<Label, Refused>
    requires { (reader.old.at ≤ 65535) × (tasks ≤ 32) }
    ensures taken { taken_as label_of (reader.old.at + label_bits) result
        ≡ label_fields tasks reader.old.image.now reader.old.at }
    ensures on { IfOk result (λ label. reader.new.at ≡ reader.old.at + label_bits) }
    ensures image { reader.new.image ≡ reader.old.image }
{
    let writer = ranged(reader, 5, 0..tasks, Refusal::Writer)?;
    let readers = read_readers(reader, tasks, writer)?;
    Ok(Label { writer, readers })
}
