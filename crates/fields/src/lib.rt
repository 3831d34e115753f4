// A field taken and checked: "each is read whole and then checked" (document 01, Numbers that say no).
#![tactic(auto)]

ghost use Rattle.std.specs.Prelude.{◌≡◌, ◌+◌, min, IfOk};
ghost use Rattle.bits.specs.Found.{found_at};
ghost use Rattle.taking.specs.Reading.{field};
ghost use Rattle.table.specs.Refusals.{number_of, said_of};
ghost use Rattle.reader.specs.Places.{place_after};
ghost use Rattle.fields.specs.TakenTo.{in_range, taken_to};

use reader::FieldReader;
use std::ops::Range;
use table::{Refusal, Refused};

// The next field, of `width` bits, "read whole"; the reader then stands after it. A width above 32 is taken for 32, here
// and below.
pub fn whole(reader: &mut FieldReader<'_>, width: usize) -> Result<u32, Refused>
    ensures found { said_of result ≡ found_at reader.old.image.now reader.old.at (min width 32) }
    ensures on { IfOk result (λ value. reader.new.at ≡ place_after reader.old.at (min width 32)) }
    ensures image { reader.new.image ≡ reader.old.image }
{
    let place = reader.place();
    reader.take(width).ok_or(Refused {
        refusal: Refusal::Ends,
        place,
    })
}

// The next field, "and then checked": its value has to lie in the range.
pub fn ranged(
    reader: &mut FieldReader<'_>,
    width: usize,
    range: Range<u32>,
    refusal: Refusal,
) -> Result<u32, Refused>
    ensures taken { taken_to (reader.old.at + min width 32) result
        ≡ field (min width 32) (number_of refusal) (in_range range.start range.end) reader.old.image.now
        reader.old.at }
    ensures on { IfOk result (λ value. reader.new.at ≡ place_after reader.old.at (min width 32)) }
    ensures image { reader.new.image ≡ reader.old.image }
{
    let place = reader.place();
    let value = whole(reader, width)?;
    if range.contains(&value) {
        Ok(value)
    } else {
        Err(Refused { refusal, place })
    }
}
