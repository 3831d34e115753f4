// "Zero bits fill the last byte; nothing follows" (document 01, Table image).
ghost use Rattle.std.specs.Prelude.{◌≡◌, ◌≤◌};
ghost use Rattle.outcomes.specs.Outcome.{gives, asked_of};
ghost use Rattle.table.specs.Refusals.{said_of};
ghost use Rattle.table.specs.Image.{fill};

use fields::ranged;
use reader::FieldReader;
use table::{Refusal, Refused};

// The fill after the last field, which ends where the reader stands.
pub(crate) fn read_fill(reader: &mut FieldReader<'_>) -> Result<(), Refused>
    requires { reader.old.at ≤ 65535 }
    ensures { said_of result ≡ asked_of (fill reader.old.image.now reader.old.at) (λ filled. gives tt) }
{
    let start = reader.place();
    for _ in start..start.next_multiple_of(8) {
        ranged(reader, 1, 0..1, Refusal::Fill)?;
    }
    let place = reader.place();
    if place / 8 < reader.image.len() {
        return Err(Refused {
            refusal: Refusal::Fill,
            place,
        });
    }
    Ok(())
}
