// What is said of the copy listing of a core: how many bytes it fills, or it is refused.
ghost use Rattle.std.specs.Prelude.{◌≡◌};
ghost use Rattle.table.specs.Refusals.{said_of};
ghost use Rattle.c_answers.specs.Said.{listing_said};

use crate::LiskobranListing;
use table::Refused;

impl From<Result<usize, Refused>> for LiskobranListing {
    ghost from_gives = { λ answer said. said ≡ listing_said (said_of answer) };

    fn from(answer: Result<usize, Refused>) -> LiskobranListing {
        match answer {
            Ok(bytes) => LiskobranListing {
                number: 0,
                place: 0,
                bytes: bytes as u64,
            },
            Err(Refused { refusal, place }) => LiskobranListing {
                number: refusal.into(),
                place: place as u64,
                bytes: 0,
            },
        }
    }
}
