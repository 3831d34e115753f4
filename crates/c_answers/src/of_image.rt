// What is said of an image alone: it is accepted, or refused.
ghost use Rattle.std.specs.Prelude.{◌≡◌};
ghost use Rattle.table.specs.Refusals.{said_of_image};
ghost use Rattle.c_answers.specs.Said.{read_said};

use crate::LiskobranAnswer;
use table::Refused;

impl From<Result<(), Refused>> for LiskobranAnswer {
    ghost from_gives = { λ answer said. said ≡ read_said (said_of_image answer) };

    fn from(answer: Result<(), Refused>) -> LiskobranAnswer {
        match answer {
            Ok(()) => LiskobranAnswer {
                number: 0,
                place: 0,
            },
            Err(Refused { refusal, place }) => LiskobranAnswer {
                number: refusal.into(),
                place: place as u64,
            },
        }
    }
}
