// What is said of the ages of a chain: number of paths, longest length, worst age, best age, jitter, or they are refused.
ghost use Rattle.std.specs.Prelude.{◌≡◌};
ghost use Rattle.aged_chains.specs.Aged.{said_of_ages};
ghost use Rattle.c_answers.specs.Said.{ages_said};

use crate::LiskobranAges;
use aged_chains::Ages;
use table::Refused;

impl From<Result<Ages, Refused>> for LiskobranAges {
    ghost from_gives = { λ answer said. said ≡ ages_said (said_of_ages answer) };

    fn from(answer: Result<Ages, Refused>) -> LiskobranAges {
        match answer {
            Ok(ages) => LiskobranAges {
                number: 0,
                place: 0,
                paths: ages.paths,
                longest: ages.longest,
                worst: ages.worst,
                best: ages.best,
                jitter: ages.jitter,
            },
            Err(Refused { refusal, place }) => LiskobranAges {
                number: refusal.into(),
                place: place as u64,
                paths: 0,
                longest: 0,
                worst: 0,
                best: 0,
                jitter: 0,
            },
        }
    }
}
