// What is said of the points of a pair of tasks: P(n) and Q(n), or they are refused.
ghost use Rattle.std.specs.Prelude.{◌≡◌};
ghost use Rattle.pair_points.specs.PairPoints.{said_of_points};
ghost use Rattle.c_answers.specs.Said.{points_said};

use crate::LiskobranPoints;
use pair_points::Points;
use table::Refused;

impl From<Result<Points, Refused>> for LiskobranPoints {
    ghost from_gives = { λ answer said. said ≡ points_said (said_of_points answer) };

    fn from(answer: Result<Points, Refused>) -> LiskobranPoints {
        match answer {
            Ok(points) => LiskobranPoints {
                number: 0,
                place: 0,
                publishing: points.publishing,
                reading: points.reading,
            },
            Err(Refused { refusal, place }) => LiskobranPoints {
                number: refusal.into(),
                place: place as u64,
                publishing: 0,
                reading: 0,
            },
        }
    }
}
