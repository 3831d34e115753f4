// The points of a pair of tasks.
ghost use Rattle.std.specs.Prelude.{◌≡◌};
ghost use Rattle.questions.specs.Questions.{points};
ghost use Rattle.c_answers.specs.Said.{points_said};

use c_answers::LiskobranPoints;

// The publishing point P(n) and the reading point Q(n) of a writer and a reader, two tasks of the image's table.
pub fn liskobran_points_slice(image: &[u8], writer: u64, reader: u64, n: u64) -> LiskobranPoints
    ensures { result ≡ points_said (points image.now writer reader n) }
{
    questions::points(image, writer, reader, n).into()
}
