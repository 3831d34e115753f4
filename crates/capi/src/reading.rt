// What is said of an image alone.
ghost use Rattle.std.specs.Prelude.{◌≡◌};
ghost use Rattle.table.specs.Shown.{answer_of};
ghost use Rattle.c_answers.specs.Said.{read_said};

use c_answers::LiskobranAnswer;

// Is the image accepted, or with which number and at which place is it refused?
pub fn liskobran_read_slice(image: &[u8]) -> LiskobranAnswer
    ensures { result ≡ read_said (answer_of image.now) }
{
    images::read_table(image).answer.into()
}
