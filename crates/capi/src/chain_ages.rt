// The ages of a chain.
ghost use Rattle.std.specs.Prelude.{◌≡◌};
ghost use Rattle.questions.specs.Questions.{ages};
ghost use Rattle.c_answers.specs.Said.{ages_said};

use c_answers::LiskobranAges;

// How many basic paths a chain of the image's table has in a round, their longest length, their worst and best age, and
// the jitter.
pub fn liskobran_ages_slice(image: &[u8], chain: u64) -> LiskobranAges
    ensures { result ≡ ages_said (ages image.now chain) }
{
    questions::ages(image, chain).into()
}
