// The three questions asked of a table image, and what answers them (document 01, What the generator covers: "Each
// question is asked of the table image itself"). What each answer says: specs/.
#![tactic(auto)]

ghost use Rattle.std.specs.Prelude.{◌≡◌, length};
ghost use Rattle.questions.specs.Answers.{said_of_ages, said_of_listing, said_of_points};
ghost use Rattle.questions.specs.Questions.{ages, bytes_listed, lent_after, listing, points};

mod cores;

pub use aged_chains::Ages;
use aged_chains::ages_of;
use cores::core_listed;
use image_arrays::read_arrays;
use image_chains::read_periods;
use images::read_table;
pub use pair_points::Points;
use pair_points::points_of;
use table::{Refused, Table};

// The points P(n) and Q(n) of a writer and a reader, asked of any bytes and any numbers. The image's own refusal is
// handed on.
pub fn points(image: &[u8], writer: u64, reader: u64, n: u64) -> Result<Points, Refused>
    ensures { said_of_points result ≡ points image.now writer reader n }
{
    let read = read_table(image);
    let Err(refused) = read.answer else {
        return points_of(&read.table, writer, reader, n);
    };
    Err(refused)
}

// The copy listing of a core, asked of any bytes, any number and any buffer: how many bytes of the lent buffer it fills. The
// image's own refusal is handed on; a refusal leaves the buffer as it was, and a listing the bytes after it.
pub fn listing(image: &[u8], core: u64, buffer: &mut [u8]) -> Result<usize, Refused>
    ensures said { said_of_listing result
        ≡ bytes_listed (listing image.now core (length buffer.old)) }
    ensures lent { buffer.new
        ≡ lent_after (listing image.now core (length buffer.old)) buffer.old }
{
    let mut table = Table::empty();
    let answer = read_arrays(image, &mut table);
    let Ok(round) = answer else {
        return Err(answer.unwrap_err());
    };
    core_listed(&table, core, round, buffer)
}

// The ages of a chain, asked of any bytes and any number. The image's own refusal is handed on.
pub fn ages(image: &[u8], chain: u64) -> Result<Ages, Refused>
    ensures { said_of_ages result ≡ ages image.now chain }
{
    let mut periods = [0; 32];
    let answer = read_periods(image, chain, &mut periods);
    let Ok(count) = answer else {
        return Err(answer.unwrap_err());
    };
    ages_of(&periods[..count])
}
