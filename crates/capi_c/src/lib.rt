// The C interface: the functions of crates/capi, exported to C with the promises that they have there. No function requires
// anything. A slice has an address that is not null; include/liskobran.h declares the functions for C, and others over
// them that take an empty image by any address.
#![tactic(auto)]

ghost use Rattle.std.specs.Prelude.{◌≡◌, length};
ghost use Rattle.table.specs.Shown.{answer_of};
ghost use Rattle.questions.specs.Questions.{points, bytes_listed, lent_after, listing, ages};
ghost use Rattle.c_answers.specs.Said.{read_said, points_said, listing_said, ages_said};

use c_answers::{LiskobranAges, LiskobranAnswer, LiskobranListing, LiskobranPoints};

// Is the image accepted, or with which number and at which place is it refused?
#[unsafe(no_mangle)]
pub extern "C" fn liskobran_read_slice(image: &[u8]) -> LiskobranAnswer
    ensures { result ≡ read_said (answer_of image.now) }
{
    capi::reading::liskobran_read_slice(image)
}

// The publishing point P(n) and the reading point Q(n) of a writer and a reader, two tasks of the image's table.
#[unsafe(no_mangle)]
pub extern "C" fn liskobran_points_slice(
    image: &[u8],
    writer: u64,
    reader: u64,
    n: u64,
) -> LiskobranPoints
    ensures { result ≡ points_said (points image.now writer reader n) }
{
    capi::pairs::liskobran_points_slice(image, writer, reader, n)
}

// The copy listing of core `core` of the image's table, in the first bytes of the lent buffer.
#[unsafe(no_mangle)]
pub extern "C" fn liskobran_listing_slice(
    image: &[u8],
    core: u64,
    buffer: &mut [u8],
) -> LiskobranListing
    ensures said { result
        ≡ listing_said (bytes_listed (listing image.now core (length buffer.old))) }
    ensures lent { buffer.new
        ≡ lent_after (listing image.now core (length buffer.old)) buffer.old }
{
    capi::cores::liskobran_listing_slice(image, core, buffer)
}

// How many basic paths a chain of the image's table has in a round, their longest length, their worst and best age, and
// the jitter.
#[unsafe(no_mangle)]
pub extern "C" fn liskobran_ages_slice(image: &[u8], chain: u64) -> LiskobranAges
    ensures { result ≡ ages_said (ages image.now chain) }
{
    capi::chain_ages::liskobran_ages_slice(image, chain)
}
