// The copy listing of a core.
ghost use Rattle.std.specs.Prelude.{◌≡◌, length};
ghost use Rattle.questions.specs.Questions.{bytes_listed, lent_after, listing};
ghost use Rattle.c_answers.specs.Said.{listing_said};

use c_answers::LiskobranListing;

// The copy listing of core `core` of the image's table, in the first bytes of the lent buffer.
pub fn liskobran_listing_slice(image: &[u8], core: u64, buffer: &mut [u8]) -> LiskobranListing
    ensures said { result
        ≡ listing_said (bytes_listed (listing image.now core (length buffer.old))) }
    ensures lent { buffer.new
        ≡ lent_after (listing image.now core (length buffer.old)) buffer.old }
{
    questions::listing(image, core, buffer).into()
}
