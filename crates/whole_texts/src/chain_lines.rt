// The lines of the chains of an accepted image, by rising number.
ghost use Rattle.std.specs.Prelude.{◌<◌, ◌≡◌};
ghost use Rattle.lists.specs.Lists.{each_below};
ghost use Rattle.outcomes.specs.Outcome.{gives};
ghost use Rattle.table.specs.Image.{Whole, read_image};
ghost use Rattle.ages.specs.Ages.{ages_of_chain};
ghost use Rattle.printing.specs.Printed.{chain_text};
ghost use Rattle.texts.specs.Puts.{Puts};

use line_texts::put_chain;
use texts::Text;

// The line of one chain.
fn put_asked(text: &mut Text<'_>, image: &[u8], chain: u32)
    ensures { (whole : Whole) → read_image image.now ≡ gives whole → chain < whole.table.chains
        → Puts text.old text.new (chain_text chain (ages_of_chain whole.table whole.rows chain)) }
{
    let Ok(ages) = questions::ages(image, u64::from(chain)) else {
        return;
    };
    put_chain(text, chain, ages);
}

// The lines of all chains. An image has no more than 16.
pub(crate) fn put_chains(text: &mut Text<'_>, image: &[u8], chains: usize)
    ensures { (whole : Whole) → read_image image.now ≡ gives whole → chains ≡ whole.table.chains
        → Puts text.old text.new
        (each_below chains (λ k. chain_text k (ages_of_chain whole.table whole.rows k))) }
{
    for chain in 0..chains.min(16) {
        put_asked(text, image, chain as u32);
    }
}
