// The whole text that is printed of an image, made in lent bytes (document 01, The printing program): of any bytes,
// accepted or refused.
#![tactic(auto)]

ghost use Rattle.std.specs.Prelude.{◌≡◌, length};
ghost use Rattle.outcomes.specs.Outcome.{gives};
ghost use Rattle.table.specs.Image.{Whole, read_image};
ghost use Rattle.printing.specs.Printed.{printable, printed, text_of};
ghost use Rattle.texts.specs.Puts.{Puts, PutsText};

mod chain_lines;

use chain_lines::put_chains;
use line_texts::put_refusal;
use table::{Refusal, Table};
use table_texts::lengths::some_too_long;
use table_texts::put_first_part;
use texts::Text;

// Room for every text: what is printed of an accepted image is no longer than 2,447,876 bytes (proofs/Lengths.antt). An
// array, since the program works in fixed memory.
pub fn room() -> [u8; 2621440]
    ensures { 2621440 ≡ length result }
{
    [0; 2621440]
}

// What is printed of an accepted image with this table: hyperperiod, cores and chains, or the line of refusal 11.
fn put_accepted(text: &mut Text<'_>, image: &[u8], table: &Table)
    ensures { (whole : Whole) → read_image image.now ≡ gives whole → table.now ≡ whole.table
        → Puts text.old text.new (text_of (printable whole)) }
{
    let Some(round) = table.hyperperiod() else {
        return;
    };
    if some_too_long(table, round) {
        put_refusal(text, Refusal::Room.into(), 0);
        return;
    }
    put_first_part(text, table, round);
    put_chains(text, image, table.chains);
}

// What is printed of any bytes: of an accepted image its text, or the line of its refusal.
fn put_image(text: &mut Text<'_>, image: &[u8])
    ensures { Puts text.old text.new (printed image.now) }
{
    let read = images::read_table(image);
    let Err(refused) = read.answer else {
        put_accepted(text, image, &read.table);
        return;
    };
    put_refusal(text, refused.refusal.into(), refused.place);
}

// The same, from the first lent byte on, as far as they go; how many bytes it is.
pub fn put_text(bytes: &mut [u8], image: &[u8]) -> usize
    ensures { PutsText bytes.old bytes.new 0 result (printed image.now) }
{
    let mut text = Text { bytes, at: 0 };
    put_image(&mut text, image);
    text.at
}
