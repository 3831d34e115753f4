// The lines of the text that have no copies, each put into lent bytes where the text goes on.
#![tactic(auto)]

ghost use Rattle.std.specs.Prelude.{[], ◌∷◌, ◌++◌};
ghost use Rattle.outcomes.specs.Outcome.{refuses};
ghost use Rattle.printing.specs.Printed.{chain_text, text_of};
ghost use Rattle.printing.specs.Words.{hyperperiod_word, core_word, named, newline, space};
ghost use Rattle.texts.specs.Puts.{Puts};

use aged_chains::Ages;
use texts::Text;

// A word and a number, and the end of the line.
fn put_line(text: &mut Text<'_>, word: &[u8], number: u64)
    ensures { Puts text.old text.new (named word.now number ++ newline ∷ []) }
{
    text.put_named(word, number);
    text.put_byte(b'\n');
}

// The first line: the hyperperiod.
pub fn put_hyperperiod(text: &mut Text<'_>, ticks: u32)
    ensures { Puts text.old text.new (named hyperperiod_word ticks ++ newline ∷ []) }
{
    put_line(text, b"hyperperiod", u64::from(ticks));
}

// A core's own line, which stands before those of its frames.
pub fn put_core(text: &mut Text<'_>, core: u32)
    ensures { Puts text.old text.new (named core_word core ++ newline ∷ []) }
{
    put_line(text, b"core", u64::from(core));
}

// "one line, `refused`, a space, the number, a space, the place, and nothing else", of any number and place. (No `From`
// makes a `u64` of a `usize`.)
pub fn put_refusal(text: &mut Text<'_>, number: u32, place: usize)
    ensures { Puts text.old text.new (text_of (refuses number place)) }
{
    text.put_named(b"refused", u64::from(number));
    text.put_byte(b' ');
    text.put_number(place as u64);
    text.put_byte(b'\n');
}

// One of the numbers of a chain's line, with its word, after one space.
fn put_part(text: &mut Text<'_>, word: &[u8], number: u32)
    ensures { Puts text.old text.new (space ∷ named word.now number) }
{
    text.put_byte(b' ');
    text.put_named(word, u64::from(number));
}

// "A chain's line gives its number, the number of paths, the longest length, the worst and best age and the jitter."
pub fn put_chain(text: &mut Text<'_>, chain: u32, ages: Ages)
    ensures { Puts text.old text.new (chain_text chain (record {
      paths = ages.paths;
      longest = ages.longest;
      worst = ages.worst;
      best = ages.best;
      jitter = ages.jitter;
    })) }
{
    text.put_named(b"chain", u64::from(chain));
    put_part(text, b"paths", ages.paths);
    put_part(text, b"long", ages.longest);
    put_part(text, b"worst", ages.worst);
    put_part(text, b"best", ages.best);
    put_part(text, b"jitter", ages.jitter);
    text.put_byte(b'\n');
}
