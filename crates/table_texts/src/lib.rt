// The text of a table's cores, put into lent bytes where the text goes on (document 01, The printing program: "All cores
// come first"), and whether the listings of all of them are short enough to be printed.
#![tactic(auto)]

ghost use Rattle.std.specs.Prelude.{◌∷◌, ◌++◌};
ghost use Rattle.lists.specs.Lists.{each_below};
ghost use Rattle.table.specs.Table.{hyperperiod_of};
ghost use Rattle.copies.specs.Listing.{core_listing};
ghost use Rattle.frames.specs.Counts.{RightRound};
ghost use Rattle.printing.specs.Printed.{core_text};
ghost use Rattle.printing.specs.Words.{hyperperiod_word, named, newline};
ghost use Rattle.texts.specs.Puts.{Puts};

pub mod lengths;

use core_texts::put_core_text;
use line_texts::put_hyperperiod;
use table::Table;
use texts::Text;

// The texts of all cores, one after the other. A table has no more than 8.
fn put_cores(text: &mut Text<'_>, table: &Table, round: u32)
    ensures { RightRound table.now round → Puts text.old text.new
        (each_below table.now.cores (λ core. core_text (core_listing table.now core))) }
{
    for core in 0..table.cores.min(8) {
        put_core_text(text, table, core as u32, round);
    }
}

// The hyperperiod's line and then the texts of all cores of a table. Of any other table the bytes may hold anything, and it
// ends.
pub fn put_first_part(text: &mut Text<'_>, table: &Table, round: u32)
    ensures { RightRound table.now round → Puts text.old text.new
        (named hyperperiod_word (hyperperiod_of table.now)
        ++ newline ∷ each_below table.now.cores (λ core. core_text (core_listing table.now core))) }
{
    put_hyperperiod(text, round);
    put_cores(text, table, round);
}
