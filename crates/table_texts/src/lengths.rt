// How long the listings are: "`refused 11 0` where any core's listing needs more than 65,536 bytes".
ghost use Rattle.std.specs.Prelude.{◌≡◌, ltb, length};
ghost use Rattle.lists.specs.Lists.{some_below};
ghost use Rattle.copies.specs.Listing.{listing_of};
ghost use Rattle.frames.specs.Counts.{RightRound};

use measuring::measure;
use table::Table;

// The listing of a core of a table needs more than 65,536 bytes, which are 524,288 bits.
fn too_long(table: &Table, core: u32, round: u32) -> bool
    ensures { RightRound table.now round
        → result ≡ ltb 65536 (length (listing_of table.now core)) }
{
    let measured = measure(table, core, round);
    measured.copies > 524_288
        || 43 + 32 * u64::from(measured.frames) + 12 * measured.copies > 524_288
}

// The listing of some core of a table does. The loop is no `any`: at a closure that says what it answers only of some
// tables the proof does not close.
pub fn some_too_long(table: &Table, round: u32) -> bool
    ensures { RightRound table.now round
        → result ≡ some_below table.now.cores (λ core. ltb 65536 (length (listing_of table.now core))) }
{
    for core in 0..table.cores.min(8) {
        if too_long(table, core as u32, round) {
            return true;
        }
    }
    false
}
