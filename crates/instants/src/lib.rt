// The copies of one instant (document 01, Copies and frames), from masks of the labels that are written and of those that
// are read, and of the readers that are served from each writer. What they are: specs/.
#![tactic(auto)]

ghost use Rattle.std.specs.Prelude.{◌++◌};
ghost use Rattle.instants.specs.Due.{writes_in, reads_in};
ghost use Rattle.instants.specs.Puts.{PutsCopies};

mod puts;

use packing::Pen;
use puts::{write_reads, write_writes};
use table::Table;

// The copies of an instant, put into lent bytes: the writes, then the reads.
pub fn write_copies(
    bytes: &mut [u8],
    pen: Pen,
    table: &Table,
    serves: &[u32; 32],
    written: u64,
    read: u64,
) -> Pen
    ensures { PutsCopies bytes.old bytes.new pen result
        (writes_in table.now.writer written
        ++ reads_in table.now.writer table.now.readers serves.now read) }
{
    let after = write_writes(bytes, pen, table, written);
    write_reads(bytes, after, table, serves, read)
}
