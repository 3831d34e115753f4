// The line of a frame, put into lent bytes where the text goes on (document 01, The printing program: "A frame's line is
// its start and then each copy after one space"), from masks of the labels that are written and read at an instant
// (crates/instants, specs/Due.antt).
#![tactic(auto)]

ghost use Rattle.std.specs.Prelude.{◌++◌};
ghost use Rattle.instants.specs.Due.{writes_in, reads_in};
ghost use Rattle.printing.specs.Printed.{frame_text};
ghost use Rattle.texts.specs.Puts.{Puts};

mod parts;

use frames::instant::Instant;
use parts::{put_reads, put_writes};
use table::Table;
use texts::Text;

// The line of the frame at tick t, at which this is due. It is made by a `Text` of its own in the same bytes, whose place
// stays in a register from byte to byte.
pub fn put_frame(text: &mut Text<'_>, t: u32, table: &Table, due: &Instant)
    ensures { Puts text.old text.new (frame_text (record {
      start = t;
      copies = writes_in table.now.writer due.now.written
          ++ reads_in table.now.writer table.now.readers due.now.serves due.now.read;
    })) }
{
    let mut line = Text {
        bytes: &mut *text.bytes,
        at: text.at,
    };
    put_line(&mut line, t, table, due);
    text.at = line.at;
}

// Its start, each copy, and the end of the line.
fn put_line(line: &mut Text<'_>, t: u32, table: &Table, due: &Instant)
    ensures { Puts line.old line.new (frame_text (record {
      start = t;
      copies = writes_in table.now.writer due.now.written
          ++ reads_in table.now.writer table.now.readers due.now.serves due.now.read;
    })) }
{
    line.put_number(u64::from(t));
    put_writes(line, due.written);
    put_reads(line, table, due);
    line.put_byte(b'\n');
}
