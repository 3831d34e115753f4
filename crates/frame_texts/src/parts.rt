// The copies of a frame's line: "each copy after one space: W and the label, or R, the label, a colon and the reader".
ghost use Rattle.std.specs.Prelude.{ℕ, List};
ghost use Rattle.lists.specs.Lists.{each_of};
ghost use Rattle.copies.specs.Copies.{write, read};
ghost use Rattle.instants.specs.Due.{reads_due, writes_in, reads_in};
ghost use Rattle.printing.specs.Printed.{copy_text};
ghost use Rattle.texts.specs.Puts.{Puts};

use frames::instant::Instant;
use masks::labels;
use readers::readers;
use table::Table;
use texts::Text;

// One write, whoever the writer is.
fn put_write(text: &mut Text<'_>, label: u32)
    ensures { (writer : ℕ) → Puts text.old text.new (copy_text (write label writer)) }
{
    text.put_word(b" W");
    text.put_number(u64::from(label));
}

// One read.
fn put_read(text: &mut Text<'_>, label: u32, reader: u32)
    ensures { Puts text.old text.new (copy_text (read label reader)) }
{
    text.put_word(b" R");
    text.put_number(u64::from(label));
    text.put_byte(b':');
    text.put_number(u64::from(reader));
}

// The writes of the labels of a mask, by rising label, whoever the writers are.
pub(crate) fn put_writes(text: &mut Text<'_>, written: u64)
    ensures { (writer : List ℕ) → Puts text.old text.new (each_of (writes_in writer written) copy_text) }
{
    for label in labels(written) {
        put_write(text, label);
    }
}

// The reads of one label, from reader to reader: those of a field that are served.
fn put_label(text: &mut Text<'_>, label: u32, field: u32, serves: u32)
    ensures { Puts text.old text.new (each_of (reads_due field serves label) copy_text) }
{
    for reader in readers(field & serves) {
        put_read(text, label, reader);
    }
}

// The reads of the labels of a mask, by rising label.
pub(crate) fn put_reads(text: &mut Text<'_>, table: &Table, due: &Instant)
    ensures { Puts text.old text.new (each_of
        (reads_in table.now.writer table.now.readers due.now.serves due.now.read) copy_text) }
{
    for label in labels(due.read) {
        let l = label as usize;
        let writer = (table.writer[l] % 32) as usize;
        put_label(text, label, table.readers[l], due.serves[writer]);
    }
}
