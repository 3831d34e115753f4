// The writes and the reads of labels, put into lent bytes (document 01, Copies and frames: "each copy as kind 1 (0 write, 1
// read), label 6, task 5").
ghost use Rattle.std.specs.Prelude.{◌≡◌, [], ◌∷◌, ◌<◌};
ghost use Rattle.bits.specs.Packing.{bits};
ghost use Rattle.instants.specs.Due.{reads_due, writes_in, reads_in};
ghost use Rattle.instants.specs.Kinds.{kind_of};
ghost use Rattle.instants.specs.Puts.{Puts, PutsCopies};

use masks::labels;
use packing::Pen;
use readers::readers;
use table::Table;

// What a copy is: "0 write, 1 read".
#[derive(Clone, Copy)]
pub(crate) enum CopyKind {
    Write,
    Read,
}

impl From<CopyKind> for u32 {
    ghost use Rattle.instants.specs.Kinds.{kind_of};

    ghost from_gives = { λ kind number. (number ≡ kind_of kind) × (number < 2) };

    fn from(kind: CopyKind) -> u32 {
        match kind {
            CopyKind::Write => 0,
            CopyKind::Read => 1,
        }
    }
}

// One copy: its three fields as one.
fn put_copy(bytes: &mut [u8], pen: Pen, kind: CopyKind, label: u32, task: u32) -> Pen
    requires { (label < 64) × (task < 32) }
    ensures { Puts bytes.old bytes.new pen result (bits 1 (kind_of kind) ∷ bits 6 label ∷ bits 5 task ∷ []) }
{
    pen.put(bytes, 12, u32::from(kind) * 2048 + label * 32 + task)
}

// The writes of the labels of a mask, by rising label.
pub(crate) fn write_writes(bytes: &mut [u8], pen: Pen, table: &Table, written: u64) -> Pen
    ensures { PutsCopies bytes.old bytes.new pen result (writes_in table.now.writer written) }
{
    let mut last = pen;
    for l in labels(written) {
        let writer = table.writer[l as usize] % 32;
        last = put_copy(bytes, last, CopyKind::Write, l, writer);
    }
    last
}

// The reads of one label, from reader to reader.
fn reads_of(bytes: &mut [u8], pen: Pen, label: u32, field: u32, serves: u32) -> Pen
    requires { label < 64 }
    ensures { PutsCopies bytes.old bytes.new pen result (reads_due field serves label) }
{
    let mut last = pen;
    for r in readers(field & serves) {
        last = put_copy(bytes, last, CopyKind::Read, label, r);
    }
    last
}

// The reads of the labels of a mask, by rising label.
pub(crate) fn write_reads(
    bytes: &mut [u8],
    pen: Pen,
    table: &Table,
    serves: &[u32; 32],
    read: u64,
) -> Pen
    ensures { PutsCopies bytes.old bytes.new pen result
        (reads_in table.now.writer table.now.readers serves.now read) }
{
    let mut last = pen;
    for label in labels(read) {
        let l = label as usize;
        let w = table.writer[l] as usize % 32;
        last = reads_of(bytes, last, label, table.readers[l], serves[w]);
    }
    last
}
