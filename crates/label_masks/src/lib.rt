// The labels that each task writes and those that it reads, as masks: the most significant of 64 bits stands for label 0.
// The two masks of a writer and a reader have the labels in common that go from the one to the other.
#![tactic(auto)]

ghost use Rattle.std.specs.Prelude.{◌≡◌, ◌<◌, ◌≤◌, length, replicate};
ghost use Rattle.label_masks.specs.LabelMasks.{LabelAdded, ReadLabels, WrittenLabels};

use readers::readers;
use table::Table;

// Of each task the mask of the labels that it writes, and the mask of those that it reads.
#[derive(Clone, Copy)]
pub struct LabelMasks {
    pub written: [u64; 32],
    pub read: [u64; 32],
}

impl LabelMasks {
    // Masks that hold nothing.
    pub fn none() -> LabelMasks
        ensures { result ≡ record { written = replicate 32 0; read = replicate 32 0 } }
    {
        LabelMasks {
            written: [0; 32],
            read: [0; 32],
        }
    }
}

// The masks of a table's labels.
pub fn label_masks(table: &Table) -> LabelMasks
    ensures written { WrittenLabels table.now.labels table.now.writer result.written }
    ensures read { ReadLabels table.now.labels table.now.tasks table.now.readers result.read }
{
    let mut masks = LabelMasks::none();
    fill_masks(table, &mut masks);
    masks
}

// The same where they are to be used, in masks that hold nothing at first: a small listing feels each copy.
pub fn fill_masks(table: &Table, masks: &mut LabelMasks)
    requires { (masks.old.written ≡ replicate 32 0) × (masks.old.read ≡ replicate 32 0) }
    ensures written { WrittenLabels table.now.labels table.now.writer masks.new.written }
    ensures read { ReadLabels table.now.labels table.now.tasks table.now.readers masks.new.read }
{
    written_labels(table, &mut masks.written);
    read_labels(table, &mut masks.read);
}

// Of each task the labels that it writes, in masks that hold nothing at first.
fn written_labels(table: &Table, masks: &mut [u64; 32])
    requires { masks.old ≡ replicate 32 0 }
    ensures { WrittenLabels table.now.labels table.now.writer masks.new }
{
    for l in 0..table.labels.min(64) {
        let w = table.writer[l] as usize % 32;
        masks[w] |= 9223372036854775808 >> l;
    }
}

// Of each task the labels that it reads, likewise.
fn read_labels(table: &Table, masks: &mut [u64; 32])
    requires { masks.old ≡ replicate 32 0 }
    ensures { ReadLabels table.now.labels table.now.tasks table.now.readers masks.new }
{
    let tasks = table.tasks.min(32);
    for l in 0..table.labels.min(64) {
        read_by(l, tasks, table.readers[l], masks);
    }
}

// One label more in the masks of those of the first tasks that read it, from reader to reader.
fn read_by(label: usize, tasks: usize, field: u32, masks: &mut [u64; 32])
    requires { (label < 64) × (tasks ≤ 32) × (length masks.old ≡ 32) }
    ensures { LabelAdded label tasks field masks.old masks.new }
{
    for reader in readers(field) {
        let r = reader as usize;
        if r < tasks {
            masks[r] |= 9223372036854775808 >> label;
        }
    }
}
