// What is tallied of the counters that are due at an instant: of publishing counters their labels, of reading counters also
// the readers that are served and how many reads there are.
ghost use Rattle.std.specs.Prelude.{◌≡◌, ◌+◌, ◌*◌, ◌≤◌, ℕ};
ghost use Rattle.label_masks.specs.declared.LabelMasks.{LabelMasks};
ghost use Rattle.counters.specs.Tallies.{written_with, read_with};

use crate::one::{common_labels, reader_in, writer_in};
use crate::{Read, Written, how_many};
use label_masks::LabelMasks;

pub(crate) trait Tally {
    // The tally with one more counter that is due, by the labels that each task writes and reads.
    ghost with_one_more: { LabelMasks → Self → ℕ → Self };

    // It has room for so many more counters.
    ghost HasRoom: { Self → ℕ → Type 0 };

    // One more counter that is due.
    fn add(&mut self, masks: &LabelMasks, counter: u32)
        requires { (n : ℕ) × HasRoom self.old (n + 1) }
        ensures one_more { self.new ≡ with_one_more masks.now self.old counter }
        ensures room { (n : ℕ) → HasRoom self.old (n + 1) → HasRoom self.new n };
}

impl Tally for Written {
    ghost with_one_more = { written_with };

    ghost HasRoom = { λ written n. Unit {0} };

    fn add(&mut self, masks: &LabelMasks, counter: u32) {
        self.labels |= common_labels(masks, counter);
    }
}

impl Tally for Read {
    ghost with_one_more = { read_with };

    ghost HasRoom = { λ read n. read.count + 64 * n ≤ 65536 };

    fn add(&mut self, masks: &LabelMasks, counter: u32) {
        let common = common_labels(masks, counter);
        self.serves[writer_in(counter)] |= 2147483648 >> reader_in(counter);
        self.labels |= common;
        self.count += how_many(common);
    }
}
