// The readers of a label, from one to the next (document 01, Copies and frames: "within a label, rising task"), and
// what a readers field marks when it serves as a mask (proofs/).
#![tactic(auto)]

ghost use Rattle.std.specs.Prelude.{◌≡◌, ◌<◌, ◌≤◌, List, ℕ, MatchOption};
ghost use Rattle.std.specs.Iterator.{item_count};
ghost use Rattle.masks.specs.Rising.{GivesBelow};
ghost use Rattle.readers.specs.NextReader.{next_reader, readers_from, readers_in};

use std::marker::Model;

// The first task at or after `from` that a readers field marks, if there is one: by the count of leading zeros (document
// 02, C-12), when the bits of the tasks before `from` are cut off.
pub fn next_reader(readers: u32, from: u32) -> Option<u32>
    ensures { MatchOption result (next_reader readers from ≡ 32)
        (λ reader. (reader ≡ next_reader readers from) × (reader < 32)) }
{
    if from >= 32 {
        return None;
    }
    let left = readers & (u32::MAX >> from);
    if left == 0 {
        return None;
    }
    Some(left.leading_zeros())
}

// The tasks that a readers field marks, by rising number: as a proof sees it, the list of those that are left.
#[derive(Drop)]
pub struct RisingReaders {
    readers: u32,
    from: u32,
}

impl Model for RisingReaders {
    ghost Value = { List ℕ };

    ghost view = { λ walk. readers_from walk.readers walk.from };

    ghost invariant = { λ walk. walk.from ≤ 32 };
}

pub fn readers(field: u32) -> RisingReaders
    ensures { result ≡ readers_in field }
{
    RisingReaders {
        readers: field,
        from: 0,
    }
}

impl Iterator for RisingReaders {
    type Item = u32;

    // The first of those that are left; each is below 32, as a place in an array of tasks has to be.
    ghost next_gives = { GivesBelow 32 };

    ghost remaining = { item_count (λ left. left) };

    fn next(&mut self) -> Option<u32> {
        let reader = next_reader(self.readers, self.from)?;
        self.from = reader + 1;
        Some(reader)
    }
}
