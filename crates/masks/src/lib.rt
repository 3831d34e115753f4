// Masks of labels and of tasks (document 01, Table image: "Of the readers field the most significant bit stands for task
// 0"), by their width: definitions and laws (specs/, proofs/); and the labels of a mask, from the first to the next.
#![tactic(auto)]

ghost use Rattle.std.specs.Prelude.{◌≡◌, ◌-◌, ◌<◌, List, ℕ, MatchOption};
ghost use Rattle.std.specs.Int.Count.{count_leading_zeros};
ghost use Rattle.std.specs.Iterator.{item_count};
ghost use Rattle.masks.specs.Masks.{alone, labels_in};
ghost use Rattle.masks.specs.Rising.{GivesBelow};

use std::marker::Model;

// The first label of a mask, if it holds one.
pub fn first_label(labels: u64) -> Option<u32>
    ensures { MatchOption result (labels ≡ 0)
        (λ first. (first ≡ count_leading_zeros 64 labels) × (first < 64) × (0 < labels)) }
{
    if labels == 0 {
        return None;
    }
    Some(labels.leading_zeros())
}

// The mask without its first label.
pub fn without(labels: u64, first: u32) -> u64
    requires { (0 < labels) × (first ≡ count_leading_zeros 64 labels) }
    ensures { (result ≡ labels - alone 64 first) × (result < labels) }
{
    labels - (9223372036854775808 >> first)
}

// The labels of a mask, by rising number: as a proof sees it, the list of those that are left.
#[derive(Drop)]
pub struct RisingLabels {
    left: u64,
}

impl Model for RisingLabels {
    ghost Value = { List ℕ };

    ghost view = { λ labels. labels_in labels.left };
}

pub fn labels(mask: u64) -> RisingLabels
    ensures { result ≡ labels_in mask }
{
    RisingLabels { left: mask }
}

impl Iterator for RisingLabels {
    type Item = u32;

    // The first of those that are left; each is below 64, as a place in an array of labels has to be.
    ghost next_gives = { GivesBelow 64 };

    ghost remaining = { item_count (λ left. left) };

    fn next(&mut self) -> Option<u32> {
        let label = first_label(self.left)?;
        self.left = without(self.left, label);
        Some(label)
    }
}
