// One part of an image: its head, one task or one label (document 01, Table image: "Part"), read from where a reader
// stands. What each stands for: specs/Parts.antt.
#![tactic(auto)]

pub mod heads;
pub mod labels;
pub mod tasks;

// The counts of the head.
#[derive(Clone, Copy)]
pub struct Head {
    pub cores: usize,
    pub tasks: usize,
    pub labels: usize,
    pub chains: usize,
}

// One task.
#[derive(Clone, Copy)]
pub struct Task {
    pub core: u32,
    pub period: u32,
}

// One label.
#[derive(Clone, Copy)]
pub struct Label {
    pub writer: u32,
    pub readers: u32,
}
