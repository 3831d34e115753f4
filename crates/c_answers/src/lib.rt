// What the C interface says: of each question its answer, or its refusal, as a struct of numbers. The number is 0 where the
// question is answered, and else that of document 01, Numbers that say no; a refusal "carries no other value", so the rest
// of it is 0. Each answer of a question is one of these by `into`. What each says: specs/Said.antt.
#![tactic(auto)]

mod of_chain;
mod of_core;
mod of_image;
mod of_pair;

// Of an image: 0 and 0 where it is accepted, else the refusal's number and place.
#[repr(C)]
#[derive(Drop)]
pub struct LiskobranAnswer {
    pub number: u32,
    pub place: u64,
}

// The points of a pair: P(n) and Q(n).
#[repr(C)]
#[derive(Drop)]
pub struct LiskobranPoints {
    pub number: u32,
    pub place: u64,
    pub publishing: u64,
    pub reading: u64,
}

// The copy listing of a core: how many bytes of the lent buffer it fills.
#[repr(C)]
#[derive(Drop)]
pub struct LiskobranListing {
    pub number: u32,
    pub place: u64,
    pub bytes: u64,
}

// The ages of a chain: number of paths, longest length, worst age, best age, jitter.
#[repr(C)]
#[derive(Drop)]
pub struct LiskobranAges {
    pub number: u32,
    pub place: u64,
    pub paths: u32,
    pub longest: u32,
    pub worst: u32,
    pub best: u32,
    pub jitter: u32,
}
