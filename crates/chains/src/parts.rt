// One chain that was read: how many tasks it has, and a row of their numbers, which holds 0 past them.
#[derive(Clone, Copy)]
pub struct Chain {
    pub length: u32,
    pub row: [u32; 8],
}
