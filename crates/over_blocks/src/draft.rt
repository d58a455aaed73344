use byte_fields::Block;

/// A tree as an edit made it, in memory alone: its root and levels, the blocks that were made, by their
/// numbers in the group (of two with one number the later one counts), how many of the free list's first
/// blocks it takes, and the blocks that it frees
/// (XFS Algorithms and Data Structures, "Short Format B+trees").
#[derive(Drop)]
pub struct Draft {
    pub root: u32,
    pub levels: u32,
    pub placed: Vec<(u32, Block)>,
    pub taken: u32,
    pub freed: Vec<u32>,
}
