use dinode_core::{Fork, Mapping};

/// What the look at a group's cores puts down of their inodes' forks: a mapping of a fork that the inode
/// itself holds, or a block of the group whose inodes' forks are still to be read, since one of them
/// doesn't show the whole of its own (XFS Algorithms and Data Structures, "Data Fork").
#[derive(Clone, Copy, Debug, PartialEq, Eq)]
pub enum ForkNote {
    Mapping {
        ino: u64,
        fork: Fork,
        mapping: Mapping,
    },
    Block(u32),
}

/// What is kept of a group's inodes: the units that are its chunks, rising, and what their cores show of
/// the forks (XFS Algorithms and Data Structures, "Inode B+trees" and "Data Fork").
#[derive(Drop)]
pub struct GroupInodes {
    pub chunks: Vec<u32>,
    pub notes: Vec<ForkNote>,
}
