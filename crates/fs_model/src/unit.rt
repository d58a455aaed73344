/// Trees of a group that are checked and rebuilt together and get one verdict: the two inode
/// btrees, the reverse mapping btree, the two free space btrees, the reference count btree
/// (XFS Online Fsck Design, "Metadata Scrubbing").
#[derive(Clone, Copy, Debug, PartialEq, Eq)]
pub enum Unit {
    Inode,
    Rmap,
    Free,
    Refc,
}

/// What is known of a tree: nothing yet, that it was good when it was judged or rebuilt, or that
/// a fault of it was met.
#[derive(Clone, Copy, Debug, PartialEq, Eq)]
pub enum Trust {
    Unknown,
    Good,
    Sick,
}

/// The three heads of a group: of its free space, of its inodes, and of its free list
/// (XFS Algorithms and Data Structures, "Allocation Groups").
#[derive(Clone, Copy, Debug, PartialEq, Eq)]
pub enum Head {
    Agf,
    Agi,
    Agfl,
}
