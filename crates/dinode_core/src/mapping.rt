use thiserror::Error;

/// A run of blocks that follow one another, on the disk and in a fork. The numbers that fit a packed
/// mapping are offsets below 2^54, blocks below 2^52 and counts below 2^21.
/// (XFS Algorithms and Data Structures, "Extent List".)
#[derive(Clone, Copy, Debug, PartialEq, Eq)]
pub struct Mapping {
    /// The first block's number in the fork.
    pub offset: u64,
    /// The first block's file system block number.
    pub block: u64,
    /// How many blocks there are.
    pub count: u32,
    /// Whether the blocks were never written, so that they read as zeros.
    pub unwritten: bool,
}

/// The two forks of an inode: where a file's data lies, and where its extended attributes do.
/// (XFS Algorithms and Data Structures, "Data Fork" and "Attribute Fork".)
#[derive(Clone, Copy, Debug, PartialEq, Eq)]
pub enum Fork {
    Data,
    Attr,
}

/// Why a fork is refused. Among several faults the one is shown that is met first: the form of the
/// fork, then its blocks and mappings from left to right, a block before what lies below it. A mapping
/// is judged against the one that follows it, by Order, Overlap and Range in this order.
/// (XFS Algorithms and Data Structures, "Data Extents".)
#[derive(Clone, Copy, Debug, PartialEq, Eq, Error)]
pub enum ForkFault {
    /// The fork's format isn't one that such a fork has, the attribute fork begins behind the inode's
    /// end, or a btree's root has level 0 or one above 9.
    #[error("format")]
    Format,
    /// There are more mappings than the fork has room for, or more keys in a btree's root; or a btree
    /// has another number of mappings than the core says.
    #[error("count")]
    Count,
    /// The next mapping doesn't begin at a higher offset.
    #[error("order")]
    Order,
    /// The mapping reaches past the offset where the next one begins.
    #[error("overlap")]
    Overlap,
    /// The mapping has no block, leaves its group, ends above the highest offset, or is unwritten in
    /// an attribute fork.
    #[error("range")]
    Range,
    /// A block of the fork's btree isn't what its pointer says.
    #[error("block")]
    Block,
}

/// Why no mappings are answered: the fork's fault, or want of memory.
#[derive(Clone, Copy, Debug, PartialEq, Eq, Error)]
pub enum ForkError {
    /// The fork has this fault.
    #[error("{0}")]
    Fault(ForkFault),
    /// There was no memory for the list.
    #[error("memory")]
    Memory,
}
