use thiserror::Error;

/// Why a head of an allocation group is refused: the first of its tests that fails, in the order
/// in which they are made. Shown as the word, or words, of a report
/// (XFS Algorithms and Data Structures, "AG Free Space Management" and "AG Inode Management").
#[derive(Clone, Copy, Debug, PartialEq, Eq, Error)]
pub enum HeadFault {
    /// The magic number isn't "XAGF", "XAGI" or "XAFL".
    #[error("magic")]
    Magic,
    /// The version of an AGF or AGI isn't 1.
    #[error("version")]
    Version,
    /// The head is of another group.
    #[error("seqno")]
    Seqno,
    /// The AGF or AGI states another number of blocks than the group has.
    #[error("length")]
    Length,
    /// The stored checksum isn't that of the sector.
    #[error("checksum")]
    Checksum,
    /// The UUID isn't the file system's.
    #[error("uuid")]
    Uuid,
    /// The free list is unsound at this place of its ring: a block number that is outside of the
    /// group, is its block 0, or stands in the list before. 119 where the AGF's `agf_flfirst`,
    /// `agf_fllast` and `agf_flcount` don't fit the ring or one another.
    #[error("freelist {0}")]
    FreeList(u32),
}
