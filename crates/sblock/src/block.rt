use crate::kind::Kind;
use thiserror::Error;

/// Why a block of a short-form btree is refused: the first of its ordered tests that fails
/// (XFS Algorithms and Data Structures, "Short Format B+trees"). No test of one block answers
/// Key, which compares a node's key with the subtree below it; Later is of records in a form that
/// isn't supported yet.
#[derive(Clone, Copy, Debug, PartialEq, Eq, Error)]
pub enum BlockFault {
    #[error("magic")]
    Magic,
    #[error("level")]
    Level,
    #[error("count")]
    Count,
    #[error("sibling")]
    Sibling,
    #[error("place")]
    Place,
    #[error("owner")]
    Owner,
    #[error("uuid")]
    Uuid,
    #[error("checksum")]
    Checksum,
    #[error("order")]
    Order,
    #[error("key")]
    Key,
    #[error("range")]
    Range,
    #[error("later")]
    Later,
}

/// The numbers that a record's range is judged by: the blocks of this group (`length`) and of
/// the last group (`last`), and those by which an inode number has a place.
#[derive(Clone, Copy, Debug, PartialEq, Eq)]
pub struct Bounds {
    pub length: u32,
    pub agblocks: u32,
    pub agcount: u32,
    pub last: u32,
    pub agblklog: u8,
}

/// What a block is to be. `level` is 0 for a leaf, `root` allows fewer records than a block has
/// beside others, `left` is the group-relative block before it on its level (all ones for none),
/// `place` its blkno field (in 512-byte units from the start of the device), `group` its owner
/// field (XFS Algorithms and Data Structures, "Short Format B+trees").
#[derive(Clone, Copy, Debug, PartialEq, Eq)]
pub struct Want {
    pub kind: Kind,
    pub level: u8,
    pub root: bool,
    pub left: u32,
    pub place: u64,
    pub group: u32,
    pub bounds: Bounds,
    pub uuid: [u8; 16],
}

/// The fields of a block's header that its reader goes on with; `left` and `right` are
/// group-relative block numbers, all ones for none
/// (XFS Algorithms and Data Structures, "Short Format B+trees").
#[derive(Clone, Copy, Debug, PartialEq, Eq)]
pub struct Header {
    pub level: u8,
    pub numrecs: u16,
    pub left: u32,
    pub right: u32,
    pub lsn: u64,
}

/// What the header of a new block is made of: its group, the device block of that group's block 0
/// (`first`), the file system's UUID and the log sequence number
/// (XFS Algorithms and Data Structures, "Short Format B+trees").
#[derive(Clone, Copy, Debug, PartialEq, Eq)]
pub struct Frame {
    pub group: u32,
    pub first: u64,
    pub uuid: [u8; 16],
    pub lsn: u64,
}
