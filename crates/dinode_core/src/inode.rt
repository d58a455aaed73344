use thiserror::Error;

/// `di_magic` of every inode: "IN" (XFS Algorithms and Data Structures, "On-disk Inode").
pub const MAGIC: u16 = 0x494e;

/// `di_version` of an inode with a checksum (XFS Algorithms and Data Structures, "On-disk Inode").
pub const VERSION: u8 = 3;

/// Why an inode's core is refused: the first of its ordered tests that fails, shown as the word of a
/// report (XFS Algorithms and Data Structures, "On-disk Inode").
#[derive(Clone, Copy, Debug, PartialEq, Eq, Error)]
pub enum CoreFault {
    /// `di_magic` isn't "IN".
    #[error("magic")]
    Magic,
    /// `di_version` isn't 3.
    #[error("version")]
    Version,
    /// `di_ino` isn't the number of the inode that is read.
    #[error("number")]
    Number,
    /// `di_crc` isn't the checksum of the inode's 512 bytes.
    #[error("checksum")]
    Checksum,
    /// `di_uuid` isn't the file system's.
    #[error("uuid")]
    Uuid,
}

/// A version 3 inode: each field of its core that may differ from inode to inode, under its name
/// without `di_`, and the area behind the core. The magic number, the version and the checksum are
/// no fields: the first two are the same in every core, and the checksum follows from the rest.
/// (XFS Algorithms and Data Structures, "On-disk Inode".)
#[derive(Clone, Copy, Debug, PartialEq, Eq)]
pub struct Core3 {
    /// The kind of file and its permissions; 0 exactly where the inode is free.
    pub mode: u16,
    /// How the data fork is kept: 0 device, 1 local, 2 extents, 3 btree.
    pub format: u8,
    /// The owner.
    pub uid: u32,
    /// How many directory entries name the inode.
    pub nlink: u32,
    /// With large counts the number of mappings in the data fork (`di_big_nextents`).
    pub big_nextents: u64,
    /// Blocks of both forks, those of their trees included.
    pub nblocks: u64,
    /// The number of mappings in the data fork; with large counts that in the attribute fork
    /// (`di_big_anextents`).
    pub nextents: u32,
    /// The number of mappings in the attribute fork; not with large counts.
    pub anextents: u16,
    /// Where the attribute fork begins in the area behind the core, in units of 8 bytes; 0 for none.
    pub forkoff: u8,
    /// How the attribute fork is kept: 1 local, 2 extents, 3 btree.
    pub aformat: u8,
    /// Flags.
    pub flags: u16,
    /// The next inode in a list of unlinked ones, counted in its group; all ones for none.
    pub next_unlinked: u32,
    /// How often the inode was changed.
    pub changecount: u64,
    /// The log's sequence number at the last write.
    pub lsn: u64,
    /// Further flags: bit 1 for files that share blocks, bit 4 for large counts.
    pub flags2: u64,
    /// The inode's own number.
    pub ino: u64,
    /// The file system's UUID.
    pub uuid: [u8; 16],
    /// The literal area: the 336 bytes behind the core, which have the data fork and the attribute
    /// fork.
    pub literal: [u8; 336],
}
