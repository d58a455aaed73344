ghost use Rattle.std.specs.Prelude.{◌≡◌};
ghost use Rattle.sblock.specs.Kinds.{magic_of, record_width_of, key_width_of, leaf_most_of, leaf_least_of, node_most_of, node_least_of, has_high_keys_of};

/// The six kinds of short-form btree of an allocation group: free space by start and by count,
/// reverse mapping, reference counts, inode chunks, chunks with free inodes
/// (XFS Algorithms and Data Structures, "Allocation Groups").
#[derive(Clone, Copy, Debug, PartialEq, Eq)]
pub enum Kind {
    Bno,
    Cnt,
    Rmap,
    Refc,
    Ino,
    Fino,
}

impl Kind {
    /// The magic number of the kind's blocks in the version 5 format.
    pub fn magic(self) -> u32
        ensures { result ≡ magic_of self }
    {
        match self {
            Kind::Bno => 0x4142_3342,
            Kind::Cnt => 0x4142_3343,
            Kind::Rmap => 0x524d_4233,
            Kind::Refc => 0x5233_4643,
            Kind::Ino => 0x4941_4233,
            Kind::Fino => 0x4649_4233,
        }
    }

    /// The bytes of a record in a leaf.
    pub fn record_width(self) -> usize
        ensures { result ≡ record_width_of self }
    {
        match self {
            Kind::Bno | Kind::Cnt => 8,
            Kind::Rmap => 24,
            Kind::Refc => 12,
            Kind::Ino | Kind::Fino => 16,
        }
    }

    /// The bytes of a key in a node; where there are high keys, of the low and the high one
    /// together.
    pub fn key_width(self) -> usize
        ensures { result ≡ key_width_of self }
    {
        match self {
            Kind::Bno | Kind::Cnt => 8,
            Kind::Rmap => 40,
            Kind::Refc | Kind::Ino | Kind::Fino => 4,
        }
    }

    /// The greatest number of records in a leaf: 4,040 bytes divided by a record's.
    pub fn leaf_most(self) -> u16
        ensures { result ≡ leaf_most_of self }
    {
        match self {
            Kind::Bno | Kind::Cnt => 505,
            Kind::Rmap => 168,
            Kind::Refc => 336,
            Kind::Ino | Kind::Fino => 252,
        }
    }

    /// The least number of records in a leaf that isn't the root: half of the greatest.
    pub fn leaf_least(self) -> u16
        ensures { result ≡ leaf_least_of self }
    {
        match self {
            Kind::Bno | Kind::Cnt => 252,
            Kind::Rmap => 84,
            Kind::Refc => 168,
            Kind::Ino | Kind::Fino => 126,
        }
    }

    /// The greatest number of keys and pointers in a node: 4,040 bytes divided by those of a
    /// key and a pointer.
    pub fn node_most(self) -> u16
        ensures { result ≡ node_most_of self }
    {
        match self {
            Kind::Bno | Kind::Cnt => 336,
            Kind::Rmap => 91,
            Kind::Refc | Kind::Ino | Kind::Fino => 505,
        }
    }

    /// The least number of keys and pointers in a node that isn't the root: half of the
    /// greatest, rounded down.
    pub fn node_least(self) -> u16
        ensures { result ≡ node_least_of self }
    {
        match self {
            Kind::Bno | Kind::Cnt => 168,
            Kind::Rmap => 45,
            Kind::Refc | Kind::Ino | Kind::Fino => 252,
        }
    }

    /// Whether the nodes of the kind hold the greatest key of each subtree beside the least:
    /// the reverse mapping btree alone, whose records may overlap.
    pub fn has_high_keys(self) -> bool
        ensures { result ≡ has_high_keys_of self }
    {
        match self {
            Kind::Rmap => true,
            Kind::Bno | Kind::Cnt | Kind::Refc | Kind::Ino | Kind::Fino => false,
        }
    }
}
