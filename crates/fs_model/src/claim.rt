use dinode_core::{CoreFault, ForkFault};
use sblock::Kind;

/// Why a block of a group is in use: the structure that says so, with the inode where there is
/// one. Two claims on one block contradict each other unless both are written file data.
#[derive(Clone, Copy, Debug, PartialEq, Eq)]
pub enum Claim {
    Heads,
    Log,
    List,
    Tree(Kind),
    Reserve,
    Limbo,
    Chunk,
    Data(u64),
    Attr(u64),
    ForkTree(u64),
    Staging,
}

/// What makes a derivation impossible: a fork or a core that can't be read, two trees that can't
/// be read while one is derived from the other, two claims on one block, or a form that isn't
/// built. Blocks are group-relative (XFS Online Fsck Design, "Cross-Referencing Space Metadata").
#[derive(Clone, Copy, Debug, PartialEq, Eq)]
pub enum Evidence {
    BadFork {
        ino: u64,
        fault: ForkFault,
    },
    BadChunk {
        block: u32,
        fault: CoreFault,
    },
    BadTree {
        kind: Kind,
        block: u32,
    },
    Overlap {
        block: u32,
        first: Claim,
        second: Claim,
    },
    Later {
        kind: Kind,
        block: u32,
    },
}
