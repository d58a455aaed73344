use crate::event::Refused;
use crate::fault::{Cause, Fault};
use crate::unit::Unit;
use crate::verdict::Verdict;
use sblock::Kind;

/// A piece of one mapping of a file: `count` blocks from `offset` of its data fork on, at
/// group-relative block `block` of a group, and the writer and chain that changed it.
#[derive(Clone, Copy, Debug, PartialEq, Eq)]
pub struct Piece {
    pub writer: u32,
    pub chain: u32,
    pub ino: u64,
    pub offset: u64,
    pub group: u32,
    pub block: u32,
    pub count: u32,
}

/// A piece of a mapping that a second file, or a second place of the same file, maps too.
/// Offsets count blocks from the start of the data forks, `block` is group-relative.
#[derive(Clone, Copy, Debug, PartialEq, Eq)]
pub struct SharedPiece {
    pub writer: u32,
    pub chain: u32,
    pub from: u64,
    pub from_offset: u64,
    pub to: u64,
    pub to_offset: u64,
    pub group: u32,
    pub block: u32,
    pub count: u32,
}

/// A run of blocks of a group; `block` is group-relative.
#[derive(Clone, Copy, Debug, PartialEq, Eq)]
pub struct Extent {
    pub group: u32,
    pub block: u32,
    pub count: u32,
}

/// One entry of the journal, which is what was found and done, in order. Blocks are
/// group-relative. `more` tells that reference counts rose, `kept` that a run wasn't freed, since
/// an owner of it was found or can't be asked for; `spare` that a block came from free space and
/// not from the free list; `chunk` is the first block of an inode chunk that was made.
#[derive(Clone, Copy, Debug, PartialEq, Eq)]
pub enum Entry {
    Mapped(Piece),
    Unmapped(Piece),
    Converted(Piece),
    Shared(SharedPiece),
    RmapDone {
        chain: u32,
        ino: u64,
        group: u32,
        block: u32,
        count: u32,
    },
    RefDone {
        chain: u32,
        group: u32,
        block: u32,
        count: u32,
        more: bool,
    },
    Freed {
        chain: u32,
        group: u32,
        block: u32,
        count: u32,
        kept: bool,
    },
    Taken {
        writer: u32,
        ino: u64,
        uid: u32,
        chunk: Option<u32>,
    },
    Given {
        writer: u32,
        ino: u64,
    },
    Refilled(Extent),
    Trimmed(Extent),
    Marked {
        group: u32,
        kind: Kind,
        cause: Cause,
    },
    Reserved {
        group: u32,
        unit: Unit,
        block: u32,
        spare: bool,
    },
    Released {
        group: u32,
        unit: Unit,
    },
    Fault {
        group: u32,
        unit: Unit,
        fault: Fault,
    },
    Verdict {
        group: u32,
        unit: Unit,
        verdict: Verdict,
    },
    Switched {
        group: u32,
        unit: Unit,
        root: u32,
        second_root: u32,
    },
    Reaped(Extent),
    Reply {
        writer: u32,
        line: u32,
        code: u32,
        done: u64,
        refused: Option<Refused>,
        begun: Option<u64>,
    },
}
