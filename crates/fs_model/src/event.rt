/// The events by which writers and the scrubber change a file system, one kind each
/// (XFS Online Fsck Design, "Eventual Consistency" and "Live Updates").
#[derive(Clone, Copy, Debug, PartialEq, Eq)]
pub enum EventKind {
    Begin,
    MapFirst,
    UnmapFirst,
    StripFirst,
    ShareFirst,
    ConvertFirst,
    RmapStep,
    RefStep,
    FreeStep,
    TakeInode,
    GiveInode,
    Refill,
    End,
    Note,
    Start,
    Advance,
    ScanPiece,
    Close,
    GatherPiece,
    ComparePiece,
    ReservePiece,
    StagePiece,
    Switch,
    ReapPiece,
    Reopen,
}

/// What an event was asked that was refused: its inodes, and its own numbers in blocks from the
/// start of a fork. A number that the event doesn't have is 0.
#[derive(Clone, Copy, Debug, PartialEq, Eq)]
pub struct Refused {
    pub event: EventKind,
    pub first: u64,
    pub second: Option<u64>,
    pub offset: u64,
    pub to_offset: u64,
    pub count: u64,
}
