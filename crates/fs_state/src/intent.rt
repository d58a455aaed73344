/// What a step of a chain is still to do: give reverse mappings to blocks, take them away, or make
/// unwritten ones written; raise or lower reference counts; free blocks
/// (XFS Online Fsck Design, "Eventual Consistency": deferred work items).
#[derive(Clone, Copy, Debug, PartialEq, Eq)]
pub enum IntentKind {
    RmapAdd,
    RmapRemove,
    RmapChange,
    RefMore,
    RefLess,
    Free,
}

/// One pending step: `count` blocks of a group from group-relative block `block` on. `ino` and `word`
/// are the owner and the offset word of the first block's reverse mapping (that of the written one,
/// where it changes), and 0 where the step is about no mapping.
#[derive(Clone, Copy, Debug, PartialEq, Eq)]
pub struct Intent {
    pub kind: IntentKind,
    pub ino: u64,
    pub word: u64,
    pub group: u32,
    pub block: u32,
    pub count: u32,
}
