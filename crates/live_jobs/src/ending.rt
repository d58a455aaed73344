use fs_model::Entry;
use xscrub::Finding;

/// What a run beside writers found: as a repair does; or that a line of the script is wrong, or that the
/// script couldn't be read, and no device was opened.
#[derive(Debug, PartialEq, Eq, Drop)]
pub(crate) enum LiveFinding {
    Found(Finding),
    ScriptWrong(u32),
    ScriptFailed,
}

/// What a drill found: the journals of its sessions one behind the other, at which length the second and
/// the third began, and how the last one that began ended.
#[derive(Debug, PartialEq, Eq, Drop)]
pub(crate) struct Drilled {
    pub(crate) number: u32,
    pub(crate) journal: Vec<Entry>,
    pub(crate) second: Option<u64>,
    pub(crate) third: Option<u64>,
    pub(crate) end: DrillEnd,
}

/// How a drill ended: each session came to its last unit, and whether a btree is sick at the end; or why
/// one stopped before, or why none began.
#[derive(Clone, Copy, Debug, PartialEq, Eq)]
pub(crate) enum DrillEnd {
    Whole { is_sick: bool },
    DeviceFailed,
    Full,
    Memory,
    Refused,
    NotBegun(Unbegun),
}

/// Why no session of a drill began.
#[derive(Clone, Copy, Debug, PartialEq, Eq)]
pub(crate) enum Unbegun {
    DeviceFailed,
    HostFailed,
    Memory,
}
