ghost use Rattle.std.specs.Prelude.{◌≡◌};
ghost use Rattle.std.specs.List.{list_all};

use crate::last_lines::LastLine;
use fs_model::{Entry, Verdict};

/// How a run ended; its number is the status of the process. Clean, faulty and given up are those of
/// an image whose units all have a verdict: none speaks against it; one is faulty or skipped; or one
/// couldn't be judged, since what it would be judged by contradicts itself.
#[derive(Clone, Copy, Debug, PartialEq, Eq)]
pub enum Status {
    Clean = 0,
    Faulty = 1,
    Usage = 2,
    Refused = 4,
    Failed = 5,
    GaveUp = 6,
    Full = 7,
    Memory = 8,
}

/// What a run found, before it is told: the journal of a judged image, a journal that was full
/// before the last unit, the line of a refusal, a new image that was written, or what stopped it;
/// with the journal so far where the device failed or memory was short. Of a repair that wasn't stopped
/// it is the journal, and whether a btree is sick at the end.
#[derive(Debug, PartialEq, Eq, Drop)]
pub enum Finding {
    Judged(Vec<Entry>),
    Repaired { journal: Vec<Entry>, is_sick: bool },
    Full(Vec<Entry>),
    Refused(LastLine),
    Made,
    Usage,
    DeviceFailed(Vec<Entry>),
    HostFailed,
    Memory(Vec<Entry>),
}

/// What is told of a run: its status, its journal, and the line that came last.
#[derive(Debug, PartialEq, Eq, Drop)]
pub struct Told {
    pub status: Status,
    pub journal: Vec<Entry>,
    pub last: Option<LastLine>,
}

impl Status {
    ghost use Rattle.xscrub.specs.Outcome.{code_of};

    /// The status of the process.
    pub fn code(self) -> u8
        ensures { result ≡ code_of self }
    {
        self as u8
    }
}
