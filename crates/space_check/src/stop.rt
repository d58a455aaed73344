use crate::halt::Halt;
use fs_model::Entry;

/// Why a check ended before its last unit, and its journal so far: the entries of the units that
/// were judged, or skipped, until then
/// (XFS Online Fsck Design, "Metadata Scrubbing").
#[derive(Debug, PartialEq, Eq, Drop)]
pub struct CheckStop {
    pub cause: Halt,
    pub journal: Vec<Entry>,
}
