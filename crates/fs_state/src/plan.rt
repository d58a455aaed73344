/// What a session is to do with the units that it judges: tell their faults, rebuild those that have
/// some, or rebuild all (XFS Online Fsck Design, "Metadata Scrubbing" and "Metadata Repair").
#[derive(Clone, Copy, Debug, PartialEq, Eq)]
pub enum Plan {
    Check,
    Repair,
    Rebuild,
}
