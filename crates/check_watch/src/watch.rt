/// What a check is doing: it judges the inodes of each group, reads the forks of all inodes, and judges
/// the reverse mappings of each group, and then free space and reference counts of each
/// (XFS Online Fsck Design, "Metadata Scrubbing").
#[derive(Clone, Copy, Debug, PartialEq, Eq)]
pub enum Phase {
    Inodes,
    Forks,
    Mappings,
    Space,
}

/// What hears how far a check is, as it goes on: groups, and inodes where forks are read
/// (XFS Online Fsck Design, "Metadata Scrubbing").
pub trait Watch {
    /// A phase begins, in which there are so many groups or inodes.
    fn begin(&mut self, phase: Phase, of: u64);

    /// The phase is done with so many more of them.
    fn pass(&mut self, more: u64);
}

/// Hears nothing, for a caller that nobody waits for
/// (XFS Online Fsck Design, "Metadata Scrubbing").
#[derive(Clone, Copy, Debug, PartialEq, Eq)]
pub struct NoWatch;

impl Watch for NoWatch {
    fn begin(&mut self, _phase: Phase, _of: u64) {}

    fn pass(&mut self, _more: u64) {}
}
