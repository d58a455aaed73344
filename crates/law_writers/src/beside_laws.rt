//! Each entry of a writer keeps the blocks of other groups than its own sound.
ghost use Rattle.law_writers.specs.Beside.Elsewhere.{ElsewhereKept};

/// A law: each entry of a writer keeps the blocks of other groups than its own sound, with the claims that the state has
/// (XFS Online Fsck Design, "Eventual Consistency").
pub fn elsewhere_stays()
    ensures { ElsewhereKept }
{}
