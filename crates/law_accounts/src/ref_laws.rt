//! A finished step of reference counts keeps each block of a group sound.
ghost use Rattle.law_accounts.specs.Ref.Steps.{RefDoneCounts, RefDoneSound, RefDoneStated};

/// A law: a finished step of reference counts keeps each block sound, also where it sets a run free, with any claims and
/// with those that the state has, and the records stay so that no two overlap
/// (XFS Online Fsck Design, "Eventual Consistency").
pub fn ref_done_keeps()
    ensures each { RefDoneSound }
    ensures stated { RefDoneStated }
    ensures counts { RefDoneCounts }
{}
