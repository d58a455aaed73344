//! Who owns a block, as reverse mappings tell it while chains are open: which entries keep that, and that none takes
//! or frees a block of another's.
ghost use Rattle.law_accounts.specs.Owner.Kept.{FinishedKeepsTold, OthersKeepTold};
ghost use Rattle.law_accounts.specs.Owner.Nobodys.{FreesNobodys, ReapsNobodys, TakesNobodys};

/// A law: where reverse mappings tell settled owners, a run that leaves free space is nobody's, and one that joins it
/// nobody's but limbo's (XFS Online Fsck Design, "Eventual Consistency").
pub fn runs_are_nobodys()
    ensures taken { TakesNobodys }
    ensures freed { FreesNobodys }
    ensures reaped { ReapsNobodys }
{}

/// A law: first events, steps of counts, freed runs, marks, faults, verdicts, replies and released reserves keep reverse
/// mappings that tell settled owners (XFS Online Fsck Design, "Eventual Consistency").
pub fn others_keep()
    ensures { OthersKeepTold }
{}

/// A law: a finished step of reverse mappings keeps them telling settled owners, which follow it
/// (XFS Online Fsck Design, "Eventual Consistency").
pub fn finished_keeps()
    ensures { FinishedKeepsTold }
{}
