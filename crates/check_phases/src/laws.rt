ghost use Rattle.check_phases.specs.Phases.{PhasesInOrder};
ghost use Rattle.check_phases.specs.Session.{CheckIsSession, CutIsSession, PassedCanBeRead, PhasesAreSession};

/// A law: the three phases of a check, one after the other over all groups, are the units of a session
/// in their order (XFS Online Fsck Design, "Metadata Scrubbing").
pub fn phases_in_order()
    ensures { PhasesInOrder }
{}

/// A law: the three phases over all groups, each by what the one before left, do what a session over the
/// state does, unit by unit (XFS Online Fsck Design, "Metadata Scrubbing").
pub fn phases_are_session()
    ensures { PhasesAreSession }
{}

/// A law: reverse mappings that passed can be read, so that free space and reference counts can be read
/// off them (XFS Online Fsck Design, "Metadata Scrubbing").
pub fn passed_can_be_read()
    ensures { PassedCanBeRead }
{}

/// A law: what a check adds to an empty journal is a session: one verdict for each unit, in their order,
/// and a unit is skipped for the first that it needs and that has no good verdict before it
/// (XFS Online Fsck Design, "Metadata Scrubbing").
pub fn check_is_session()
    ensures { CheckIsSession }
{}

/// A law: what the first units of a check add is a session that was cut short
/// (XFS Online Fsck Design, "Metadata Scrubbing").
pub fn cut_is_session()
    ensures { CutIsSession }
{}
