ghost use Rattle.fs_said.specs.Laws.{FaultsAreFound, SaysCompose, TrulyLeads};

/// A law: a journal that says what is so leads from state to state, as every journal does.
pub fn truly_leads()
    ensures { TrulyLeads }
{}

/// A law: two runs of entries that say what is so are one, the second from what the first told on.
pub fn says_compose()
    ensures { SaysCompose }
{}

/// A law: the faults that a session says of a unit since its last verdict are counted and, with those
/// that are left to be said, all that it had in one state
/// (XFS Online Fsck Design, "Cross-Referencing Space Metadata").
pub fn faults_are_found()
    ensures { FaultsAreFound }
{}
