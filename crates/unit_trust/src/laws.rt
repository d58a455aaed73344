ghost use Rattle.unit_trust.specs.Laws.{EntriesAgree, FreshAgree, LacksAlike, OpeningAgrees};

/// A law: what is known of the units of all groups is what the journal says of them, from the
/// opening on: each entry of a group keeps that, and so does the opening of a unit that doesn't
/// stand (XFS Online Fsck Design, "Metadata Scrubbing").
pub fn journal_agrees()
    ensures fresh { FreshAgree }
    ensures entries { EntriesAgree }
    ensures opening { OpeningAgrees }
{}

/// A law: by what is known a unit lacks the very unit that the journal says
/// (XFS Online Fsck Design, "Metadata Scrubbing").
pub fn lacks_alike()
    ensures { LacksAlike }
{}
