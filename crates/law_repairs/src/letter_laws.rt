//! What a reaped run keeps of its own group, and which entry of a repair ends or makes what is known of which unit.
ghost use Rattle.law_repairs.specs.Letter.Known.{LettersEnd, LettersFollow};
ghost use Rattle.law_repairs.specs.Letter.Reaping.{ReapedKeepsOwn};

/// A law: a reaped run keeps what is known of each unit of its own group; of free space, which it joins, where
/// reverse mappings are known, which say that nobody else has a block of it
/// (XFS Online Fsck Design, "Reaping After Repairing Ondisk Metadata").
pub fn reaped_keeps()
    ensures { ReapedKeepsOwn }
{}

/// A law: which entry of a repair ends or makes what is known of which unit of a group; what the first spare block
/// of a rebuild ends comes back by its switch or a good verdict, not by a release. At the end a known unit that
/// is trusted has no faults in what a new session finds (XFS Online Fsck Design, "Eventual Consistency").
pub fn letters_follow()
    ensures entries { LettersFollow }
    ensures end { LettersEnd }
{}
