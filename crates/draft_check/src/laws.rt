ghost use Rattle.draft_check.specs.DraftLaws.{KeepsJoined, LeavesOthers, PutsOneOf, PutsStamped, ReadsOver};

/// Once the blocks that were made are joined, the group is read through the transaction as it was
/// read with them over it before, and every other block of the image is as it was.
pub fn joins_as_made()
    ensures over { ReadsOver }
    ensures others { LeavesOthers }
{}

/// At the number of a block that was made stand the bytes of one that was made with it; where all
/// have a log sequence number, it has it too.
pub fn puts_as_made()
    ensures bytes { PutsOneOf }
    ensures stamped { PutsStamped }
{}

/// What was joined before is joined still.
pub fn keeps_joined()
    ensures { KeepsJoined }
{}
