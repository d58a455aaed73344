//! Blocks that move between a group's list, limbo and trees: what is known of each unit stays.
ghost use Rattle.law_repairs.specs.Move.Moving.{MovesKeep};

/// A law: blocks that move between the list, limbo and the trees of the group's own keep their owner, so what
/// holds of each unit goes on holding (XFS Algorithms and Data Structures, "AG Free List").
pub fn moves_keep()
    ensures { MovesKeep }
{}
