//! What is kept in memory of each group stays in order behind each entry, of a writer or of a repair.
ghost use Rattle.law_repairs.specs.Memory.Memory.{CoveredRefillIsNew, EntryKeepsMemory, MemoryAtEveryMoment, SoundRefillIsNew, WriterKeepsMemory, WriterKeepsOrder};

use fs_state::limbo_is_a_set;
use law_writers::run_laws::records_found;

/// A law: an entry of a writer that leads from one image to another keeps what is in memory of each group in order, and so
/// does any entry; so from one entry to the next every group is kept as it should be (XFS Online Fsck Design, "Eventual
/// Consistency").
pub fn memory_follows()
    ensures order { WriterKeepsOrder }
    ensures writer { WriterKeepsMemory }
    ensures entry { EntryKeepsMemory }
    ensures moment { MemoryAtEveryMoment }
{
    limbo_is_a_set();
}

/// A law: a run of free space that fills the free list has no block that waits in limbo, where its blocks are sound, and
/// where each block of metadata that free space lists has a reverse mapping (XFS Algorithms and Data Structures, "AG Free
/// List").
pub fn refills_are_new()
    ensures sound { SoundRefillIsNew }
    ensures covered { CoveredRefillIsNew }
{
    records_found();
}
