//! Groups of an image are in order at every moment, as the laws of repairs ask.
ghost use Rattle.law_repairs.specs.Order.Ordered.{BadIsSick, BlocksAreOnce, ChunksAreInodes, ClaimsLieInside, CountersAreWords, GroupIsInOrder, LimboIsPlain, OpenedIsInOrder, OpenedIsKept, OrderHasOwners, OwnersAreInOrder, OwnersAreTuples, OwnersHaveNext, SwitchCanBeMade};
ghost use Rattle.law_repairs.specs.Order.Repairs.{ImagesFollow, ImagesHaveFacts, OpenedIsKeptWell, RepairKeepsChunks, RepairKeepsMemory};

use claim_laws::good_forks;
use fs_state::opening_law;

/// A law: a group of the state that an image stands for is in order at every moment, where no block of metadata has a
/// second claim, the free list is accepted, heads are bytes, and what is kept in memory is in order; each part from what
/// it needs (XFS Algorithms and Data Structures, "Allocation Groups").
pub fn group_in_order()
    ensures words { CountersAreWords }
    ensures bad { BadIsSick }
    ensures plain { LimboIsPlain }
    ensures blocks { BlocksAreOnce }
    ensures inside { ClaimsLieInside }
    ensures next { OwnersHaveNext }
    ensures tuples { OwnersAreTuples }
    ensures all { GroupIsInOrder }
{
    good_forks();
}

/// A law: right after an image was opened what is kept in memory is in order by itself, and so is each group
/// (XFS Algorithms and Data Structures, "Allocation Groups").
pub fn opened_in_order()
    ensures kept { OpenedIsKept }
    ensures all { OpenedIsInOrder }
    ensures well { OpenedIsKeptWell }
{
    good_forks();
    opening_law();
}

/// A law: a group in order has what switches ask of owners: they lie in it, the unit's is no inode, what should be in the
/// reverse mappings are their maximal runs; and new ones can be made of what a switch of these leaves to claim blocks
/// (XFS Algorithms and Data Structures, "Reverse-Mapping B+tree").
pub fn owners_in_order()
    ensures order { OrderHasOwners }
    ensures image { OwnersAreInOrder }
    ensures chunks { ChunksAreInodes }
    ensures mappings { SwitchCanBeMade }
{
    good_forks();
}

/// A law: an entry of a repair that leads from one image to another keeps what is in memory in order, leaves all chunks, has
/// the facts that letters ask for, and so keeps what is known of units as their table has it
/// (XFS Online Fsck Design, "Eventual Consistency").
pub fn images_follow()
    ensures memory { RepairKeepsMemory }
    ensures chunks { RepairKeepsChunks }
    ensures facts { ImagesHaveFacts }
    ensures letters { ImagesFollow }
{
    good_forks();
}
