//! No metadata claims a spare block of a rebuild of free space; and what entries of a repair keep where no more is said of it.
ghost use Rattle.law_cuts.specs.Unclaimed.Repairs.{GivenHasFacts, GivenKeepsChunks, GivenKeepsMemory, KnownFollow};
ghost use Rattle.law_cuts.specs.Unclaimed.Unclaimed.{JudgedStay, KnownUnclaimed, ToldUnclaimed};

use crate::spare_laws::spare_stays_told;
use law_repairs::order_laws::images_follow;

/// A law: a spare block of a rebuild of free space, which no reverse mapping covers, is claimed by no metadata, where these
/// tell settled owners, or where it is known that they hold what they should and they were judged; those that were judged
/// stay so behind an entry of a repair (XFS Online Fsck Design, "Reserving New B+Tree Blocks").
pub fn spare_unclaimed()
    ensures told { ToldUnclaimed }
    ensures known { KnownUnclaimed }
    ensures judged { JudgedStay }
{
    spare_stays_told();
}

/// A law: an entry of a repair from one image to another does what order_laws says of it, where the mappings of such a block's
/// group tell settled owners or are known; what is known of units follows with nothing asked of the block where letters know
/// the mappings (XFS Online Fsck Design, "Eventual Consistency").
pub fn given_follow()
    ensures memory { GivenKeepsMemory }
    ensures chunks { GivenKeepsChunks }
    ensures facts { GivenHasFacts }
    ensures known { KnownFollow }
{
    images_follow();
    spare_unclaimed();
}
