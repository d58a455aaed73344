ghost use Rattle.geom.specs.Places.{layout};
ghost use Rattle.dinode_core.specs.Frame.{GoodForkStays, MetForkStays, BadForkStaysBad, HasOwnParts};

use crate::inode::Core3;
use crate::mapping::Fork;
use geom::Geometry;

/// A fork without a fault keeps its mappings and its blocks as long as the blocks of its own btree
/// stay, whatever other blocks of the device become.
/// (XFS Algorithms and Data Structures, "Data Fork".)
#[tactic(auto, using(crate::proofs::ForkFrame::fork_stays))]
pub fn good_fork_stays(core: &Core3, fork: Fork, geo: &Geometry)
    ensures { GoodForkStays (layout geo.now) core.now fork }
{}

/// Where no other block takes a btree block's magic number, a fork whose met blocks stay is the same,
/// its fault too, and a fork with a fault has one still, whatever becomes of them.
/// (XFS Algorithms and Data Structures, "Data Fork".)
#[tactic(auto, using(crate::proofs::ForkFrame::fork_same, crate::proofs::ForkFrame::stays_bad))]
pub fn bad_fork_stays_bad(core: &Core3, fork: Fork, geo: &Geometry)
    ensures same { MetForkStays (layout geo.now) core.now fork }
    ensures bad { BadForkStaysBad (layout geo.now) core.now fork }
{}

/// Of its inode a fork depends on its number, on the fork's bytes, format and count of mappings, and
/// on `di_forkoff` alone. (XFS Algorithms and Data Structures, "Inode Literal Area".)
#[tactic(auto, using(crate::proofs::OwnParts::own_parts))]
pub fn fork_has_own_parts(core: &Core3, fork: Fork, geo: &Geometry)
    ensures { HasOwnParts (layout geo.now) core.now fork }
{}
