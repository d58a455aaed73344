ghost use Rattle.geom.specs.Places.{layout};
ghost use Rattle.fork_read.specs.Counted.{PiecesAreFew};
ghost use Rattle.fork_read.specs.Whole.{FirstFaultTells, PiecesAreParts, PiecesJoin, PiecesLeaveRest, RefusalsAreFirst};

use dinode_core::{Core3, Fork};
use geom::Geometry;

/// Pieces from 0 on, each from where the one before leaves something, are in sum the whole fork once
/// nothing is left: it has no fault but maybe the number of its mappings, and the pieces have its
/// mappings and the blocks of its btree, each once and in order.
/// (XFS Algorithms and Data Structures, "Data Fork".)
pub fn pieces_join(core: &Core3, fork: Fork, geo: &Geometry)
    ensures { PiecesJoin (layout geo.now) core.now fork }
{}

/// Such pieces of a fork without a fault leave something exactly where a mapping is left: the first of
/// those that are left begins at their `next`. They have the blocks of the btree whose first mapping is
/// one of theirs, and no other. (XFS Algorithms and Data Structures, "Long Format B+trees".)
pub fn pieces_leave_rest(core: &Core3, fork: Fork, geo: &Geometry)
    ensures { PiecesLeaveRest (layout geo.now) core.now fork }
{}

/// The fault for which such a piece is refused is the fork's first one. The one exception is a piece
/// that came to a subtree where none can begin, so that the fork has a fault, and read 28 sound blocks
/// behind it without a bad mapping but maybe the last one: its fault is Order, or that mapping's own.
/// (XFS Algorithms and Data Structures, "Data Fork".)
pub fn refusal_is_first(core: &Core3, fork: Fork, geo: &Geometry)
    ensures { RefusalsAreFirst (layout geo.now) core.now fork }
{}

/// Pieces from 0 on, each from where the one before leaves something, come to the end of a fork in
/// which `first_fault` finds nothing, and where one is refused, it finds a fault: the fork's first one.
/// (XFS Algorithms and Data Structures, "Data Fork".)
pub fn first_fault_tells(core: &Core3, fork: Fork, geo: &Geometry)
    ensures { FirstFaultTells (layout geo.now) core.now fork }
{}

/// A piece of a fork without a fault, from any offset on, has mappings of the fork only, and blocks of
/// its btree only. (XFS Algorithms and Data Structures, "Data Fork".)
pub fn pieces_are_parts(core: &Core3, fork: Fork, geo: &Geometry)
    ensures { PiecesAreParts (layout geo.now) core.now fork }
{}

/// Pieces from 0 on read each block of the fork's btree once, and a way down again for each but the
/// first; each that leaves something has two blocks of its own at least.
/// (XFS Algorithms and Data Structures, "Long Format B+trees".)
pub fn pieces_are_few(core: &Core3, fork: Fork, geo: &Geometry)
    ensures { PiecesAreFew (layout geo.now) core.now fork }
{}
