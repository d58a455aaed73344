ghost use Rattle.std.specs.Prelude.{◌<◌, ◌^◌, All, IfOk};
ghost use Rattle.fs_state.specs.Kinds.{Image};
ghost use Rattle.geom.specs.Layout.{group_len_of};
ghost use Rattle.geom.specs.Places.{layout};
ghost use Rattle.group_trees.specs.Group.{AreInside, AreSoundTrees, IsOverlapOf};
ghost use Rattle.tree_walk.specs.Trails.{LieInside};

use crate::group::{GroupTrees, put_metadata};
use fs_model::Evidence;
use geom::Geometry;
use std::alloc::Global;
use unit_plan::{Among, ClaimSet, Memory};

/// The lowest block of group `g` on which two claims by the group's own metadata stand, and the
/// first two, from its free list, its btrees and the units of its chunks; none where each block has
/// one at most (XFS Online Fsck Design, "Cross-Referencing Space Metadata").
pub fn metadata_overlap(
    alloc: Global,
    geo: &Geometry,
    g: u32,
    list: &[u32],
    trees: &GroupTrees,
    chunks: &[u32],
) -> Result<Option<Evidence>, Memory>
    requires group { g < geo.now.agcount }
    requires list { LieInside (group_len_of (layout geo.now) g) list.now }
    requires trees { AreSoundTrees (layout geo.now) g trees.now }
    requires chunks { AreInside (group_len_of (layout geo.now) g) chunks.now }
    requires small { All (λ u. u < 2 ^ 26) chunks.now }
    ensures { IfOk result (λ found. (image : Image) → IsOverlapOf (layout geo.now) image g list.now trees.now chunks.now found) }
{
    let mut set = ClaimSet::new(alloc);
    put_metadata(&mut set, geo.log, g, list, trees, chunks)?;
    Ok(set.first_overlap(Among::Metadata))
}
