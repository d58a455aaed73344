ghost use Rattle.std.specs.Prelude.{◌≡◌, ◌+◌, ◌<◌, ◌≤◌, Some, IfOk};
ghost use Rattle.blk_cache.specs.Cache.{AgreesTold};
ghost use Rattle.blk_device.specs.Causes.{HasCause};
ghost use Rattle.blk_device.specs.Contents.{Contents};
ghost use Rattle.blk_device.specs.Reading.{OnlyRead};
ghost use Rattle.blk_device.specs.declared.device.Region.TheVariants.{Image};
ghost use Rattle.fs_state.specs.Kinds.{heads_of};
ghost use Rattle.geom.specs.Layout.{group_len_of};
ghost use Rattle.geom.specs.Places.{layout};
ghost use Rattle.tree_walk.specs.Trails.{LieInside};
ghost use Rattle.inode_pass.specs.Stops.{is_failed};
ghost use Rattle.group_trees.specs.Counted.{kind_most};
ghost use Rattle.group_trees.specs.Heads.{heads_seen};
ghost use Rattle.group_trees.specs.Trees.{FewBlocks, IsSound, reading_of, tree_by};
ghost use Rattle.fs_state.specs.State.{blocks_of, recs_of};
ghost use Rattle.tree_defs.specs.Sites.{bounds_of};

use crate::heads::{GroupHeads, tree_at};
use crate::reads::{TreeSeen, read_tree};
use blk_cache::BlkCache;
use blk_device::Device;
use byte_fields::Steps;
use geom::Geometry;
use inode_pass::PassStop;
use sblock::RecKind;
use std::alloc::Global;
use std::sync::ledger::Ledger;

/// Reads the btree of this kind of group `g`, where the group's heads name it
/// (XFS Algorithms and Data Structures, "Allocation Groups").
pub fn read_kind<K: RecKind, D: Device, L: Ledger>(
    alloc: Global,
    dev: &mut D,
    cache: &mut BlkCache,
    geo: &Geometry,
    g: u32,
    heads: &GroupHeads,
    steps: &mut Steps<L>,
) -> Result<TreeSeen<K::Rec>, PassStop>
    requires group { g < geo.now.agcount }
    requires room { geo.now.dblocks ≤ D.blocks dev.old Image }
    requires agreed { AgreesTold cache.old (D.content dev.old) }
    requires heads { (c : Contents) → D.content dev.old ≡ Some c → heads_seen heads.now ≡ heads_of (layout geo.now) (c Image) g }
    ensures exact { IfOk result (λ seen. (c : Contents) → D.content dev.old ≡ Some c → reading_of seen ≡ tree_by K.form (layout geo.now) (c Image) g) }
    ensures sound { IfOk result (IsSound K.form (bounds_of (layout geo.now) g)) }
    ensures inside { IfOk result (λ seen. LieInside (group_len_of (layout geo.now) g) (blocks_of (reading_of seen))) }
    ensures few { IfOk result (λ seen. (c : Contents) → D.content dev.old ≡ Some c → FewBlocks (reading_of seen)) }
    ensures reading { OnlyRead D.Device dev.old dev.new steps.old steps.new }
    ensures cause { HasCause is_failed (D.faults dev.old) (D.faults dev.new) result }
    ensures agrees { AgreesTold cache.new (D.content dev.new) }
    ensures counted { (c : Contents) → D.content dev.old ≡ Some c → steps.new.reads ≤ steps.old.reads + kind_most K.form (layout geo.now) (c Image) g }
{
    let tree = tree_at(heads, g, K::kind());
    read_tree::<K, D, L>(alloc, dev, cache, geo, &tree, steps)
}

/// The blocks of a tree, or those that it still claims where it can't be read
/// (XFS Algorithms and Data Structures, "Short Format B+trees").
pub fn blocks_of<R>(seen: &TreeSeen<R>) -> &[u32]
    ensures { result.now ≡ blocks_of (reading_of seen.now) }
{
    match seen {
        TreeSeen::Whole(read) => read.blocks.as_slice(),
        TreeSeen::Bad { claims, .. } => claims.as_slice(),
    }
}

/// The records of a tree; one that can't be read has none
/// (XFS Algorithms and Data Structures, "Short Format B+trees").
pub fn recs_of<R>(seen: &TreeSeen<R>) -> &[R]
    ensures { result.now ≡ recs_of (reading_of seen.now) }
{
    match seen {
        TreeSeen::Whole(read) => read.recs.as_slice(),
        TreeSeen::Bad { .. } => &[],
    }
}
