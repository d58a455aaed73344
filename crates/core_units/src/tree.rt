// A btree that is read leaf by leaf, or that is known to be bad.
ghost use Rattle.std.specs.Prelude.{◌≡◌, ℕ, ◌+◌, ◌*◌, ◌<◌, ◌≤◌, IfOk, OnErr, Option, Some};
ghost use Rattle.blk_cache.specs.Cache.{AgreesTold};
ghost use Rattle.blk_device.specs.declared.device.Region.TheVariants.{Image};
ghost use Rattle.blk_device.specs.Causes.{HasCause};
ghost use Rattle.blk_device.specs.Contents.{Contents};
ghost use Rattle.blk_device.specs.Reading.{OnlyRead};
ghost use Rattle.core_units.specs.Standing.{IsBadTree, IsBegun, IsFirm, IsLeafMade, IsMade};
ghost use Rattle.fs_state.specs.Kinds.{Image as ImageOf};
ghost use Rattle.geom.specs.Layout.{Layout};
ghost use Rattle.sblock.specs.declared.block.Bounds.{Bounds};
ghost use Rattle.fs_state.specs.Kinds.{level_of, root_of};
ghost use Rattle.fs_state.specs.State.{Bad as BadOf, blocks_of};
ghost use Rattle.geom.specs.Places.{layout};
ghost use Rattle.group_trees.specs.Heads.{heads_seen};
ghost use Rattle.group_trees.specs.Trees.{IsSound, reading_of};
ghost use Rattle.inode_pass.specs.Stops.{is_failed};
ghost use Rattle.tree_defs.specs.Sites.{bounds_of};
ghost use Rattle.tree_find.specs.Find.{way_of};

use crate::leaf::{Leaf, gather_leaf};
use blk_cache::BlkCache;
use blk_device::Device;
use byte_fields::Steps;
use geom::Geometry;
use group_trees::{GroupHeads, TreeSeen, tree_at};
use inode_pass::PassStop;
use sblock::{BlockFault, RecKind};
use std::alloc::Global;
use std::mem;
use std::sync::ledger::Ledger;
use tree_blocks::TreeAt;

// The tree with this fault, which claims the blocks that were met.
fn turn_bad<R: Copy + Drop>(alloc: Global, seen: &mut TreeSeen<R>, block: u32, fault: BlockFault)
    ensures { IsBadTree seen.new }
{
    let claims = match seen {
        TreeSeen::Whole(front) => mem::replace(&mut front.blocks, Vec::new(alloc)),
        TreeSeen::Bad { claims, .. } => mem::replace(claims, Vec::new(alloc)),
    };
    *seen = TreeSeen::Bad {
        block,
        fault,
        claims,
    };
}

// Whether the leaf was the last; the tree is bad behind a bad one.
fn settle<K: RecKind>(alloc: Global, seen: &mut TreeSeen<K::Rec>, leaf: Leaf) -> bool
    ensures exact { (at : Layout) (image : ImageOf) (g root levels : ℕ) (bad : Option BadOf) → IsLeafMade K.form at image g root levels bad seen.old leaf → IsMade K.form at image g root levels bad seen.new result }
    ensures sound { (bounds : Bounds) → IsSound K.form bounds seen.old → IsSound K.form bounds seen.new }
{
    match leaf {
        Leaf::More => false,
        Leaf::Last => true,
        Leaf::Bad { block, fault } => {
            turn_bad::<K::Rec>(alloc, seen, block, fault);
            true
        }
    }
}

// One leaf more of the tree, where it isn't bad.
fn gather_seen<K: RecKind, D: Device, L: Ledger>(
    alloc: Global,
    dev: &mut D,
    cache: &mut BlkCache,
    geo: &Geometry,
    tree: &TreeAt,
    seen: &mut TreeSeen<K::Rec>,
    steps: &mut Steps<L>,
) -> Result<Leaf, PassStop>
    requires kind { tree.now.kind ≡ K.form.kind }
    requires group { tree.now.group < geo.now.agcount }
    requires room { geo.now.dblocks ≤ D.blocks dev.old Image }
    requires agreed { AgreesTold cache.old (D.content dev.old) }
    ensures exact { (c : Contents) → D.content dev.old ≡ Some c → (bad : Option BadOf)
        → IsFirm K.form (layout geo.now) (c Image) tree.now.group tree.now.root tree.now.levels bad
        → IsBegun K.form (layout geo.now) (c Image) tree.now.group tree.now.root tree.now.levels bad seen.old
        → IfOk result (IsLeafMade K.form (layout geo.now) (c Image) tree.now.group tree.now.root tree.now.levels bad seen.new) }
    ensures kept { OnErr result (reading_of seen.new ≡ reading_of seen.old) }
    ensures sound { IsSound K.form (bounds_of (layout geo.now) tree.now.group) seen.old → IsSound K.form (bounds_of (layout geo.now) tree.now.group) seen.new }
    ensures reading { OnlyRead D.Device dev.old dev.new steps.old steps.new }
    ensures cause { HasCause is_failed (D.faults dev.old) (D.faults dev.new) result }
    ensures agrees { AgreesTold cache.new (D.content dev.new) }
    ensures few { steps.new.reads ≤ steps.old.reads + 2 * way_of tree.now.levels }
{
    match seen {
        TreeSeen::Whole(front) => {
            gather_leaf::<K, D, L>(alloc, dev, cache, geo, tree, front, steps)
        }
        TreeSeen::Bad { .. } => Ok(Leaf::Last),
    }
}

/// Reads one leaf more of the btree of this kind of group `g`, and answers whether there is none left.
/// A block that fails its tests makes the tree bad, with the blocks so far as its claims
/// (XFS Algorithms and Data Structures, "Short Format B+trees").
pub fn gather_tree<K: RecKind, D: Device, L: Ledger>(
    alloc: Global,
    dev: &mut D,
    cache: &mut BlkCache,
    geo: &Geometry,
    g: u32,
    heads: &GroupHeads,
    seen: &mut TreeSeen<K::Rec>,
    steps: &mut Steps<L>,
) -> Result<bool, PassStop>
    requires group { g < geo.now.agcount }
    requires room { geo.now.dblocks ≤ D.blocks dev.old Image }
    requires agreed { AgreesTold cache.old (D.content dev.old) }
    ensures exact { (c : Contents) → D.content dev.old ≡ Some c → (bad : Option BadOf)
        → IsFirm K.form (layout geo.now) (c Image) g (root_of (heads_seen heads.now) K.form.kind) (level_of (heads_seen heads.now) K.form.kind) bad
        → IsBegun K.form (layout geo.now) (c Image) g (root_of (heads_seen heads.now) K.form.kind) (level_of (heads_seen heads.now) K.form.kind) bad seen.old
        → IfOk result (IsMade K.form (layout geo.now) (c Image) g (root_of (heads_seen heads.now) K.form.kind) (level_of (heads_seen heads.now) K.form.kind) bad seen.new) }
    ensures kept { OnErr result (reading_of seen.new ≡ reading_of seen.old) }
    ensures sound { IsSound K.form (bounds_of (layout geo.now) g) seen.old → IsSound K.form (bounds_of (layout geo.now) g) seen.new }
    ensures reading { OnlyRead D.Device dev.old dev.new steps.old steps.new }
    ensures cause { HasCause is_failed (D.faults dev.old) (D.faults dev.new) result }
    ensures agrees { AgreesTold cache.new (D.content dev.new) }
    ensures few { steps.new.reads ≤ steps.old.reads + 2 * way_of (level_of (heads_seen heads.now) K.form.kind) }
{
    let tree = tree_at(heads, g, K::kind());
    let leaf = gather_seen::<K, D, L>(alloc, dev, cache, geo, &tree, seen, steps)?;
    Ok(settle::<K>(alloc, seen, leaf))
}
