ghost use Rattle.std.specs.Prelude.{◌≡◌, ℕ, ◌+◌, ◌*◌, ◌<◌, ◌≤◌, Some, IfOk};
ghost use Rattle.blk_cache.specs.Cache.{AgreesTold};
ghost use Rattle.blk_device.specs.Causes.{HasCause, MovesOnly};
ghost use Rattle.blk_device.specs.Contents.{Contents};
ghost use Rattle.blk_device.specs.Reading.{OnlyRead};
ghost use Rattle.blk_device.specs.declared.device.Region.TheVariants.{Image};
ghost use Rattle.fs_state.specs.State.{blocks_of};
ghost use Rattle.geom.specs.Layout.{group_len_of};
ghost use Rattle.geom.specs.Places.{layout};
ghost use Rattle.tree_walk.specs.Trails.{LieInside};
ghost use Rattle.inode_pass.specs.Stops.{is_failed};
ghost use Rattle.fs_state.specs.Read.{Read};
ghost use Rattle.group_trees.specs.Counted.{IsTreeCounted, IsWalkCounted};
ghost use Rattle.group_trees.specs.Trees.{AreClaimsAt, FewBlocks, IsFewRead};
ghost use Rattle.group_trees.specs.Trees.{IsBad, IsRead, IsSound, IsInsideRead, IsSoundRead, IsTreeAt, reading_of, tree_walked};
ghost use Rattle.tree_blocks.specs.Meets.{Refuses};
ghost use Rattle.tree_blocks.specs.Reading.{CauseOf};
ghost use Rattle.tree_claims.specs.Looks.{IsOutside};
ghost use Rattle.tree_defs.specs.Sites.{bounds_of};

use crate::runs::blocks_in;
use blk_cache::BlkCache;
use blk_device::Device;
use byte_fields::Steps;
use geom::Geometry;
use inode_pass::PassStop;
use sblock::{BlockFault, RecKind};
use std::alloc::Global;
use std::sync::ledger::Ledger;
use tree_walk::{TreeAt, TreeRead, WalkFault, claimed, walk};

/// A btree of a group as it was read: its records and blocks, or its first fault with the block
/// where it is and the blocks that it still claims, all group-relative
/// (XFS Algorithms and Data Structures, "Short Format B+trees").
#[derive(Drop)]
pub enum TreeSeen<R> {
    Whole(TreeRead<R>),
    Bad {
        block: u32,
        fault: BlockFault,
        claims: Vec<u32>,
    },
}

// A tree that was walked, or its first fault.
#[derive(Drop)]
enum Walked<R> {
    Whole(TreeRead<R>),
    Bad { block: u32, fault: BlockFault },
}

// What a walk that read no tree says of it.
fn unread<R>(fault: WalkFault) -> Result<Walked<R>, PassStop>
    ensures exact { (read : Read R) → Refuses read fault → IsRead read result }
    ensures cause { (before now : ℕ) → CauseOf before now fault → HasCause is_failed before now result }
    ensures sound { IfOk result IsBad }
{
    match fault {
        WalkFault::Bad { block, fault } => Ok(Walked::Bad { block, fault }),
        WalkFault::Failed => Err(PassStop::Failed),
        WalkFault::Memory => Err(PassStop::Memory),
    }
}

// Walks a tree from its root on.
fn walk_tree<K: RecKind, D: Device, L: Ledger>(
    alloc: Global,
    dev: &mut D,
    cache: &mut BlkCache,
    geo: &Geometry,
    tree: &TreeAt,
    steps: &mut Steps<L>,
) -> Result<Walked<K::Rec>, PassStop>
    requires kind { tree.now.kind ≡ K.form.kind }
    requires group { tree.now.group < geo.now.agcount }
    requires room { geo.now.dblocks ≤ D.blocks dev.old Image }
    requires agreed { AgreesTold cache.old (D.content dev.old) }
    ensures exact { (c : Contents) → D.content dev.old ≡ Some c → IsRead (tree_walked K.form (layout geo.now) (c Image) tree.now.group tree.now.root tree.now.levels) result }
    ensures sound { IfOk result (IsSoundRead K.form (bounds_of (layout geo.now) tree.now.group)) }
    ensures inside { IfOk result (IsInsideRead (group_len_of (layout geo.now) tree.now.group)) }
    ensures few { (c : Contents) → D.content dev.old ≡ Some c → IfOk result (IsFewRead (group_len_of (layout geo.now) tree.now.group)) }
    ensures reading { OnlyRead D.Device dev.old dev.new steps.old steps.new }
    ensures cause { HasCause is_failed (D.faults dev.old) (D.faults dev.new) result }
    ensures agrees { AgreesTold cache.new (D.content dev.new) }
    ensures counted { (c : Contents) → D.content dev.old ≡ Some c → IsWalkCounted K.form (layout geo.now) (c Image) tree.now steps.old.reads steps.new.reads }
{
    match walk::<K, D, L>(alloc, dev, cache, geo, tree, steps) {
        Ok(read) => Ok(Walked::Whole(read)),
        Err(fault) => unread::<K::Rec>(fault),
    }
}

// Why the blocks that a tree claims couldn't be read.
fn outside(fault: WalkFault) -> PassStop
    requires { IsOutside fault }
    ensures cause { (before now : ℕ) → CauseOf before now fault → MovesOnly (is_failed result) before now }
{
    match fault {
        WalkFault::Bad { .. } => unreachable!(),
        WalkFault::Failed => PassStop::Failed,
        WalkFault::Memory => PassStop::Memory,
    }
}

// The blocks that a tree claims where it can't be read, rising.
fn read_claims<K: RecKind, D: Device, L: Ledger>(
    alloc: Global,
    dev: &mut D,
    cache: &mut BlkCache,
    geo: &Geometry,
    tree: &TreeAt,
    steps: &mut Steps<L>,
) -> Result<Vec<u32>, PassStop>
    requires kind { tree.now.kind ≡ K.form.kind }
    requires group { tree.now.group < geo.now.agcount }
    requires room { geo.now.dblocks ≤ D.blocks dev.old Image }
    requires agreed { AgreesTold cache.old (D.content dev.old) }
    ensures exact { IfOk result (λ claims. (c : Contents) → D.content dev.old ≡ Some c → AreClaimsAt K.form (layout geo.now) (c Image) tree.now claims.items) }
    ensures inside { IfOk result (λ claims. LieInside (group_len_of (layout geo.now) tree.now.group) claims.items) }
    ensures reading { OnlyRead D.Device dev.old dev.new steps.old steps.new }
    ensures cause { HasCause is_failed (D.faults dev.old) (D.faults dev.new) result }
    ensures agrees { AgreesTold cache.new (D.content dev.new) }
    ensures few { steps.new.reads ≤ steps.old.reads + 9 * group_len_of (layout geo.now) tree.now.group }
{
    let set = claimed::<K, D, L>(alloc, dev, cache, geo, tree, steps).map_err(outside)?;
    let blocks = blocks_in(alloc, set.runs())?;
    Ok(blocks)
}

/// Reads a tree of a group from its root on. A tree with a fault is an answer too, with the blocks
/// that it still claims; a device that failed and want of memory are the refusals
/// (XFS Algorithms and Data Structures, "Short Format B+trees").
pub fn read_tree<K: RecKind, D: Device, L: Ledger>(
    alloc: Global,
    dev: &mut D,
    cache: &mut BlkCache,
    geo: &Geometry,
    tree: &TreeAt,
    steps: &mut Steps<L>,
) -> Result<TreeSeen<K::Rec>, PassStop>
    requires kind { tree.now.kind ≡ K.form.kind }
    requires group { tree.now.group < geo.now.agcount }
    requires room { geo.now.dblocks ≤ D.blocks dev.old Image }
    requires agreed { AgreesTold cache.old (D.content dev.old) }
    ensures exact { IfOk result (λ seen. (c : Contents) → D.content dev.old ≡ Some c → IsTreeAt K.form (layout geo.now) (c Image) tree.now seen) }
    ensures sound { IfOk result (IsSound K.form (bounds_of (layout geo.now) tree.now.group)) }
    ensures inside { IfOk result (λ seen. LieInside (group_len_of (layout geo.now) tree.now.group) (blocks_of (reading_of seen))) }
    ensures few { IfOk result (λ seen. (c : Contents) → D.content dev.old ≡ Some c → FewBlocks (reading_of seen)) }
    ensures reading { OnlyRead D.Device dev.old dev.new steps.old steps.new }
    ensures cause { HasCause is_failed (D.faults dev.old) (D.faults dev.new) result }
    ensures agrees { AgreesTold cache.new (D.content dev.new) }
    ensures counted { (c : Contents) → D.content dev.old ≡ Some c → IsTreeCounted K.form (layout geo.now) (c Image) tree.now steps.old.reads steps.new.reads }
{
    let walked = walk_tree::<K, D, L>(alloc, dev, cache, geo, tree, steps)?;
    match walked {
        Walked::Whole(read) => Ok(TreeSeen::Whole(read)),
        Walked::Bad { block, fault } => {
            let claims = read_claims::<K, D, L>(alloc, dev, cache, geo, tree, steps)?;
            Ok(TreeSeen::Bad {
                block,
                fault,
                claims,
            })
        }
    }
}
