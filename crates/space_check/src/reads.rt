ghost use Rattle.std.specs.Prelude.{◌≡◌, ℕ, ◌<◌, ◌≤◌, Some, IfOk, IfErr};
ghost use Rattle.blk_cache.specs.Cache.{AgreesTold};
ghost use Rattle.blk_device.specs.Contents.{Contents};
ghost use Rattle.blk_device.specs.declared.device.Region.TheVariants.{Image};
ghost use Rattle.geom.specs.Places.{layout};
ghost use Rattle.space_check.specs.Faults.{Reading};
ghost use Rattle.space_check.specs.Groups.{CountsReads, tree_read};
ghost use Rattle.blk_device.specs.Causes.{HasCause};
ghost use Rattle.space_check.specs.Progress.{is_failed, HasRead, IsOutside};
ghost use Rattle.space_check.specs.Reads.{IsBad, IsReading, IsSound};
ghost use Rattle.tree_blocks.specs.Meets.{Refuses};
ghost use Rattle.blk_device.specs.Reading.{OnlyRead};
ghost use Rattle.tree_blocks.specs.Reading.{CauseOf};
ghost use Rattle.tree_walk.specs.Meets.{CountedBy};
ghost use Rattle.tree_defs.specs.Sites.{bounds_of};

use crate::halt::Halt;
use blk_cache::BlkCache;
use blk_device::Device;
use byte_fields::Steps;
use geom::Geometry;
use sblock::{BlockFault, RecKind};
use std::alloc::Global;
use std::sync::ledger::Ledger;
use tree_walk::{TreeAt, TreeRead, WalkFault, walk};

/// A tree as it was read: its records and blocks, or its first fault with the block where it is,
/// group-relative (XFS Algorithms and Data Structures, "Short Format B+trees").
#[derive(Drop)]
pub enum IndexRead<R> {
    Whole(TreeRead<R>),
    Bad { block: u32, fault: BlockFault },
}

// What a walk that read no tree says of it.
fn unread<R>(fault: WalkFault) -> Result<IndexRead<R>, Halt>
    ensures exact { (read : Reading R) → Refuses read fault → IsReading read result }
    ensures cause { (before now : ℕ) → CauseOf before now fault → HasCause is_failed before now result }
    ensures counted { (before n after : ℕ) → CountedBy before n after fault → HasRead before n after result }
    ensures bad { IfOk result IsBad }
    ensures outside { IfErr result IsOutside }
{
    match fault {
        WalkFault::Bad { block, fault } => Ok(IndexRead::Bad { block, fault }),
        WalkFault::Failed => Err(Halt::Failed),
        WalkFault::Memory => Err(Halt::Memory),
    }
}

/// Reads a tree of a group, from its root on. A tree with a fault is an answer too; a device that
/// failed and want of memory are the refusals
/// (XFS Algorithms and Data Structures, "Short Format B+trees").
pub fn read_index<K: RecKind, D: Device, L: Ledger>(
    alloc: Global,
    dev: &mut D,
    cache: &mut BlkCache,
    geo: &Geometry,
    tree: &TreeAt,
    steps: &mut Steps<L>,
) -> Result<IndexRead<K::Rec>, Halt>
    requires kind { tree.now.kind ≡ K.form.kind }
    requires group { tree.now.group < geo.now.agcount }
    requires room { geo.now.dblocks ≤ D.blocks dev.old Image }
    requires agreed { AgreesTold cache.old (D.content dev.old) }
    ensures exact { (c : Contents) → D.content dev.old ≡ Some c → IsReading (tree_read (layout geo.now) (c Image) tree.now.group K.form tree.now) result }
    ensures counted { (c : Contents) → D.content dev.old ≡ Some c → CountsReads (layout geo.now) (c Image) K.form tree.now steps.old.reads steps.new.reads result }
    ensures outside { IfErr result IsOutside }
    ensures sound { IfOk result (IsSound K.form (bounds_of (layout geo.now) tree.now.group)) }
    ensures reading { OnlyRead D.Device dev.old dev.new steps.old steps.new }
    ensures cause { HasCause is_failed (D.faults dev.old) (D.faults dev.new) result }
    ensures agrees { AgreesTold cache.new (D.content dev.new) }
{
    match walk::<K, D, L>(alloc, dev, cache, geo, tree, steps) {
        Ok(read) => Ok(IndexRead::Whole(read)),
        Err(fault) => unread::<K::Rec>(fault),
    }
}
