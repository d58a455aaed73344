ghost use Rattle.std.specs.Prelude.{◌≡◌, ◌+◌, ◌<◌, ◌≤◌, Some, IfErr, IfOk, OnOk};
ghost use Rattle.blk_device.specs.Causes.{HasCause};
ghost use Rattle.blk_device.specs.Contents.{Contents};
ghost use Rattle.blk_device.specs.Reading.{OnlyRead};
ghost use Rattle.blk_device.specs.declared.device.Region.TheVariants.{Image};
ghost use Rattle.check_phases.specs.Checks.{ChecksInode, IsHeadsOf};
ghost use Rattle.check_phases.specs.InodesKept.{PutsInodes};
ghost use Rattle.check_phases.specs.Kept.{KeepsGroup};
ghost use Rattle.check_phases.specs.Parts.{AddsPart, IsInodePart};
ghost use Rattle.check_phases.specs.Phases.{Inodes, lacks_nothing};
ghost use Rattle.fs_model.specs.declared.unit.Unit.TheVariants as units;
ghost use Rattle.geom.specs.Layout.{group_len_of};
ghost use Rattle.geom.specs.Places.{layout};
ghost use Rattle.inode_pass.specs.Units.{opened_state};
ghost use Rattle.quiet_check.specs.Counted.{inodes_most};
ghost use Rattle.quiet_check.specs.Judged.{IsJudged};
ghost use Rattle.quiet_check.specs.Kept.{IsInside, IsKeptOf};
ghost use Rattle.space_check.specs.Progress.{is_failed, IsOutside};
ghost use Rattle.tree_walk.specs.Trails.{LieInside};

use crate::tally::Tally;
use blk_cache::BlkCache;
use blk_device::Device;
use byte_fields::Steps;
use geom::Geometry;
use group_trees::GroupHeads;
use quiet_check::{InodesJudged, judge_inodes};
use space_check::Halt;
use std::alloc::Global;
use std::sync::ledger::Ledger;

// Judges the inodes of a group, without a cache: each block is read once.
fn judge_unit<D: Device, L: Ledger>(
    alloc: Global,
    dev: &mut D,
    geo: &Geometry,
    g: u32,
    heads: &GroupHeads,
    steps: &mut Steps<L>,
) -> Result<InodesJudged, Halt>
    requires group { g < geo.now.agcount }
    requires room { geo.now.dblocks ≤ D.blocks dev.old Image }
    requires list { LieInside (group_len_of (layout geo.now) g) heads.now.list.items }
    requires heads { (c : Contents) → D.content dev.old ≡ Some c → IsHeadsOf (layout geo.now) (c Image) g heads.now }
    ensures exact { IfOk result (λ found. (c : Contents) → D.content dev.old ≡ Some c → IsJudged (opened_state (layout geo.now) (c Image)) g units.Inode found.judged) }
    ensures inodes { IfOk result (λ found. (c : Contents) → D.content dev.old ≡ Some c → IsKeptOf (layout geo.now) (c Image) g found.inodes) }
    ensures inside { IfOk result (λ found. IsInside (layout geo.now) g found.inodes) }
    ensures outside { IfErr result IsOutside }
    ensures counted { (c : Contents) → D.content dev.old ≡ Some c → steps.new.reads ≤ steps.old.reads + inodes_most (layout geo.now) (c Image) g }
    ensures reading { OnlyRead D.Device dev.old dev.new steps.old steps.new }
    ensures cause { HasCause is_failed (D.faults dev.old) (D.faults dev.new) result }
{
    let mut cache = BlkCache::new(alloc, 0)?;
    let found = judge_inodes(alloc, dev, &mut cache, geo, g, heads, steps)?;
    Ok(found)
}

/// Checks the inodes of group `g`, whose heads were accepted, and keeps its chunks and what their cores
/// show of the forks: a journal that is full, a device that failed and want of memory end it, without an
/// entry (XFS Online Fsck Design, "Metadata Scrubbing").
pub fn check_inodes<D: Device, L: Ledger>(
    alloc: Global,
    dev: &mut D,
    geo: &Geometry,
    g: u32,
    heads: &GroupHeads,
    tally: &mut Tally,
    steps: &mut Steps<L>,
) -> Result<(), Halt>
    requires group { g < geo.now.agcount }
    requires room { geo.now.dblocks ≤ D.blocks dev.old Image }
    requires list { LieInside (group_len_of (layout geo.now) g) heads.now.list.items }
    requires heads { (c : Contents) → D.content dev.old ≡ Some c → IsHeadsOf (layout geo.now) (c Image) g heads.now }
    ensures exact { (c : Contents) → D.content dev.old ≡ Some c → ChecksInode (layout geo.now) (c Image) g tally.old tally.new result }
    ensures added { AddsPart (IsInodePart g) tally.old tally.new result }
    ensures inodes { OnOk result (PutsInodes (layout geo.now) (D.content dev.old) g 1 tally.old.inodes.items tally.new.inodes.items) }
    ensures kept { KeepsGroup (layout geo.now) (D.content dev.old) Inodes lacks_nothing g tally.old steps.old.reads tally.new steps.new.reads result }
    ensures reading { OnlyRead D.Device dev.old dev.new steps.old steps.new }
    ensures cause { HasCause is_failed (D.faults dev.old) (D.faults dev.new) result }
{
    tally.begin()?;
    let found = judge_unit(alloc, dev, geo, g, heads, steps)?;
    tally.add_inodes(alloc, g, found)
}
