ghost use Rattle.std.specs.Prelude.{◌≡◌, ◌+◌, ◌<◌, ◌≤◌, Some, IfOk, IfErr};
ghost use Rattle.blk_device.specs.Causes.{HasCause};
ghost use Rattle.blk_device.specs.Contents.{Contents};
ghost use Rattle.blk_device.specs.Reading.{OnlyRead};
ghost use Rattle.blk_device.specs.declared.device.Region.TheVariants.{Image};
ghost use Rattle.fs_model.specs.declared.unit.Unit.TheVariants as units;
ghost use Rattle.fs_state.specs.Kinds.{heads_of};
ghost use Rattle.geom.specs.Layout.{group_len_of};
ghost use Rattle.geom.specs.Places.{layout};
ghost use Rattle.inode_pass.specs.Units.{opened_state};
ghost use Rattle.quiet_check.specs.Counted.{inodes_most};
ghost use Rattle.quiet_check.specs.Entries.{AreInodeEntries};
ghost use Rattle.group_trees.specs.Heads.{IsOutside, IsRefusedIn, heads_seen, is_failed};
ghost use Rattle.quiet_check.specs.Judged.{IsJudged};
ghost use Rattle.tree_walk.specs.Trails.{LieInside};

use crate::entries::add_judged;
use crate::judge::{Judged, judge_inodes};
use blk_cache::BlkCache;
use blk_device::Device;
use byte_fields::Steps;
use fs_model::{Entry, Unit};
use geom::Geometry;
use group_trees::{GroupHeads, HeadsStop, read_heads};
use space_check::Journal;
use std::alloc::Global;
use std::sync::ledger::Ledger;

// Judges the inodes of a group by its heads, without a cache: each block is read once.
fn judge_by<D: Device, L: Ledger>(
    alloc: Global,
    dev: &mut D,
    geo: &Geometry,
    g: u32,
    heads: &GroupHeads,
    steps: &mut Steps<L>,
) -> Result<Judged, HeadsStop>
    requires group { g < geo.now.agcount }
    requires room { geo.now.dblocks ≤ D.blocks dev.old Image }
    requires list { LieInside (group_len_of (layout geo.now) g) heads.now.list.items }
    requires heads { (c : Contents) → D.content dev.old ≡ Some c → heads_seen heads.now ≡ heads_of (layout geo.now) (c Image) g }
    ensures exact { IfOk result (λ judged. (c : Contents) → D.content dev.old ≡ Some c → IsJudged (opened_state (layout geo.now) (c Image)) g units.Inode judged) }
    ensures outside { IfErr result IsOutside }
    ensures reading { OnlyRead D.Device dev.old dev.new steps.old steps.new }
    ensures cause { HasCause is_failed (D.faults dev.old) (D.faults dev.new) result }
    ensures counted { (c : Contents) → D.content dev.old ≡ Some c → steps.new.reads ≤ steps.old.reads + inodes_most (layout geo.now) (c Image) g }
{
    let mut cache = BlkCache::new(alloc, 0)?;
    let found = judge_inodes(alloc, dev, &mut cache, geo, g, heads, steps)?;
    Ok(found.judged)
}

/// Checks the inodes of group `g`: what the check adds to the journal, whatever that has so far,
/// which is the faults of the two inode btrees and of their counters with the verdict, or the first
/// evidence for which they can't be judged. A head of the group that is refused ends it, and so do a
/// device that fails and want of memory. Nothing is written
/// (XFS Online Fsck Design, "Metadata Scrubbing").
pub fn check_inodes<D: Device, L: Ledger>(
    alloc: Global,
    dev: &mut D,
    geo: &Geometry,
    g: u32,
    steps: &mut Steps<L>,
) -> Result<Vec<Entry>, HeadsStop>
    requires group { g < geo.now.agcount }
    requires room { geo.now.dblocks ≤ D.blocks dev.old Image }
    ensures exact { IfOk result (λ entries. (c : Contents) → D.content dev.old ≡ Some c → AreInodeEntries (layout geo.now) (c Image) g entries) }
    ensures refused { IfErr result (λ stop. (c : Contents) → D.content dev.old ≡ Some c → IsRefusedIn (layout geo.now) (c Image) g stop) }
    ensures reading { OnlyRead D.Device dev.old dev.new steps.old steps.new }
    ensures cause { HasCause is_failed (D.faults dev.old) (D.faults dev.new) result }
    ensures counted { (c : Contents) → D.content dev.old ≡ Some c → steps.new.reads ≤ steps.old.reads + 1 + inodes_most (layout geo.now) (c Image) g }
{
    let heads = read_heads(alloc, dev, geo, g, steps)?;
    let judged = judge_by(alloc, dev, geo, g, &heads, steps)?;
    let mut journal = Journal::new(alloc);
    add_judged(&mut journal, alloc, g, Unit::Inode, &judged).map_err(|_| HeadsStop::Memory)?;
    Ok(journal.entries)
}
