ghost use Rattle.std.specs.Prelude.{◌≡◌, ℕ, ◌+◌, ◌<◌, ◌≤◌, Some, IfErr, IfOk, length};
ghost use Rattle.blk_device.specs.Causes.{HasCause};
ghost use Rattle.blk_device.specs.Contents.{Contents};
ghost use Rattle.blk_device.specs.Reading.{OnlyRead};
ghost use Rattle.blk_device.specs.declared.device.Region.TheVariants.{Image};
ghost use Rattle.check_phases.specs.Checks.{AreAccepted, AreHeads, IsHeadsOf};
ghost use Rattle.check_phases.specs.Parts.{AddsPart, AddsParts};
ghost use Rattle.fork_pass.specs.Passed.{LieInGroups};
ghost use Rattle.fork_pass.specs.Sets.{pieces_at};
ghost use Rattle.geom.specs.Layout.{group_len_of};
ghost use Rattle.geom.specs.Places.{layout};
ghost use Rattle.group_trees.specs.Counted.{trees_most};
ghost use Rattle.image_check.specs.Kept.{KeepsClaims, KeepsMappings, KeepsReady};
ghost use Rattle.image_check.specs.Mappings.{AreReady, LieIn, ChecksMappings, MappingsDone, ReadyDone};
ghost use Rattle.image_check.specs.Units.{IsMappingPart};
ghost use Rattle.mapping_check.specs.Mapped.{IsMappingJudged};
ghost use Rattle.space_check.specs.Progress.{is_failed, IsOutside};
ghost use Rattle.tree_walk.specs.Trails.{LieInside};

use crate::sets::take_set;
use blk_device::Device;
use byte_fields::Steps;
use check_phases::{Part, Tally, groups_in};
use check_watch::{Phase, Watch};
use fs_model::Unit;
use geom::Geometry;
use group_trees::GroupHeads;
use inode_pass::GroupInodes;
use mapping_check::judge_mappings;
use quiet_check::Judged;
use space_check::Halt;
use std::alloc::Global;
use std::sync::ledger::Ledger;
use unit_plan::ClaimSet;

// Judges the reverse mappings of a group, with the stops of a check.
fn judge_unit<D: Device, L: Ledger>(
    alloc: Global,
    dev: &mut D,
    geo: &Geometry,
    g: u32,
    heads: &GroupHeads,
    chunks: &[u32],
    set: ClaimSet,
    steps: &mut Steps<L>,
) -> Result<Judged, Halt>
    requires group { g < geo.now.agcount }
    requires room { geo.now.dblocks ≤ D.blocks dev.old Image }
    requires list { LieInside (group_len_of (layout geo.now) g) heads.now.list.items }
    requires chunks { LieIn (layout geo.now) g chunks.now }
    requires heads { (c : Contents) → D.content dev.old ≡ Some c → IsHeadsOf (layout geo.now) (c Image) g heads.now }
    ensures exact { IfOk result (λ judged. (c : Contents) → D.content dev.old ≡ Some c → IsMappingJudged (layout geo.now) (c Image) g chunks.now set judged) }
    ensures outside { IfErr result IsOutside }
    ensures counted { (c : Contents) → D.content dev.old ≡ Some c → steps.new.reads ≤ steps.old.reads + trees_most (layout geo.now) (c Image) g }
    ensures reading { OnlyRead D.Device dev.old dev.new steps.old steps.new }
    ensures cause { HasCause is_failed (D.faults dev.old) (D.faults dev.new) result }
{
    let judged = judge_mappings(alloc, dev, geo, g, heads, chunks, set, steps)?;
    Ok(judged)
}

/// Checks the reverse mappings of group `g`, whose heads were accepted, by the claims of all forks. A
/// journal that is full, a device that failed and want of memory end it, without an entry
/// (XFS Online Fsck Design, "Cross-Referencing Space Metadata").
pub fn check_mappings<D: Device, L: Ledger>(
    alloc: Global,
    dev: &mut D,
    geo: &Geometry,
    g: u32,
    heads: &GroupHeads,
    chunks: &[u32],
    set: ClaimSet,
    tally: &mut Tally,
    steps: &mut Steps<L>,
) -> Result<(), Halt>
    requires group { g < geo.now.agcount }
    requires room { geo.now.dblocks ≤ D.blocks dev.old Image }
    requires list { LieInside (group_len_of (layout geo.now) g) heads.now.list.items }
    requires chunks { LieIn (layout geo.now) g chunks.now }
    requires heads { (c : Contents) → D.content dev.old ≡ Some c → IsHeadsOf (layout geo.now) (c Image) g heads.now }
    ensures exact { (c : Contents) → D.content dev.old ≡ Some c → MappingsDone (layout geo.now) (c Image) g chunks.now set tally.old tally.new result }
    ensures added { AddsPart (IsMappingPart g) tally.old tally.new result }
    ensures kept { KeepsClaims (layout geo.now) (D.content dev.old) g chunks.now set tally.old steps.old.reads tally.new steps.new.reads result }
    ensures reading { OnlyRead D.Device dev.old dev.new steps.old steps.new }
    ensures cause { HasCause is_failed (D.faults dev.old) (D.faults dev.new) result }
{
    tally.begin()?;
    let judged = judge_unit(alloc, dev, geo, g, heads, chunks, set, steps)?;
    tally.add(alloc, g, Unit::Rmap, &judged)
}

// Checks the reverse mappings of one group, by its heads, chunks and claims among those of all groups.
fn check_claims_of<D: Device, L: Ledger>(
    alloc: Global,
    dev: &mut D,
    geo: &Geometry,
    heads: &[GroupHeads],
    inodes: &[GroupInodes],
    g: u32,
    sets: &mut [ClaimSet],
    tally: &mut Tally,
    steps: &mut Steps<L>,
) -> Result<(), Halt>
    requires group { g < geo.now.agcount }
    requires room { geo.now.dblocks ≤ D.blocks dev.old Image }
    requires all { length heads.now ≡ geo.now.agcount }
    requires accepted { AreAccepted (layout geo.now) 0 heads.now }
    requires heads { (c : Contents) → D.content dev.old ≡ Some c → AreHeads (layout geo.now) (c Image) 0 heads.now }
    requires inodes { length inodes.now ≡ geo.now.agcount }
    requires inside { LieInGroups (layout geo.now) inodes.now }
    requires sets { length sets.old ≡ geo.now.agcount }
    ensures exact { (c : Contents) → D.content dev.old ≡ Some c → ReadyDone (layout geo.now) (c Image) inodes.now sets.old g tally.old tally.new result }
    ensures added { AddsPart (IsMappingPart g) tally.old tally.new result }
    ensures kept { KeepsReady (layout geo.now) (D.content dev.old) g inodes.now sets.old tally.old steps.old.reads tally.new steps.new.reads result }
    ensures others { (h : ℕ) → g < h → pieces_at sets.new h ≡ pieces_at sets.old h }
    ensures groups { length sets.new ≡ length sets.old }
    ensures reading { OnlyRead D.Device dev.old dev.new steps.old steps.new }
    ensures cause { HasCause is_failed (D.faults dev.old) (D.faults dev.new) result }
{
    let set = take_set(alloc, sets, g);
    let chunks = inodes[g as usize].chunks.as_slice();
    check_mappings(
        alloc,
        dev,
        geo,
        g,
        &heads[g as usize],
        chunks,
        set,
        tally,
        steps,
    )
}

/// Checks the reverse mappings of these groups in order, where the inodes of all groups passed and no
/// fork is bad: `inodes` has the chunks of each group, and `sets` what all forks claim in it, which is
/// given back group by group. A journal that is full, a device that failed and want of memory end it,
/// each unit with all its entries or none (XFS Online Fsck Design, "Cross-Referencing Space Metadata").
pub fn check_mapping_part<D: Device, L: Ledger, W: Watch>(
    alloc: Global,
    dev: &mut D,
    geo: &Geometry,
    heads: &[GroupHeads],
    inodes: &[GroupInodes],
    part: Part,
    sets: &mut [ClaimSet],
    tally: &mut Tally,
    steps: &mut Steps<L>,
    watch: &mut W,
) -> Result<(), Halt>
    requires order { part.from ≤ part.to }
    requires part { part.to ≤ geo.now.agcount }
    requires room { geo.now.dblocks ≤ D.blocks dev.old Image }
    requires all { length heads.now ≡ geo.now.agcount }
    requires accepted { AreAccepted (layout geo.now) 0 heads.now }
    requires heads { (c : Contents) → D.content dev.old ≡ Some c → AreHeads (layout geo.now) (c Image) 0 heads.now }
    requires inodes { length inodes.now ≡ geo.now.agcount }
    requires inside { LieInGroups (layout geo.now) inodes.now }
    requires sets { length sets.old ≡ geo.now.agcount }
    requires ready { (c : Contents) → D.content dev.old ≡ Some c → AreReady (layout geo.now) (c Image) inodes.now sets.old }
    ensures exact { (c : Contents) → D.content dev.old ≡ Some c → ChecksMappings (layout geo.now) (c Image) part tally.old tally.new result }
    ensures added { AddsParts IsMappingPart part tally.old tally.new result }
    ensures kept { KeepsMappings (layout geo.now) (D.content dev.old) part tally.old steps.old.reads tally.new steps.new.reads result }
    ensures reading { OnlyRead D.Device dev.old dev.new steps.old steps.new }
    ensures cause { HasCause is_failed (D.faults dev.old) (D.faults dev.new) result }
{
    watch.begin(Phase::Mappings, groups_in(part));
    for g in part.from..part.to {
        check_claims_of(alloc, dev, geo, heads, inodes, g, sets, tally, steps)?;
        watch.pass(1);
    }
    Ok(())
}
