ghost use Rattle.std.specs.Prelude.{◌≡◌, ◌-◌, ◌<◌, ◌≤◌, Some, OnOk, length};
ghost use Rattle.blk_device.specs.Causes.{HasCause};
ghost use Rattle.blk_device.specs.Contents.{Contents};
ghost use Rattle.blk_device.specs.Reading.{OnlyRead};
ghost use Rattle.blk_device.specs.declared.device.Region.TheVariants.{Image};
ghost use Rattle.check_phases.specs.Checks.{AreAccepted, AreHeads, AreReadable, ChecksInode, ChecksInodes, ChecksSpaceOf, ChecksSpaces};
ghost use Rattle.check_phases.specs.InodesKept.{PutsInodes};
ghost use Rattle.check_phases.specs.Kept.{KeepsGroup, KeepsPart};
ghost use Rattle.check_phases.specs.Parts.{AddsPart, AddsParts, IsInodePart, IsSpacePart};
ghost use Rattle.check_phases.specs.Phases.{Inodes, Space, lacks_mappings, lacks_nothing};
ghost use Rattle.geom.specs.Places.{layout};
ghost use Rattle.inode_pass.specs.Units.{opened_state};
ghost use Rattle.space_check.specs.Progress.{is_failed};

use crate::inodes::check_inodes;
use crate::space::check_space;
use crate::tally::Tally;
use blk_device::Device;
use byte_fields::Steps;
use check_watch::{Phase, Watch};
use geom::Geometry;
use group_trees::GroupHeads;
use space_check::Halt;
use std::alloc::Global;
use std::sync::ledger::Ledger;

/// Groups of a check, from group `from` to below group `to`
/// (XFS Algorithms and Data Structures, "Allocation Groups").
#[derive(Clone, Copy, Debug, PartialEq, Eq)]
pub struct Part {
    pub from: u32,
    pub to: u32,
}

/// How many groups these are (XFS Algorithms and Data Structures, "Allocation Groups").
pub fn groups_in(part: Part) -> u64
    requires order { part.from ≤ part.to }
    ensures { result ≡ part.to - part.from }
{
    u64::from(part.to - part.from)
}

// Checks the inodes of one group, by its heads among those of all groups.
fn check_inodes_of<D: Device, L: Ledger>(
    alloc: Global,
    dev: &mut D,
    geo: &Geometry,
    heads: &[GroupHeads],
    g: u32,
    tally: &mut Tally,
    steps: &mut Steps<L>,
) -> Result<(), Halt>
    requires group { g < geo.now.agcount }
    requires room { geo.now.dblocks ≤ D.blocks dev.old Image }
    requires all { length heads.now ≡ geo.now.agcount }
    requires accepted { AreAccepted (layout geo.now) 0 heads.now }
    requires heads { (c : Contents) → D.content dev.old ≡ Some c → AreHeads (layout geo.now) (c Image) 0 heads.now }
    ensures exact { (c : Contents) → D.content dev.old ≡ Some c → ChecksInode (layout geo.now) (c Image) g tally.old tally.new result }
    ensures added { AddsPart (IsInodePart g) tally.old tally.new result }
    ensures inodes { OnOk result (PutsInodes (layout geo.now) (D.content dev.old) g 1 tally.old.inodes.items tally.new.inodes.items) }
    ensures kept { KeepsGroup (layout geo.now) (D.content dev.old) Inodes lacks_nothing g tally.old steps.old.reads tally.new steps.new.reads result }
    ensures reading { OnlyRead D.Device dev.old dev.new steps.old steps.new }
    ensures cause { HasCause is_failed (D.faults dev.old) (D.faults dev.new) result }
{
    check_inodes(alloc, dev, geo, g, &heads[g as usize], tally, steps)
}

/// Checks the inodes of these groups: the unit of each group with its faults and its verdict, or given
/// up with the first evidence, in the groups' order. Of each group whose inodes could be judged its chunks
/// are kept, and what their cores show of the forks. A journal that is full, a device that failed and want
/// of memory end it, each unit with all its entries or none
/// (XFS Online Fsck Design, "Metadata Scrubbing").
pub fn check_inode_part<D: Device, L: Ledger, W: Watch>(
    alloc: Global,
    dev: &mut D,
    geo: &Geometry,
    heads: &[GroupHeads],
    part: Part,
    tally: &mut Tally,
    steps: &mut Steps<L>,
    watch: &mut W,
) -> Result<(), Halt>
    requires order { part.from ≤ part.to }
    requires part { part.to ≤ geo.now.agcount }
    requires room { geo.now.dblocks ≤ D.blocks dev.old Image }
    requires all { length heads.now ≡ geo.now.agcount }
    requires accepted { AreAccepted (layout geo.now) 0 heads.now }
    requires heads { (c : Contents) → D.content dev.old ≡ Some c → AreHeads (layout geo.now) (c Image) 0 heads.now }
    ensures exact { (c : Contents) → D.content dev.old ≡ Some c → ChecksInodes (layout geo.now) (c Image) part tally.old tally.new result }
    ensures added { AddsParts IsInodePart part tally.old tally.new result }
    ensures inodes { OnOk result (PutsInodes (layout geo.now) (D.content dev.old) part.from (part.to - part.from) tally.old.inodes.items tally.new.inodes.items) }
    ensures kept { KeepsPart (layout geo.now) (D.content dev.old) Inodes lacks_nothing part tally.old steps.old.reads tally.new steps.new.reads result }
    ensures reading { OnlyRead D.Device dev.old dev.new steps.old steps.new }
    ensures cause { HasCause is_failed (D.faults dev.old) (D.faults dev.new) result }
{
    watch.begin(Phase::Inodes, groups_in(part));
    for g in part.from..part.to {
        check_inodes_of(alloc, dev, geo, heads, g, tally, steps)?;
        watch.pass(1);
    }
    Ok(())
}

// Checks free space and reference counts of one group, by its heads among those of all groups.
fn check_space_of<D: Device, L: Ledger>(
    alloc: Global,
    dev: &mut D,
    geo: &Geometry,
    heads: &[GroupHeads],
    g: u32,
    passed: &[bool],
    tally: &mut Tally,
    steps: &mut Steps<L>,
) -> Result<(), Halt>
    requires group { g < geo.now.agcount }
    requires room { geo.now.dblocks ≤ D.blocks dev.old Image }
    requires all { length heads.now ≡ geo.now.agcount }
    requires heads { (c : Contents) → D.content dev.old ≡ Some c → AreHeads (layout geo.now) (c Image) 0 heads.now }
    requires readable { (c : Contents) → D.content dev.old ≡ Some c → AreReadable (opened_state (layout geo.now) (c Image)) passed.now }
    ensures exact { (c : Contents) → D.content dev.old ≡ Some c → ChecksSpaceOf (layout geo.now) (c Image) passed.now g tally.old tally.new result }
    ensures added { AddsPart (IsSpacePart g) tally.old tally.new result }
    ensures inodes { tally.new.inodes ≡ tally.old.inodes }
    ensures kept { KeepsGroup (layout geo.now) (D.content dev.old) Space (lacks_mappings passed.now) g tally.old steps.old.reads tally.new steps.new.reads result }
    ensures reading { OnlyRead D.Device dev.old dev.new steps.old steps.new }
    ensures cause { HasCause is_failed (D.faults dev.old) (D.faults dev.new) result }
{
    let agf = &heads[g as usize].agf;
    check_space(alloc, dev, geo, g, agf, passed, tally, steps)
}

/// Checks free space and then reference counts of each of these groups in order; both are skipped where
/// the group's reverse mappings didn't pass, as `passed` says of each group. A journal that is full, a
/// device that failed and want of memory end it, each unit with all its entries or none
/// (XFS Online Fsck Design, "Cross-Referencing Space Metadata").
pub fn check_space_part<D: Device, L: Ledger, W: Watch>(
    alloc: Global,
    dev: &mut D,
    geo: &Geometry,
    heads: &[GroupHeads],
    part: Part,
    passed: &[bool],
    tally: &mut Tally,
    steps: &mut Steps<L>,
    watch: &mut W,
) -> Result<(), Halt>
    requires order { part.from ≤ part.to }
    requires part { part.to ≤ geo.now.agcount }
    requires room { geo.now.dblocks ≤ D.blocks dev.old Image }
    requires all { length heads.now ≡ geo.now.agcount }
    requires heads { (c : Contents) → D.content dev.old ≡ Some c → AreHeads (layout geo.now) (c Image) 0 heads.now }
    requires readable { (c : Contents) → D.content dev.old ≡ Some c → AreReadable (opened_state (layout geo.now) (c Image)) passed.now }
    ensures exact { (c : Contents) → D.content dev.old ≡ Some c → ChecksSpaces (layout geo.now) (c Image) part passed.now tally.old tally.new result }
    ensures added { AddsParts IsSpacePart part tally.old tally.new result }
    ensures inodes { tally.new.inodes ≡ tally.old.inodes }
    ensures kept { KeepsPart (layout geo.now) (D.content dev.old) Space (lacks_mappings passed.now) part
        tally.old steps.old.reads tally.new steps.new.reads result }
    ensures reading { OnlyRead D.Device dev.old dev.new steps.old steps.new }
    ensures cause { HasCause is_failed (D.faults dev.old) (D.faults dev.new) result }
{
    watch.begin(Phase::Space, groups_in(part));
    for g in part.from..part.to {
        check_space_of(alloc, dev, geo, heads, g, passed, tally, steps)?;
        watch.pass(1);
    }
    Ok(())
}
