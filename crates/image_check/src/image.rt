ghost use Rattle.std.specs.Prelude.{◌≡◌, ◌+◌, ◌<◌, ◌≤◌, [], None, Some, IfErr, IfOk, IfSome, get_or, length, not, true};
ghost use Rattle.blk_device.specs.Causes.{HasCause};
ghost use Rattle.blk_device.specs.Contents.{Contents};
ghost use Rattle.blk_device.specs.Reading.{OnlyRead};
ghost use Rattle.blk_device.specs.declared.device.Region.TheVariants.{Image};
ghost use Rattle.check_phases.specs.Checks.{AreAccepted, AreHeads};
ghost use Rattle.check_phases.specs.Kept.{KeepsTold};
ghost use Rattle.check_phases.specs.Parts.{AddsPart, AreParts};
ghost use Rattle.fork_pass.specs.Counted.{forks_most};
ghost use Rattle.fork_pass.specs.Passed.{AreChunks, AreNotes, FitInGroups, HasSets, IsPass, LieInGroups, notes_at, units_at};
ghost use Rattle.check_phases.specs.Session.{inode_fallen};
ghost use Rattle.geom.specs.Places.{layout};
ghost use Rattle.image_check.specs.Checked.{AllPass, ChecksAll, ChecksUnits, IsFirstFallen};
ghost use Rattle.image_check.specs.Kept.{KeepsAll, KeepsUnits, mappings_kept};
ghost use Rattle.inode_pass.specs.Units.{opened_state};
ghost use Rattle.image_check.specs.Inodes.{AreKeptOf};
ghost use Rattle.image_check.specs.Mappings.{AreReady};
ghost use Rattle.image_check.specs.Units.{AreMappings, EndsInUnits, IsMappingPart};
ghost use Rattle.space_check.specs.Events.{most_entries};
ghost use Rattle.space_check.specs.Progress.{is_failed, IsOutside};

use crate::mappings::check_mapping_part;
use crate::parts::{give_up_part, skip_part};
use blk_device::Device;
use byte_fields::Steps;
use check_phases::{
    Part, Tally, check_inode_part, check_space_part, passed_can_be_read, phases_are_session,
};
use check_watch::Watch;
use fork_pass::{ForksSeen, read_forks};
use fs_model::Unit;
use geom::Geometry;
use group_trees::GroupHeads;
use inode_pass::GroupInodes;
use space_check::Halt;
use std::alloc::Global;
use std::mem;
use std::sync::ledger::Ledger;
use unit_plan::ClaimSet;

/// All groups.
pub(crate) fn whole(geo: &Geometry) -> Part
    ensures from { result.from ≡ 0 }
    ensures to { result.to ≡ geo.now.agcount }
{
    Part {
        from: 0,
        to: geo.agcount,
    }
}

/// The units of a phase, of which each passed or not; the next phase is put down anew.
pub(crate) fn take_passed(alloc: Global, tally: &mut Tally) -> Vec<bool>
    ensures taken { result.items ≡ tally.old.passed.items }
    ensures fresh { tally.new.passed.items ≡ [] }
    ensures journal { tally.new.journal ≡ tally.old.journal }
{
    let fresh = Vec::new(alloc);
    mem::replace(&mut tally.passed, fresh)
}

/// What was kept of the inodes of each group; the tally has none of it then.
pub(crate) fn take_inodes(alloc: Global, tally: &mut Tally) -> Vec<GroupInodes>
    ensures taken { result.items ≡ tally.old.inodes.items }
    ensures passed { tally.new.passed.items ≡ tally.old.passed.items }
    ensures journal { tally.new.journal ≡ tally.old.journal }
{
    let fresh = Vec::new(alloc);
    mem::replace(&mut tally.inodes, fresh)
}

/// Reads the forks of all inodes, with the stops of a check.
pub(crate) fn forks_of<D: Device, L: Ledger, W: Watch>(
    alloc: Global,
    dev: &mut D,
    geo: &Geometry,
    inodes: &mut [GroupInodes],
    steps: &mut Steps<L>,
    watch: &mut W,
) -> Result<ForksSeen, Halt>
    requires inodes { length inodes.old ≡ geo.now.agcount }
    requires fit { FitInGroups (layout geo.now) inodes.old }
    requires room { geo.now.dblocks ≤ D.blocks dev.old Image }
    ensures exact { IfOk result (λ seen. (c : Contents) → D.content dev.old ≡ Some c → IsPass (layout geo.now) inodes.old (c Image) seen) }
    ensures groups { IfOk result (HasSets geo.now.agcount) }
    ensures units { units_at inodes.new ≡ units_at inodes.old }
    ensures all { length inodes.new ≡ length inodes.old }
    ensures outside { IfErr result IsOutside }
    ensures counted { (c : Contents) → D.content dev.old ≡ Some c → steps.new.reads ≤ steps.old.reads + forks_most (layout geo.now) (c Image) (notes_at inodes.old) }
    ensures reading { OnlyRead D.Device dev.old dev.new steps.old steps.new }
    ensures cause { HasCause is_failed (D.faults dev.old) (D.faults dev.new) result }
{
    let seen = read_forks(alloc, dev, geo, inodes, steps, watch)?;
    Ok(seen)
}

// Whether a unit didn't pass.
fn has_fallen(passed: &[bool], g: u32) -> bool
    ensures { result ≡ not (get_or passed.now g true) }
{
    match passed.get(g as usize) {
        Some(passed) => !*passed,
        None => false,
    }
}

/// The first group whose unit didn't pass.
pub(crate) fn first_fallen(passed: &[bool], groups: u32) -> Option<u32>
    ensures { IsFirstFallen passed.now groups result }
{
    for g in 0..groups {
        if has_fallen(passed, g) {
            return Some(g);
        }
    }
    None
}

// Checks the reverse mappings of all groups by what all forks claim.
fn check_by_sets<D: Device, L: Ledger, W: Watch>(
    alloc: Global,
    dev: &mut D,
    geo: &Geometry,
    heads: &[GroupHeads],
    inodes: &[GroupInodes],
    mut sets: Vec<ClaimSet>,
    tally: &mut Tally,
    steps: &mut Steps<L>,
    watch: &mut W,
) -> Result<(), Halt>
    requires room { geo.now.dblocks ≤ D.blocks dev.old Image }
    requires all { length heads.now ≡ geo.now.agcount }
    requires accepted { AreAccepted (layout geo.now) 0 heads.now }
    requires heads { (c : Contents) → D.content dev.old ≡ Some c → AreHeads (layout geo.now) (c Image) 0 heads.now }
    requires inodes { length inodes.now ≡ geo.now.agcount }
    requires inside { LieInGroups (layout geo.now) inodes.now }
    requires sets { length sets.items ≡ geo.now.agcount }
    requires ready { (c : Contents) → D.content dev.old ≡ Some c → AreReady (layout geo.now) (c Image) inodes.now sets.items }
    ensures exact { (c : Contents) → D.content dev.old ≡ Some c → ChecksAll (layout geo.now) (c Image) None tally.old tally.new result }
    ensures added { AddsPart (AreParts IsMappingPart geo.now.agcount) tally.old tally.new result }
    ensures kept { KeepsTold (D.content dev.old) (mappings_kept (layout geo.now) 0 geo.now.agcount) tally.old steps.old.reads tally.new steps.new.reads result }
    ensures reading { OnlyRead D.Device dev.old dev.new steps.old steps.new }
    ensures cause { HasCause is_failed (D.faults dev.old) (D.faults dev.new) result }
{
    let part = whole(geo);
    check_mapping_part(
        alloc, dev, geo, heads, inodes, part, &mut sets, tally, steps, watch,
    )
}

// Checks the reverse mappings of all groups by the forks of all inodes, by what was kept of these.
fn check_by_forks<D: Device, L: Ledger, W: Watch>(
    alloc: Global,
    dev: &mut D,
    geo: &Geometry,
    heads: &[GroupHeads],
    inodes: &mut [GroupInodes],
    tally: &mut Tally,
    steps: &mut Steps<L>,
    watch: &mut W,
) -> Result<(), Halt>
    requires room { geo.now.dblocks ≤ D.blocks dev.old Image }
    requires all { length heads.now ≡ geo.now.agcount }
    requires accepted { AreAccepted (layout geo.now) 0 heads.now }
    requires heads { (c : Contents) → D.content dev.old ≡ Some c → AreHeads (layout geo.now) (c Image) 0 heads.now }
    requires inodes { length inodes.old ≡ geo.now.agcount }
    requires inside { LieInGroups (layout geo.now) inodes.old }
    requires fit { FitInGroups (layout geo.now) inodes.old }
    requires chunks { (c : Contents) → D.content dev.old ≡ Some c → AreChunks (opened_state (layout geo.now) (c Image)) inodes.old }
    requires notes { (c : Contents) → D.content dev.old ≡ Some c → AreNotes (layout geo.now) (c Image) inodes.old }
    ensures exact { (c : Contents) → D.content dev.old ≡ Some c → ChecksAll (layout geo.now) (c Image) None tally.old tally.new result }
    ensures added { AddsPart (AreParts IsMappingPart geo.now.agcount) tally.old tally.new result }
    ensures kept { KeepsAll (layout geo.now) (D.content dev.old) None tally.old steps.old.reads tally.new steps.new.reads result }
    ensures reading { OnlyRead D.Device dev.old dev.new steps.old steps.new }
    ensures cause { HasCause is_failed (D.faults dev.old) (D.faults dev.new) result }
{
    tally.begin()?;
    let forks = forks_of(alloc, dev, geo, inodes, steps, watch)?;
    match forks {
        ForksSeen::GaveUp(evidence) => give_up_part(alloc, whole(geo), evidence, tally),
        ForksSeen::Claims(sets) => {
            check_by_sets(alloc, dev, geo, heads, inodes, sets, tally, steps, watch)
        }
    }
}

// Checks the reverse mappings of all groups by what was kept of their inodes, or skips them for the first
// group whose inodes didn't pass: nothing at all is read then.
fn check_all_mappings<D: Device, L: Ledger, W: Watch>(
    alloc: Global,
    dev: &mut D,
    geo: &Geometry,
    heads: &[GroupHeads],
    fallen: Option<u32>,
    mut inodes: Vec<GroupInodes>,
    tally: &mut Tally,
    steps: &mut Steps<L>,
    watch: &mut W,
) -> Result<(), Halt>
    requires room { geo.now.dblocks ≤ D.blocks dev.old Image }
    requires all { length heads.now ≡ geo.now.agcount }
    requires accepted { AreAccepted (layout geo.now) 0 heads.now }
    requires heads { (c : Contents) → D.content dev.old ≡ Some c → AreHeads (layout geo.now) (c Image) 0 heads.now }
    requires first { (c : Contents) → D.content dev.old ≡ Some c → fallen ≡ inode_fallen (opened_state (layout geo.now) (c Image)) }
    requires below { IfSome fallen (λ g. g < geo.now.agcount) }
    requires inodes { length inodes.items ≡ geo.now.agcount }
    requires inside { LieInGroups (layout geo.now) inodes.items }
    requires fit { FitInGroups (layout geo.now) inodes.items }
    requires kept { (c : Contents) → D.content dev.old ≡ Some c → AreKeptOf (layout geo.now) (c Image) inodes.items }
    ensures exact { (c : Contents) → D.content dev.old ≡ Some c → ChecksAll (layout geo.now) (c Image) fallen tally.old tally.new result }
    ensures added { AddsPart (AreMappings geo.now.agcount) tally.old tally.new result }
    ensures kept { KeepsAll (layout geo.now) (D.content dev.old) fallen tally.old steps.old.reads tally.new steps.new.reads result }
    ensures unread { IfSome fallen (λ g. steps.new.reads ≡ steps.old.reads) }
    ensures reading { OnlyRead D.Device dev.old dev.new steps.old steps.new }
    ensures cause { HasCause is_failed (D.faults dev.old) (D.faults dev.new) result }
{
    match fallen {
        Some(g) => skip_part(whole(geo), (g, Unit::Inode), tally),
        None => check_by_forks(alloc, dev, geo, heads, &mut inodes, tally, steps, watch),
    }
}

/// Checks all units of all groups, whose heads were accepted, in the order of a session: the inodes of
/// every group, then the reverse mappings of every group, then free space and reference counts group by
/// group, each with its faults and its verdict, given up with the first evidence, or skipped for the
/// first unit that it needs and that didn't pass. A block of inodes is read again only where one of them
/// has a fork that its core doesn't show. A journal that is full, a device that failed and want of memory
/// end it, each unit with all its entries or none (XFS Online Fsck Design, "Metadata Scrubbing").
pub fn check_units<D: Device, L: Ledger, W: Watch>(
    alloc: Global,
    dev: &mut D,
    geo: &Geometry,
    heads: &[GroupHeads],
    tally: &mut Tally,
    steps: &mut Steps<L>,
    watch: &mut W,
) -> Result<(), Halt>
    requires room { geo.now.dblocks ≤ D.blocks dev.old Image }
    requires all { length heads.now ≡ geo.now.agcount }
    requires accepted { AreAccepted (layout geo.now) 0 heads.now }
    requires heads { (c : Contents) → D.content dev.old ≡ Some c → AreHeads (layout geo.now) (c Image) 0 heads.now }
    requires begun { tally.old.passed.items ≡ [] }
    requires fresh { tally.old.inodes.items ≡ [] }
    ensures exact { (c : Contents) → D.content dev.old ≡ Some c → ChecksUnits (layout geo.now) (c Image) tally.old tally.new result }
    ensures session { EndsInUnits geo.now.agcount tally.old.journal.entries.items tally.new.journal.entries.items result }
    ensures kept { KeepsUnits (layout geo.now) (D.content dev.old) tally.old steps.old.reads tally.new steps.new.reads result }
    ensures reading { OnlyRead D.Device dev.old dev.new steps.old steps.new }
    ensures cause { HasCause is_failed (D.faults dev.old) (D.faults dev.new) result }
{
    phases_are_session();
    passed_can_be_read();
    check_inode_part(alloc, dev, geo, heads, whole(geo), tally, steps, watch)?;
    let inodes = take_inodes(alloc, tally);
    let judged = take_passed(alloc, tally);
    let fallen = first_fallen(judged.as_slice(), geo.agcount);
    check_all_mappings(alloc, dev, geo, heads, fallen, inodes, tally, steps, watch)?;
    let mappings = take_passed(alloc, tally);
    let passed = mappings.as_slice();
    check_space_part(
        alloc,
        dev,
        geo,
        heads,
        whole(geo),
        passed,
        tally,
        steps,
        watch,
    )
}
