// What all forks claim, for who rebuilds the indexes of an image that nobody changes meanwhile.
ghost use Rattle.std.specs.Prelude.{◌≡◌, ◌≤◌, [], IfOk, IfSome, None, Some, length};
ghost use Rattle.blk_device.specs.Causes.{HasCause};
ghost use Rattle.blk_device.specs.Contents.{Contents};
ghost use Rattle.blk_device.specs.Reading.{OnlyRead};
ghost use Rattle.blk_device.specs.declared.device.Region.TheVariants.{Image};
ghost use Rattle.check_phases.specs.Checks.{AreAccepted, AreHeads};
ghost use Rattle.check_phases.specs.Session.{inode_fallen};
ghost use Rattle.fork_pass.specs.Passed.{AreChunks, AreNotes, FitInGroups};
ghost use Rattle.geom.specs.Places.{layout};
ghost use Rattle.image_check.specs.Owners.{HasOwners};
ghost use Rattle.inode_pass.specs.Units.{opened_state};
ghost use Rattle.space_check.specs.Progress.{is_failed};

use crate::image::{first_fallen, forks_of, take_inodes, take_passed, whole};
use blk_device::Device;
use byte_fields::Steps;
use check_phases::{Tally, check_inode_part, read_all_heads};
use check_watch::{NoWatch, Watch};
use fork_pass::ForksSeen;
use geom::Geometry;
use group_trees::GroupHeads;
use inode_pass::GroupInodes;
use space_check::Halt;
use std::alloc::Global;
use std::sync::ledger::Ledger;
use unit_plan::ClaimSet;

// What the forks of these inodes claim, which are those of all chunks.
fn owners_of<D: Device, L: Ledger, W: Watch>(
    alloc: Global,
    dev: &mut D,
    geo: &Geometry,
    mut inodes: Vec<GroupInodes>,
    steps: &mut Steps<L>,
    watch: &mut W,
) -> Result<Option<Vec<ClaimSet>>, Halt>
    requires room { geo.now.dblocks ≤ D.blocks dev.old Image }
    requires inodes { length inodes.items ≡ geo.now.agcount }
    requires fit { FitInGroups (layout geo.now) inodes.items }
    requires chunks { (c : Contents) → D.content dev.old ≡ Some c
        → AreChunks (opened_state (layout geo.now) (c Image)) inodes.items }
    requires notes { (c : Contents) → D.content dev.old ≡ Some c
        → AreNotes (layout geo.now) (c Image) inodes.items }
    ensures exact { IfOk result (λ found. (c : Contents) → D.content dev.old ≡ Some c
        → HasOwners (opened_state (layout geo.now) (c Image)) found) }
    ensures groups { IfOk result (λ found. IfSome found (λ sets. length sets.items ≡ geo.now.agcount)) }
    ensures reading { OnlyRead D.Device dev.old dev.new steps.old steps.new }
    ensures cause { HasCause is_failed (D.faults dev.old) (D.faults dev.new) result }
{
    match forks_of(alloc, dev, geo, &mut inodes, steps, watch) {
        Ok(ForksSeen::Claims(sets)) => Ok(Some(sets)),
        Ok(ForksSeen::GaveUp(_)) => Ok(None),
        Err(halt) => Err(halt),
    }
}

// The inodes of all groups as a check keeps them, where each group's pass.
fn passed_inodes<D: Device, L: Ledger>(
    alloc: Global,
    dev: &mut D,
    geo: &Geometry,
    heads: &[GroupHeads],
    steps: &mut Steps<L>,
) -> Result<Option<Vec<GroupInodes>>, Halt>
    requires room { geo.now.dblocks ≤ D.blocks dev.old Image }
    requires all { length heads.now ≡ geo.now.agcount }
    requires accepted { AreAccepted (layout geo.now) 0 heads.now }
    requires heads { (c : Contents) → D.content dev.old ≡ Some c
        → AreHeads (layout geo.now) (c Image) 0 heads.now }
    ensures all { IfOk result (λ found. IfSome found (λ inodes. length inodes.items ≡ geo.now.agcount)) }
    ensures fit { IfOk result (λ found. IfSome found (λ inodes. FitInGroups (layout geo.now) inodes.items)) }
    ensures chunks { IfOk result (λ found. IfSome found (λ inodes. (c : Contents) → D.content dev.old ≡ Some c
        → AreChunks (opened_state (layout geo.now) (c Image)) inodes.items)) }
    ensures notes { IfOk result (λ found. IfSome found (λ inodes. (c : Contents) → D.content dev.old ≡ Some c
        → AreNotes (layout geo.now) (c Image) inodes.items)) }
    ensures none { IfOk result (λ found. found ≡ None → (c : Contents) → D.content dev.old ≡ Some c
        → inode_fallen (opened_state (layout geo.now) (c Image)) ≡ None → ⊥) }
    ensures reading { OnlyRead D.Device dev.old dev.new steps.old steps.new }
    ensures cause { HasCause is_failed (D.faults dev.old) (D.faults dev.new) result }
{
    let mut tally = Tally::new(alloc);
    let mut watch = NoWatch;
    check_inode_part(
        alloc,
        dev,
        geo,
        heads,
        whole(geo),
        &mut tally,
        steps,
        &mut watch,
    )?;
    let inodes = take_inodes(alloc, &mut tally);
    let judged = take_passed(alloc, &mut tally);
    match first_fallen(judged.as_slice(), geo.agcount) {
        Some(_) => Ok(None),
        None => Ok(Some(inodes)),
    }
}

/// What the forks of all inodes claim, a set a group, by one pass over heads, inode btrees, cores and
/// forks; none exactly where the inodes of a group don't pass a check, or a fork can't be read. A device
/// that failed and want of memory are the refusals, and nothing is written
/// (XFS Online Fsck Design, "Inode Scans").
pub fn fork_owners<D: Device, L: Ledger, W: Watch>(
    alloc: Global,
    dev: &mut D,
    geo: &Geometry,
    steps: &mut Steps<L>,
    watch: &mut W,
) -> Result<Option<Vec<ClaimSet>>, Halt>
    requires room { geo.now.dblocks ≤ D.blocks dev.old Image }
    ensures exact { IfOk result (λ found. (c : Contents) → D.content dev.old ≡ Some c
        → HasOwners (opened_state (layout geo.now) (c Image)) found) }
    ensures groups { IfOk result (λ found. IfSome found (λ sets. length sets.items ≡ geo.now.agcount)) }
    ensures reading { OnlyRead D.Device dev.old dev.new steps.old steps.new }
    ensures cause { HasCause is_failed (D.faults dev.old) (D.faults dev.new) result }
{
    let heads = read_all_heads(alloc, dev, geo, steps)?;
    match passed_inodes(alloc, dev, geo, heads.as_slice(), steps)? {
        Some(inodes) => owners_of(alloc, dev, geo, inodes, steps, watch),
        None => Ok(None),
    }
}
