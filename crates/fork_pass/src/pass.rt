ghost use Rattle.std.specs.Prelude.{◌≡◌, ◌≤◌, length, Some, IfOk};
ghost use Rattle.blk_device.specs.Causes.{HasCause};
ghost use Rattle.blk_device.specs.Contents.{Contents};
ghost use Rattle.blk_device.specs.Reading.{OnlyRead};
ghost use Rattle.blk_device.specs.declared.device.Region.TheVariants.{Image};
ghost use Rattle.fork_pass.specs.Passed.{FitInGroups, HasSets, IsPass, units_at};
ghost use Rattle.fork_pass.specs.Told.{CountsForks, PassesGroups};
ghost use Rattle.geom.specs.Places.{layout};
ghost use Rattle.inode_pass.specs.Stops.{is_failed};

use crate::notes::{inodes_of, pass_group};
use crate::sets::fresh_sets;
use blk_device::Device;
use byte_fields::Steps;
use check_watch::{Phase, Watch};
use fs_model::Evidence;
use geom::Geometry;
use inode_pass::{GroupInodes, PassStop};
use std::alloc::Global;
use std::sync::ledger::Ledger;
use unit_plan::ClaimSet;

/// What a pass over all forks found: what they claim in each group, or the first one that can't be
/// read (XFS Online Fsck Design, "Cross-Referencing Space Metadata").
#[derive(Drop)]
pub enum ForksSeen {
    Claims(Vec<ClaimSet>),
    GaveUp(Evidence),
}

// How many inodes all groups have, for a person who waits: no clause speaks of it.
fn inodes_in(inodes: &[GroupInodes]) -> u64 {
    let mut all: u64 = 0;
    for group in inodes {
        all = all.saturating_add(inodes_of(group.chunks.as_slice()));
    }
    all
}

// Passes the inodes of all groups.
fn pass_groups<D: Device, L: Ledger, W: Watch>(
    alloc: Global,
    dev: &mut D,
    geo: &Geometry,
    inodes: &mut [GroupInodes],
    sets: &mut [ClaimSet],
    steps: &mut Steps<L>,
    watch: &mut W,
) -> Result<Option<Evidence>, PassStop>
    requires all { length inodes.old ≡ geo.now.agcount }
    requires fit { FitInGroups (layout geo.now) inodes.old }
    requires room { geo.now.dblocks ≤ D.blocks dev.old Image }
    requires groups { length sets.old ≡ geo.now.agcount }
    ensures exact { PassesGroups (layout geo.now) (D.content dev.old) inodes.old sets.old result sets.new }
    ensures units { units_at inodes.new ≡ units_at inodes.old }
    ensures all { length inodes.new ≡ length inodes.old }
    ensures groups { length sets.new ≡ length sets.old }
    ensures each { CountsForks (layout geo.now) (D.content dev.old) inodes.old steps.old.reads steps.new.reads }
    ensures reading { OnlyRead D.Device dev.old dev.new steps.old steps.new }
    ensures cause { HasCause is_failed (D.faults dev.old) (D.faults dev.new) result }
{
    for g in 0..geo.agcount {
        match pass_group(alloc, dev, geo, g, inodes, sets, steps, watch)? {
            None => {}
            Some(found) => return Ok(Some(found)),
        }
    }
    Ok(None)
}

/// Reads every fork of every allocated inode of all groups, once, by what was kept of the inodes of
/// each: its chunks, and what the cores showed of the forks. A mapping that an inode itself holds was
/// noted; of the blocks of inodes only those are read that were noted, each once, and each block of a
/// fork's btree as `see_fork` reads it. What the forks claim is put into a set a group, in 40 bytes a
/// piece: a mapping, or a block of a fork's btree. The first fork that can't be read ends it, the data
/// fork's fault before the other's. The notes are taken out, and go group by group; the chunks stay. A
/// device that failed and want of memory are the refusals (XFS Online Fsck Design, "Inode Scans").
pub fn read_forks<D: Device, L: Ledger, W: Watch>(
    alloc: Global,
    dev: &mut D,
    geo: &Geometry,
    inodes: &mut [GroupInodes],
    steps: &mut Steps<L>,
    watch: &mut W,
) -> Result<ForksSeen, PassStop>
    requires all { length inodes.old ≡ geo.now.agcount }
    requires fit { FitInGroups (layout geo.now) inodes.old }
    requires room { geo.now.dblocks ≤ D.blocks dev.old Image }
    ensures exact { IfOk result (λ seen. (c : Contents) → D.content dev.old ≡ Some c → IsPass (layout geo.now) inodes.old (c Image) seen) }
    ensures groups { IfOk result (HasSets geo.now.agcount) }
    ensures units { units_at inodes.new ≡ units_at inodes.old }
    ensures all { length inodes.new ≡ length inodes.old }
    ensures each { CountsForks (layout geo.now) (D.content dev.old) inodes.old steps.old.reads steps.new.reads }
    ensures reading { OnlyRead D.Device dev.old dev.new steps.old steps.new }
    ensures cause { HasCause is_failed (D.faults dev.old) (D.faults dev.new) result }
{
    watch.begin(Phase::Forks, inodes_in(inodes));
    let mut sets = fresh_sets(alloc, geo.agcount)?;
    match pass_groups(alloc, dev, geo, inodes, &mut sets, steps, watch)? {
        Some(evidence) => Ok(ForksSeen::GaveUp(evidence)),
        None => Ok(ForksSeen::Claims(sets)),
    }
}
