ghost use Rattle.std.specs.Prelude.{◌≡◌, ◌+◌, ◌*◌, ◌/◌, ◌<◌, ◌≤◌, ◌++◌, Some, IfOk, OnOk};
ghost use Rattle.blk_device.specs.Causes.{HasCause};
ghost use Rattle.blk_device.specs.Contents.{Contents};
ghost use Rattle.blk_device.specs.Reading.{OnlyRead};
ghost use Rattle.blk_device.specs.declared.device.Region.TheVariants.{Image};
ghost use Rattle.geom.specs.Layout.{group_len_of};
ghost use Rattle.geom.specs.Places.{layout};
ghost use Rattle.fs_state.specs.Lists.{numbers};
ghost use Rattle.inode_pass.specs.Notes.{AreFit, notes_of, unit_notes};
ghost use Rattle.inode_pass.specs.Stops.{is_failed};
ghost use Rattle.inode_pass.specs.Units.{AreSeen, unit_count, unit_numbers, units_in};
ghost use Rattle.run_sets.specs.Runs.{EndWithin};

use crate::ahead::{tell_first, tell_next};
use crate::note::ForkNote;
use crate::stop::PassStop;
use crate::unit::{UnitSeen, see_unit};
use blk_device::Device;
use byte_fields::Steps;
use geom::Geometry;
use run_sets::Run;
use std::alloc::Global;
use std::sync::ledger::Ledger;

// Reads the cores of one unit, and puts it and its notes behind those before.
fn see_one<D: Device, L: Ledger>(
    alloc: Global,
    dev: &mut D,
    geo: &Geometry,
    g: u32,
    unit: u32,
    seen: &mut Vec<UnitSeen>,
    notes: &mut Vec<ForkNote>,
    steps: &mut Steps<L>,
) -> Result<(), PassStop>
    requires group { g < geo.now.agcount }
    requires inside { unit < group_len_of (layout geo.now) g / 8 }
    requires room { geo.now.dblocks ≤ D.blocks dev.old Image }
    ensures exact { OnOk result ((c : Contents) → D.content dev.old ≡ Some c → AreSeen (layout geo.now) (c Image) g seen.old.items → AreSeen (layout geo.now) (c Image) g seen.new.items) }
    ensures units { OnOk result (unit_numbers seen.new.items ≡ unit_numbers seen.old.items ++ numbers unit 1) }
    ensures noted { OnOk result ((c : Contents) → D.content dev.old ≡ Some c → notes.new.items ≡ notes.old.items ++ unit_notes (layout geo.now) (c Image) g unit) }
    ensures fit { OnOk result (AreFit (layout geo.now) g notes.old.items → AreFit (layout geo.now) g notes.new.items) }
    ensures reading { OnlyRead D.Device dev.old dev.new steps.old steps.new }
    ensures cause { HasCause is_failed (D.faults dev.old) (D.faults dev.new) result }
    ensures few { steps.new.reads ≤ steps.old.reads + 8 }
{
    let found = see_unit(alloc, dev, geo, g, unit, notes, steps)?;
    seen.push(found)?;
    Ok(())
}

// Reads the cores of a run of units.
fn see_run<D: Device, L: Ledger>(
    alloc: Global,
    dev: &mut D,
    geo: &Geometry,
    g: u32,
    run: &Run,
    seen: &mut Vec<UnitSeen>,
    notes: &mut Vec<ForkNote>,
    steps: &mut Steps<L>,
) -> Result<(), PassStop>
    requires group { g < geo.now.agcount }
    requires inside { run.now.start + run.now.count ≤ group_len_of (layout geo.now) g / 8 }
    requires room { geo.now.dblocks ≤ D.blocks dev.old Image }
    ensures exact { OnOk result ((c : Contents) → D.content dev.old ≡ Some c → AreSeen (layout geo.now) (c Image) g seen.old.items → AreSeen (layout geo.now) (c Image) g seen.new.items) }
    ensures units { OnOk result (unit_numbers seen.new.items ≡ unit_numbers seen.old.items ++ numbers run.now.start run.now.count) }
    ensures noted { OnOk result ((c : Contents) → D.content dev.old ≡ Some c → notes.new.items ≡ notes.old.items ++ notes_of (layout geo.now) (c Image) g (numbers run.now.start run.now.count)) }
    ensures fit { OnOk result (AreFit (layout geo.now) g notes.old.items → AreFit (layout geo.now) g notes.new.items) }
    ensures reading { OnlyRead D.Device dev.old dev.new steps.old steps.new }
    ensures cause { HasCause is_failed (D.faults dev.old) (D.faults dev.new) result }
    ensures few { steps.new.reads ≤ steps.old.reads + 8 * run.now.count }
{
    for i in 0..run.count {
        see_one(alloc, dev, geo, g, run.start + i, seen, notes, steps)?;
    }
    Ok(())
}

/// Reads the cores of these units of group `g`, which lie in the group: of each unit which inodes
/// are free, where all 64 cores verify, and the first core that doesn't. Behind the notes it puts what
/// the cores of each unit show of their inodes' forks, where all of them verify. Each block of inodes is
/// read once, and the device is told of it before. A device that failed and want of memory are the refusals
/// (XFS Online Fsck Design, "Case Study: Rebuilding the AG Inode Records").
pub fn see_units<D: Device, L: Ledger>(
    alloc: Global,
    dev: &mut D,
    geo: &Geometry,
    g: u32,
    units: &[Run],
    notes: &mut Vec<ForkNote>,
    steps: &mut Steps<L>,
) -> Result<Vec<UnitSeen>, PassStop>
    requires group { g < geo.now.agcount }
    requires inside { EndWithin (group_len_of (layout geo.now) g / 8) units.now }
    requires room { geo.now.dblocks ≤ D.blocks dev.old Image }
    ensures exact { IfOk result (λ seen. (c : Contents) → D.content dev.old ≡ Some c → AreSeen (layout geo.now) (c Image) g seen.items) }
    ensures units { IfOk result (λ seen. unit_numbers seen.items ≡ units_in units.now) }
    ensures noted { OnOk result ((c : Contents) → D.content dev.old ≡ Some c → notes.new.items ≡ notes.old.items ++ notes_of (layout geo.now) (c Image) g (units_in units.now)) }
    ensures fit { OnOk result (AreFit (layout geo.now) g notes.old.items → AreFit (layout geo.now) g notes.new.items) }
    ensures reading { OnlyRead D.Device dev.old dev.new steps.old steps.new }
    ensures cause { HasCause is_failed (D.faults dev.old) (D.faults dev.new) result }
    ensures few { steps.new.reads ≤ steps.old.reads + 8 * unit_count units.now }
{
    let mut told = tell_first(dev, geo, g, units);
    let mut seen = Vec::new(alloc);
    for run in units {
        tell_next(dev, geo, g, units, &mut told);
        see_run(alloc, dev, geo, g, run, &mut seen, notes, steps)?;
    }
    Ok(seen)
}
