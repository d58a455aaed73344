// The cores of the units that are listed, some at a time.
ghost use Rattle.std.specs.Prelude.{◌≡◌, ℕ, ◌+◌, ◌*◌, ◌/◌, ◌<◌, ◌≤◌, ◌++◌, [], Some, true, IfNone, IfOk, IfSome, OnErr, OnOk};
ghost use Rattle.blk_device.specs.Causes.{HasCause};
ghost use Rattle.blk_device.specs.Contents.{Contents};
ghost use Rattle.blk_device.specs.Reading.{OnlyRead};
ghost use Rattle.blk_device.specs.declared.device.Region.TheVariants.{Image};
ghost use Rattle.core_units.specs.Cores.{SeesNext, units_left};
ghost use Rattle.geom.specs.Layout.{group_len_of};
ghost use Rattle.geom.specs.Places.{layout};
ghost use Rattle.inode_pass.specs.Stops.{is_failed};
ghost use Rattle.inode_pass.specs.Units.{AreSeen, unit_numbers};
ghost use Rattle.run_sets.specs.Runs.{EndWithin, most};

use blk_device::Device;
use byte_fields::Steps;
use geom::Geometry;
use inode_pass::{PassStop, UnitSeen, see_units};
use run_sets::Run;
use std::alloc::Global;
use std::sync::ledger::Ledger;

/// So many units' cores are read at once at most, each of 8 blocks.
pub const CORES_PIECE: u32 = 100;

/// How far the listed units were seen: the run, and how many units of it.
#[derive(Clone, Copy, Debug, PartialEq, Eq)]
pub struct UnitPlace {
    pub run: usize,
    pub passed: u32,
}

// The units that are seen next, with the place behind them; none where all were.
fn next_units(units: &[Run], at: &UnitPlace) -> Option<(Run, UnitPlace)>
    requires { EndWithin most units.now }
    ensures some { IfSome result (λ next. SeesNext units.now at.now next.0 next.1) }
    ensures none { IfNone result (units_left units.now at.now ≡ []) }
{
    if at.run >= units.len() {
        return None;
    }
    let run = units[at.run];
    let behind = UnitPlace {
        run: at.run + 1,
        passed: 0,
    };
    if at.passed >= run.count {
        let nothing = Run {
            start: run.start,
            count: 0,
        };
        return Some((nothing, behind));
    }
    let start = run.start + at.passed;
    let left = run.count - at.passed;
    if left > CORES_PIECE {
        let some = Run {
            start,
            count: CORES_PIECE,
        };
        let here = UnitPlace {
            run: at.run,
            passed: at.passed + CORES_PIECE,
        };
        return Some((some, here));
    }
    Some((Run { start, count: left }, behind))
}

/// Reads the cores of the next units, at most 100 of them, and answers whether all units are seen
/// (XFS Online Fsck Design, "Case Study: Rebuilding the AG Inode Records").
pub fn gather_cores<D: Device, L: Ledger>(
    alloc: Global,
    dev: &mut D,
    geo: &Geometry,
    g: u32,
    units: &[Run],
    at: &mut UnitPlace,
    seen: &mut Vec<UnitSeen>,
    steps: &mut Steps<L>,
) -> Result<bool, PassStop>
    requires group { g < geo.now.agcount }
    requires room { geo.now.dblocks ≤ D.blocks dev.old Image }
    requires inside { EndWithin (group_len_of (layout geo.now) g / 8) units.now }
    ensures left { OnOk result (unit_numbers seen.new.items ++ units_left units.now at.new ≡ unit_numbers seen.old.items ++ units_left units.now at.old) }
    ensures done { IfOk result (λ done. done ≡ true → units_left units.now at.new ≡ []) }
    ensures exact { (c : Contents) → D.content dev.old ≡ Some c → AreSeen (layout geo.now) (c Image) g seen.old.items → OnOk result (AreSeen (layout geo.now) (c Image) g seen.new.items) }
    ensures kept { OnErr result (seen.new.items ≡ seen.old.items) }
    ensures place { OnErr result (at.new ≡ at.old) }
    ensures reading { OnlyRead D.Device dev.old dev.new steps.old steps.new }
    ensures cause { HasCause is_failed (D.faults dev.old) (D.faults dev.new) result }
    ensures few { steps.new.reads ≤ steps.old.reads + 800 }
{
    let Some((run, behind)) = next_units(units, at) else {
        return Ok(true);
    };
    // What the cores show of their forks was scanned before.
    let mut notes = Vec::new(alloc);
    let found = see_units(alloc, dev, geo, g, &[run], &mut notes, steps)?;
    seen.extend_from_slice(found.as_slice())?;
    *at = behind;
    Ok(behind.run >= units.len())
}
