// Tells a device which units' blocks will be read.
ghost use Rattle.std.specs.Prelude.{◌+◌, ◌/◌, ◌<◌, ◌≤◌};
ghost use Rattle.blk_device.specs.Reading.{OnlyTold};
ghost use Rattle.geom.specs.Layout.{group_len_of};
ghost use Rattle.geom.specs.Places.{layout};
ghost use Rattle.run_sets.specs.Runs.{EndWithin};

use crate::unit::UNIT_BLOCKS;
use blk_device::{Device, Region};
use geom::Geometry;
use run_sets::Run;

// How many runs of units are told beyond the one that is read.
const RUNS_AHEAD: usize = 16;

// Tells of the blocks of a run of units.
fn tell_run<D: Device>(dev: &mut D, geo: &Geometry, g: u32, run: &Run)
    requires group { g < geo.now.agcount }
    requires inside { run.now.start + run.now.count ≤ group_len_of (layout geo.now) g / 8 }
    ensures { OnlyTold D.Device dev.old dev.new }
{
    if run.count > 0 {
        let first = geo.device_block(g, UNIT_BLOCKS * run.start);
        dev.will_read(Region::Image, first, u64::from(UNIT_BLOCKS * run.count));
    }
}

/// Tells of the blocks of the run behind those that were told, if there is one.
pub fn tell_next<D: Device>(dev: &mut D, geo: &Geometry, g: u32, units: &[Run], told: &mut usize)
    requires group { g < geo.now.agcount }
    requires inside { EndWithin (group_len_of (layout geo.now) g / 8) units.now }
    ensures { OnlyTold D.Device dev.old dev.new }
{
    if *told < units.len() {
        tell_run(dev, geo, g, &units[*told]);
        *told += 1;
    }
}

/// Tells of the blocks of the first runs. Answers how many were told.
pub fn tell_first<D: Device>(dev: &mut D, geo: &Geometry, g: u32, units: &[Run]) -> usize
    requires group { g < geo.now.agcount }
    requires inside { EndWithin (group_len_of (layout geo.now) g / 8) units.now }
    ensures { OnlyTold D.Device dev.old dev.new }
{
    let mut told = 0;
    for _ in 0..RUNS_AHEAD {
        tell_next(dev, geo, g, units, &mut told);
    }
    told
}
