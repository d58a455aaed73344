// A mapping that is to be made, once its run is chosen.
ghost use Rattle.std.specs.Prelude.{◌≡◌, ◌<◌, IfOk, IfSome};
ghost use Rattle.core_files.specs.Maps.Plans.{IsPlan};
ghost use Rattle.core_files.specs.First.Spots.{IsSpot};
ghost use Rattle.core_chains.specs.Write.Writes.{WritesWell};
ghost use Rattle.file_cores.specs.Files.{IsFile};

use crate::first::{Held, HeldFile, Spot, add_mapping, grown};
use blk_device::Device;
use core_calls::WriteFault;
use core_parts::Desk;
use dinode_core::{Core3, Mapping};
use fs_model::Extent;
use geom::{Geometry, InodePlace};
use std::alloc::Global;

/// A mapping that is to be made: of this chain's first file, whose inode lies here, at this offset and of
/// these blocks; and the core with it, where the fork has room.
#[derive(Clone, Copy)]
pub(crate) struct Plan {
    pub held: Held,
    pub place: InodePlace,
    pub core: Option<Core3>,
    pub offset: u64,
    pub spot: Spot,
}

// A run of a group, and the file system's number of its first block.
#[derive(Clone, Copy)]
struct NumberedRun {
    spot: Spot,
    number: u64,
}

fn numbered(geo: &Geometry, run: &Extent) -> Option<NumberedRun>
    ensures { IfSome result (λ r. IsSpot geo.now r.spot) }
{
    if run.group >= geo.agcount || run.count == 0 {
        return None;
    }
    let end = u64::from(run.block) + u64::from(run.count);
    if end > u64::from(geo.group_len(run.group)) {
        return None;
    }
    Some(NumberedRun {
        spot: Spot {
            group: run.group,
            block: run.block,
            count: run.count,
        },
        number: geo.fs_block(run.group, run.block),
    })
}

// The run, where it lies in a group.
fn find_run<D: Device>(desk: &Desk<D>, run: &Extent) -> Result<NumberedRun, WriteFault>
    ensures spot { IfOk result (λ r. IsSpot desk.now.store.geo r.spot) }
    ensures reason { WritesWell desk.now result }
{
    match numbered(&desk.store.geo, run) {
        Some(found) => Ok(found),
        // Never: records of free space lie in their group.
        None => Err(WriteFault::Memory),
    }
}

/// The plan of a mapping of this run at an offset of the chain's first file.
pub(crate) fn planned<D: Device>(
    alloc: Global,
    desk: &Desk<D>,
    mut of: HeldFile,
    offset: u64,
    run: &Extent,
) -> Result<Plan, WriteFault>
    requires file { IsFile desk.now.store.geo of.file }
    requires number { of.held.number < 16 }
    ensures plan { IfOk result (IsPlan desk.now.store.geo) }
    ensures held { IfOk result (λ p. p.held ≡ of.held) }
    ensures offset { IfOk result (λ p. p.offset ≡ offset) }
    ensures reason { WritesWell desk.now result }
{
    let found = find_run(desk, run)?;
    let mapping = Mapping {
        offset,
        block: found.number,
        count: found.spot.count,
        unwritten: true,
    };
    add_mapping(alloc, desk, &mut of.file, &mapping)?;
    Ok(Plan {
        held: of.held,
        place: of.file.place,
        core: grown(desk, &of.file, found.spot.count),
        offset,
        spot: found.spot,
    })
}
