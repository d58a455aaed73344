// The inodes of new images, and of such with one change.
ghost use Rattle.std.specs.Prelude.{◌≡◌, ◌≤◌, ◌<◌};
ghost use Rattle.blk_device.specs.declared.device.Region.TheVariants.{Image};

use super::same::same;
use blk_device::{Device, MemDevice, Region};
use byte_fields::{Block, Steps};
use dinode_core::CoreFault;
use fresh_image::write_fresh;
use fs_model::{Entry, Evidence, Reason, Unit, Verdict};
use geom::{Geometry, try_geometry};
use quiet_check::check_inodes;
use std::alloc::Global;
use std::marker::Brand;
use std::sync::ledger::{Blank, Ledger};

// A device with a new image of so many groups of 64 blocks, or one of 256.
pub(crate) fn fresh(alloc: Global, groups: u32, len: u32) -> Option<MemDevice> {
    if groups > 4 || len < 64 || len > 256 {
        return None;
    }
    let blocks = u64::from(groups) * u64::from(len);
    let mut device = MemDevice::new(alloc, blocks, 0, Vec::new(alloc));
    if device.size(Region::Image) < blocks {
        return None;
    }
    match write_fresh(&mut device, groups, len) {
        Ok(()) => Some(device),
        Err(_) => None,
    }
}

// The block as the device reads it.
pub(crate) fn block_at(device: &mut MemDevice, at: u64) -> Option<Block> {
    if at >= device.size(Region::Image) {
        return None;
    }
    let mut block = Block::zeroed();
    match device.read(Region::Image, at, &mut block) {
        Ok(()) => Some(block),
        Err(_) => None,
    }
}

// Changes one byte of a block, and leaves its checksum.
pub(crate) fn change_byte(device: &mut MemDevice, at: u64, place: usize) -> bool {
    let Some(mut block) = block_at(device, at) else {
        return false;
    };
    if place >= 4096 || at >= device.size(Region::Image) {
        return false;
    }
    block.bytes[place] ^= 0xff;
    device.write(Region::Image, at, &block).is_ok()
}

// What the check of the inodes of a group adds to the journal.
fn checked<L: Ledger>(
    alloc: Global,
    device: &mut MemDevice,
    geo: &Geometry,
    g: u32,
    blank: Blank,
) -> Option<Vec<Entry>>
    requires name { blank.name ≡ L.name }
    requires parts { blank.parts ≡ L.parts }
    requires three { blank.parts ≡ 3 }
{
    if g >= geo.agcount || device.size(Region::Image) < geo.dblocks {
        return None;
    }
    let mut steps = Steps::<L>::new(blank);
    match check_inodes(alloc, device, geo, g, &mut steps) {
        Ok(entries) => Some(entries),
        Err(_) => None,
    }
}

// What the check adds, for a caller that counts no steps.
fn counted(alloc: Global, device: &mut MemDevice, geo: &Geometry, g: u32) -> Option<Vec<Entry>> {
    let blank = Blank::new(3);
    checked::<Brand>(alloc, device, geo, g, blank)
}

// The geometry that block 0 states.
fn geometry_of(device: &mut MemDevice) -> Option<Geometry> {
    let block = block_at(device, 0)?;
    try_geometry(&block, device.size(Region::Image)).ok()
}

// What the check of the inodes of a group adds, by what block 0 states.
pub(crate) fn inodes_of(alloc: Global, device: &mut MemDevice, g: u32) -> Option<Vec<Entry>> {
    match geometry_of(device) {
        Some(geo) => counted(alloc, device, &geo, g),
        None => None,
    }
}

// Whether this verdict is all that is added.
pub(crate) fn is_all(entries: &[Entry], group: u32, verdict: Verdict) -> bool {
    match entries.first() {
        Some(
            Entry::Verdict {
                group: found,
                unit: Unit::Inode,
                verdict: given,
            },
        ) => entries.len() == 1 && *found == group && *given == verdict,
        _ => false,
    }
}

// Whether the inodes of a group get this verdict, and no fault.
fn is_judged(alloc: Global, device: &mut MemDevice, group: u32, verdict: Verdict) -> bool {
    match inodes_of(alloc, device, group) {
        Some(entries) => is_all(entries.as_slice(), group, verdict),
        None => false,
    }
}

// Whether the inodes of all groups of a new image are good.
fn are_good(alloc: Global, groups: u32, len: u32) -> bool {
    let Some(mut device) = fresh(alloc, groups, len) else {
        return false;
    };
    for group in 0..groups {
        if !is_judged(alloc, &mut device, group, Verdict::Good) {
            return false;
        }
    }
    true
}

// Whether the inodes of a new image of one group get this verdict, once a byte was changed.
fn becomes(alloc: Global, at: u64, place: usize, verdict: Verdict) -> bool {
    let Some(mut device) = fresh(alloc, 1, 256) else {
        return false;
    };
    change_byte(&mut device, at, place) && is_judged(alloc, &mut device, 0, verdict)
}

#[test]
fn new_images_are_good(rt: HostRuntime) {
    for (groups, len) in [(1, 64), (1, 256), (3, 64)] {
        let found = are_good(rt.alloc(), groups, len);
        same(&rt, (groups, len, found), (groups, len, true));
    }
}

#[test]
fn a_core_that_fails_is_shown(rt: HostRuntime) {
    let alloc = rt.alloc();
    let found = Verdict::GaveUp(Reason::Contradiction(Evidence::BadChunk {
        block: 24,
        fault: CoreFault::Checksum,
    }));
    // Byte 600 lies in the second core, where no test but the checksum looks.
    same(&rt, becomes(alloc, 24, 600, found), true);
    // A byte that no metadata has changes nothing.
    same(&rt, becomes(alloc, 100, 600, Verdict::Good), true);
}
