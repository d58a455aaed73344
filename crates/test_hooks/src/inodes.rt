// The inodes that a scan of a new image comes to.
ghost use Rattle.std.specs.Prelude.{◌≡◌};

use super::same::same;
use blk_cache::BlkCache;
use blk_device::{Device, MemDevice, Region};
use byte_fields::{Block, Steps};
use fresh_image::write_fresh;
use geom::try_geometry;
use inode_scan::Cursor;
use sblock::Kind;
use std::alloc::Global;
use std::marker::Brand;
use std::sync::ledger::{Blank, Ledger};
use tree_blocks::{TreeAt, WalkFault};

// The blocks of the one group.
const LENGTH: u32 = 256;

// The group's inode btree: its root alone, at block 3.
const TREE: TreeAt = TreeAt {
    kind: Kind::Ino,
    group: 0,
    root: 3,
    levels: 1,
    lsn: 0,
};

// The next inode above the cursor, in a new image.
fn next_from<L: Ledger>(alloc: Global, at: u64, blank: Blank) -> Result<Option<u64>, WalkFault>
    requires name { blank.name ≡ L.name }
    requires parts { blank.parts ≡ L.parts }
    requires three { blank.parts ≡ 3 }
{
    let mut device = MemDevice::new(alloc, u64::from(LENGTH), 1, Vec::new(alloc));
    if device.size(Region::Image) < u64::from(LENGTH) {
        return Err(WalkFault::Failed);
    }
    write_fresh(&mut device, 1, LENGTH)?;
    let mut block = Block::zeroed();
    device.read(Region::Image, 0, &mut block)?;
    let Ok(geo) = try_geometry(&block, u64::from(LENGTH)) else {
        return Err(WalkFault::Failed);
    };
    if geo.agcount == 0 || geo.dblocks > device.size(Region::Image) {
        return Err(WalkFault::Failed);
    }
    let Ok(mut cache) = BlkCache::new(alloc, 8) else {
        return Err(WalkFault::Memory);
    };
    let mut steps = Steps::<L>::new(blank);
    let cursor = Cursor { at };
    cursor.next_inode::<MemDevice, L>(&mut device, &mut cache, &geo, &[TREE], &mut steps)
}

fn next(alloc: Global, at: u64) -> Result<Option<u64>, WalkFault> {
    let blank = Blank::new(3);
    next_from::<Brand>(alloc, at, blank)
}

#[test]
fn a_scan_comes_to_the_three_inodes_of_a_new_image(rt: HostRuntime) {
    let rows = [
        (0, Some(192)),
        (191, Some(192)),
        (192, Some(193)),
        (193, Some(194)),
        (194, None),
        (u64::MAX, None),
    ];
    for (at, wanted) in rows {
        let found = next(rt.alloc(), at).expect(&rt, "a new image can be read");
        same(&rt, (at, found), (at, wanted));
    }
    same(&rt, Cursor { at: 193 }.visited(193), true);
    same(&rt, Cursor { at: 193 }.visited(194), false);
}
