// A leaf of free space by start, the root of its tree, in a group of 4,096 blocks.
ghost use Rattle.std.specs.Prelude.{◌≡◌};

use super::same::same;
use crate::build::{BNO, NONE, UUID, header_of, put_word, put_words};
use crate::small::summed;
use blk_cache::BlkCache;
use blk_device::{Device, MemDevice, Region};
use byte_fields::{Block, Steps};
use sblock::{BlockFault, Bounds};
use span_recs::BnoKind;
use std::alloc::{AllocError, Global};
use std::collections::BTreeMap;
use std::marker::Brand;
use std::sync::ledger::{Blank, Ledger};
use std::test::Fail;
use tree_blocks::{Cached, WalkFault, lone_fault_of, open_block};
use tree_defs::Site;

fn whole_group() -> Site
    ensures first { result.first ≡ 0 }
    ensures length { result.bounds.length ≡ 4096 }
{
    Site {
        group: 0,
        first: 0,
        bounds: Bounds {
            length: 4096,
            agblocks: 4096,
            agcount: 1,
            last: 4096,
            agblklog: 12,
        },
        uuid: UUID,
    }
}

// The leaf at block 1 with the record (19, 5), and these siblings.
fn leaf_of(left: u32, right: u32) -> Block {
    let mut block = header_of(BNO.magic, 1, 0, 1, [left, right]);
    put_words(&mut block, 56, &[19, 5]);
    summed(block)
}

// A device with this block 1.
fn device_of(alloc: Global, leaf: Block) -> Result<MemDevice, AllocError> {
    let mut blocks = BTreeMap::new(alloc);
    blocks.insert(1, leaf)?;
    MemDevice::with_image(alloc, 4096, 1, blocks, Vec::new(alloc))
}

// Block 1, opened as a root.
fn opened<L: Ledger>(
    alloc: Global,
    device: MemDevice,
    level: u8,
    blank: Blank,
) -> Result<Block, WalkFault>
    requires name { blank.name ≡ L.name }
    requires parts { blank.parts ≡ L.parts }
    requires three { blank.parts ≡ 3 }
{
    let site = whole_group();
    let mut device = device;
    if device.size(Region::Image) < 4096 {
        return Err(WalkFault::Failed);
    }
    let Ok(mut cache) = BlkCache::new(alloc, 8) else {
        return Err(WalkFault::Memory);
    };
    let mut steps = Steps::<L>::new(blank);
    let mut blocks = Cached {
        dev: &mut device,
        cache: &mut cache,
        site,
        steps: &mut steps,
    };
    open_block::<BnoKind, Cached<MemDevice, L>>(&mut blocks, &site, level, true, 1)
}

// The same, for a caller that counts no steps.
fn open_root(alloc: Global, device: MemDevice, level: u8) -> Result<Block, WalkFault> {
    let blank = Blank::new(3);
    opened::<Brand>(alloc, device, level, blank)
}

#[test]
fn a_block_is_opened_whatever_its_left_sibling_is(rt: HostRuntime) -> Result<(), Fail> {
    let alloc = rt.alloc();
    for left in [NONE, 7] {
        let leaf = leaf_of(left, NONE);
        let opened = open_root(alloc, device_of(alloc, leaf)?, 0)?;
        same(&rt, opened.bytes, leaf.bytes);
    }
    Ok(())
}

#[test]
fn the_first_test_that_a_block_fails_is_told(rt: HostRuntime) -> Result<(), Fail> {
    let alloc = rt.alloc();
    let site = whole_group();
    let mut leaf = leaf_of(NONE, NONE);
    same(
        &rt,
        lone_fault_of::<BnoKind>(&leaf, &site, 0, true, 1),
        None,
    );
    same(
        &rt,
        lone_fault_of::<BnoKind>(&leaf, &site, 0, true, 2),
        Some(BlockFault::Place),
    );
    put_word(&mut leaf, 60, 6);
    let device = device_of(alloc, leaf)?;
    let expected = WalkFault::Bad {
        block: 1,
        fault: BlockFault::Checksum,
    };
    same(&rt, open_root(alloc, device, 0).err(), Some(expected));
    Ok(())
}
