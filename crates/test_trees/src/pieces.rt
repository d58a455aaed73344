// A tree of reverse mappings leaf by leaf: a root at block 1, nodes at blocks 2 and 3, and the leaves
// 100 to 144 and 145 to 189 below them, of 84 records each.
ghost use Rattle.std.specs.Prelude.{◌≡◌};

use super::same::same;
use crate::build::{LENGTH, RMAP, device_of, three_levels};
use crate::read::{one_group, read_tree, tree_at};
use blk_cache::BlkCache;
use blk_device::{Device, MemDevice, Region};
use byte_fields::Steps;
use rmap_recs::{Key, RmapKind, RmapRec};
use sblock::{Kind, RecKind};
use std::alloc::{AllocError, Global};
use std::marker::Brand;
use std::sync::ledger::{Blank, Ledger};
use std::test::Fail;
use tree_walk::{TreeRead, WalkFault, path_piece};

fn piece_in<L: Ledger>(
    alloc: Global,
    device: &mut MemDevice,
    after: Option<Key>,
    blank: Blank,
) -> Result<TreeRead<RmapRec>, WalkFault>
    requires name { blank.name ≡ L.name }
    requires parts { blank.parts ≡ L.parts }
    requires three { blank.parts ≡ 3 }
{
    let geo = one_group();
    let tree = tree_at(Kind::Rmap, 1, 3);
    if device.size(Region::Image) < u64::from(LENGTH) {
        return Err(WalkFault::Failed);
    }
    let Ok(mut cache) = BlkCache::new(alloc, 8) else {
        return Err(WalkFault::Memory);
    };
    let mut steps = Steps::<L>::new(blank);
    path_piece::<RmapKind, MemDevice, L>(alloc, device, &mut cache, &geo, &tree, after, &mut steps)
}

// The piece behind a key, for a caller that counts no steps.
fn piece_of(
    alloc: Global,
    device: &mut MemDevice,
    after: Option<Key>,
) -> Result<TreeRead<RmapRec>, WalkFault> {
    let blank = Blank::new(3);
    piece_in::<Brand>(alloc, device, after, blank)
}

// The key of record number `r`.
fn key_of(r: u32) -> Key {
    Key {
        start: r.wrapping_add(1).wrapping_mul(2),
        owner: 0xffff_ffff_ffff_fffb,
        word: 0,
    }
}

#[test]
fn a_block_is_met_with_the_first_leaf_below_it(rt: HostRuntime) -> Result<(), Fail> {
    let alloc = rt.alloc();
    let mut device = device_of(alloc, three_levels(alloc, &RMAP)?)?;
    // From the first leaf on, behind the first leaf, behind the last one of a node and of the tree,
    // and within a leaf that was met.
    let rows: [(Option<Key>, usize, &[u32]); 6] = [
        (None, 84, &[1, 2, 100]),
        (Some(key_of(83)), 84, &[101]),
        (Some(key_of(3779)), 84, &[3, 145]),
        (Some(key_of(7475)), 84, &[189]),
        (Some(key_of(7559)), 0, &[]),
        (Some(key_of(80)), 3, &[]),
    ];
    for (after, count, blocks) in rows {
        let piece = piece_of(alloc, &mut device, after)?;
        same(&rt, piece.recs.len(), count);
        same(&rt, piece.blocks.as_slice(), blocks);
    }
    Ok(())
}

fn append(all: &mut Vec<u32>, more: &[u32]) -> Result<(), AllocError> {
    for block in more {
        all.push(*block)?;
    }
    Ok(())
}

#[test]
fn pieces_are_in_sum_what_a_walk_reads(rt: HostRuntime) -> Result<(), Fail> {
    let alloc = rt.alloc();
    let mut device = device_of(alloc, three_levels(alloc, &RMAP)?)?;
    let walked = read_tree::<RmapKind>(alloc, &mut device, 3)?;
    let mut blocks = Vec::new(alloc);
    let mut records = 0_usize;
    let mut after = None;
    for _ in 0..91_u16 {
        let piece = piece_of(alloc, &mut device, after)?;
        append(&mut blocks, piece.blocks.as_slice())?;
        records = records.wrapping_add(piece.recs.len());
        after = piece.recs.as_slice().last().map(RmapKind::key_of);
    }
    same(&rt, records, 7560);
    same(&rt, blocks.as_slice(), walked.blocks.as_slice());
    Ok(())
}
