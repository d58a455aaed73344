// Trees of each kind, loaded and read again by a walk.
ghost use Rattle.std.specs.Prelude.{◌≡◌, ◌+◌};

use super::same::same_in_row;
use crate::lists::{Sample, blocks_of, list_of};
use crate::trees::{LENGTH, large_group, three_groups, tree_in};
use blk_cache::BlkCache;
use blk_device::{Device, MemDevice, Region};
use bulk_load::shape;
use byte_fields::{Block, Steps};
use ino_recs::{FinoKind, InoKind};
use rmap_recs::RmapKind;
use sblock::{Kind, RecKind};
use span_recs::{BnoKind, CntKind, RefcKind};
use std::alloc::{AllocError, Global};
use std::collections::BTreeMap;
use std::marker::Brand;
use std::process::Abort;
use std::sync::ledger::{Blank, Ledger};
use std::test::Fail;
use tree_walk::{TreeAt, TreeRead, WalkFault, walk};

// The device with these blocks in group 0.
fn device_of(alloc: Global, placed: &[(u32, Block)]) -> Result<MemDevice, AllocError> {
    let mut blocks = BTreeMap::new(alloc);
    for (at, block) in placed {
        blocks.insert(u64::from(*at), *block)?;
    }
    MemDevice::with_image(alloc, 3 * u64::from(LENGTH), 1, blocks, Vec::new(alloc))
}

fn walked<K: RecKind, L: Ledger>(
    alloc: Global,
    device: &mut MemDevice,
    tree: &TreeAt,
    blank: Blank,
) -> Result<TreeRead<K::Rec>, WalkFault>
    requires kind { tree.now.kind ≡ K.form.kind }
    requires group { tree.now.group ≡ 0 }
    requires name { blank.name ≡ L.name }
    requires parts { blank.parts ≡ L.parts }
    requires three { blank.parts ≡ 3 }
{
    let geo = three_groups();
    if device.size(Region::Image) < 3 * u64::from(LENGTH) {
        return Err(WalkFault::Failed);
    }
    let Ok(mut cache) = BlkCache::new(alloc, 8) else {
        return Err(WalkFault::Memory);
    };
    let mut steps = Steps::<L>::new(blank);
    walk::<K, MemDevice, L>(alloc, device, &mut cache, &geo, tree, &mut steps)
}

// What a walk from this root of group 0 reads, for a caller that counts no steps.
fn read_tree<K: RecKind>(
    alloc: Global,
    placed: &[(u32, Block)],
    root: u32,
    levels: u32,
) -> Result<TreeRead<K::Rec>, WalkFault> {
    let Ok(mut device) = device_of(alloc, placed) else {
        return Err(WalkFault::Memory);
    };
    let tree = TreeAt {
        kind: K::kind(),
        group: 0,
        root,
        levels,
        lsn: 0,
    };
    let blank = Blank::new(3);
    walked::<K, Brand>(alloc, &mut device, &tree, blank)
}

// Whether two lists have the same records in the same order.
fn are_same<K: RecKind>(read: &[K::Rec], list: &[K::Rec]) -> bool {
    if read.len() != list.len() {
        return false;
    }
    for (a, b) in read.iter().zip(list) {
        if !K::is_same(a, b) {
            return false;
        }
    }
    true
}

// Whether these are the blocks downwards from 1,000,000, in whatever order.
fn are_claimed(mut read: Vec<u32>, claimed: &[u32]) -> bool {
    read.sort_unstable();
    read.reverse();
    read.as_slice() == claimed
}

// What a tree of some records has: its levels and blocks, and whether a walk reads exactly these
// records and blocks.
type Back = (u32, u64, bool, bool);

fn loaded<K: Sample>(
    alloc: Global,
    list: &[K::Rec],
    claimed: &[u32],
) -> Result<Vec<(u32, Block)>, Fail> {
    Ok(tree_in::<K>(alloc, list, &large_group(), claimed)?)
}

fn loaded_of<K: Sample>(alloc: Global, n: u32) -> Result<Vec<(u32, Block)>, Fail> {
    let list = list_of::<K>(alloc, n)?;
    let claimed = blocks_of(alloc, shape(u64::from(n), K::kind()).blocks)?;
    loaded::<K>(alloc, &list, &claimed)
}

/// The blocks of a tree of the first `n` records of a kind, in group 0.
pub fn loaded_kind(alloc: Global, kind: Kind, n: u32) -> Result<Vec<(u32, Block)>, Fail> {
    match kind {
        Kind::Bno => loaded_of::<BnoKind>(alloc, n),
        Kind::Cnt => loaded_of::<CntKind>(alloc, n),
        Kind::Rmap => loaded_of::<RmapKind>(alloc, n),
        Kind::Refc => loaded_of::<RefcKind>(alloc, n),
        Kind::Ino => loaded_of::<InoKind>(alloc, n),
        Kind::Fino => loaded_of::<FinoKind>(alloc, n),
    }
}

fn read_back<K: Sample>(alloc: Global, n: u32) -> Result<Back, Fail> {
    let list = list_of::<K>(alloc, n)?;
    let form = shape(u64::from(n), K::kind());
    let claimed = blocks_of(alloc, form.blocks)?;
    let placed = loaded::<K>(alloc, &list, &claimed)?;
    let root = claimed.as_slice().last().copied().unwrap_or(0);
    let read = read_tree::<K>(alloc, &placed, root, form.levels)?;
    let records_are = are_same::<K>(&read.recs, &list);
    let blocks_are = are_claimed(read.blocks, &claimed);
    Ok((form.levels, form.blocks, records_are, blocks_are))
}

fn read_kind(alloc: Global, kind: Kind, n: u32) -> Result<Back, Fail> {
    match kind {
        Kind::Bno => read_back::<BnoKind>(alloc, n),
        Kind::Cnt => read_back::<CntKind>(alloc, n),
        Kind::Rmap => read_back::<RmapKind>(alloc, n),
        Kind::Refc => read_back::<RefcKind>(alloc, n),
        Kind::Ino => read_back::<InoKind>(alloc, n),
        Kind::Fino => read_back::<FinoKind>(alloc, n),
    }
}

// A tree of the first `n` records has these levels and blocks, and a walk reads exactly it.
fn expect_back(
    rt: &impl Abort,
    alloc: Global,
    kind: Kind,
    n: u32,
    (levels, blocks): (u32, u64),
) -> Result<(), Fail> {
    let found = read_kind(alloc, kind, n)?;
    same_in_row(rt, (kind, n), found, (levels, blocks, true, true));
    Ok(())
}

#[test]
fn a_walk_reads_up_to_two_leaves(rt: HostRuntime) -> Result<(), Fail> {
    // The most that a leaf holds.
    let rows = [
        (Kind::Bno, 505),
        (Kind::Cnt, 505),
        (Kind::Rmap, 168),
        (Kind::Refc, 336),
        (Kind::Ino, 252),
        (Kind::Fino, 252),
    ];
    for (kind, most) in rows {
        for n in [0, 1, most] {
            expect_back(&rt, rt.alloc(), kind, n, (1, 1))?;
        }
        expect_back(&rt, rt.alloc(), kind, most + 1, (2, 3))?;
    }
    Ok(())
}

// The greatest tree of two levels and the least of three.
fn expect_levels(
    rt: &impl Abort,
    alloc: Global,
    kind: Kind,
    most: u32,
    blocks: [u64; 2],
) -> Result<(), Fail> {
    expect_back(rt, alloc, kind, most, (2, blocks[0]))?;
    expect_back(rt, alloc, kind, most.wrapping_add(1), (3, blocks[1]))
}

#[test]
fn a_walk_reads_three_levels_of_free_space(rt: HostRuntime) -> Result<(), Fail> {
    let alloc = rt.alloc();
    expect_levels(&rt, alloc, Kind::Bno, 169_680, [337, 340])?;
    expect_levels(&rt, alloc, Kind::Cnt, 169_680, [337, 340])
}

#[test]
fn a_walk_reads_three_levels_of_owners(rt: HostRuntime) -> Result<(), Fail> {
    let alloc = rt.alloc();
    expect_levels(&rt, alloc, Kind::Rmap, 15_288, [92, 95])?;
    expect_levels(&rt, alloc, Kind::Refc, 169_680, [506, 509])
}

#[test]
fn a_walk_reads_three_levels_of_inodes(rt: HostRuntime) -> Result<(), Fail> {
    let alloc = rt.alloc();
    expect_levels(&rt, alloc, Kind::Ino, 127_260, [506, 509])?;
    expect_levels(&rt, alloc, Kind::Fino, 127_260, [506, 509])
}
