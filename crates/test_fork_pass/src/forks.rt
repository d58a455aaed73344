// What the forks of two inodes of a new image claim together, or the first one that can't be read.
ghost use Rattle.std.specs.Prelude.{◌≡◌, ◌≤◌, IfOk, length, true};
ghost use Rattle.fork_pass.specs.Passed.{notes_at};
ghost use Rattle.geom.specs.Layout.{group_len_of};
ghost use Rattle.geom.specs.Places.{layout};
ghost use Rattle.inode_pass.specs.Notes.{AreFit};

use super::same::same;
use blk_device::{Device, MemDevice, Region};
use byte_fields::{Block, Steps, put_sum, put_u16, put_u32, put_u64, sum_at};
use check_watch::NoWatch;
use dinode_core::{Core3, ForkFault, encode_core};
use fork_pass::{ForksSeen, read_forks};
use fresh_image::write_fresh;
use fs_model::{Claim, Evidence};
use geom::{Geometry, try_geometry};
use inode_pass::{GroupInodes, PassStop, see_units};
use run_sets::Run;
use std::alloc::Global;
use std::marker::Brand;
use std::process::Abort;
use std::sync::ledger::{Blank, Ledger};
use unit_plan::Among;

// What an inode says: its mode, the format of its data fork with the number of its mappings, the first
// two words of each fork, and where a btree's root has its first pointer.
#[derive(Clone, Copy)]
struct Shape {
    mode: u16,
    format: u8,
    count: u32,
    data: (u64, u64),
    attr: (u64, u64),
    pointer: u64,
}

// A file with one block of data, at offset 0, and one of attributes.
const FILE: Shape = Shape {
    mode: 0x81a4,
    format: 2,
    count: 1,
    data: (0, (100 << 21) + 1),
    attr: (0, (110 << 21) + 1),
    pointer: 0,
};

// A root of level 1 with one key, 0, whose pointer leads to block 40.
const TREE: Shape = Shape {
    mode: 0x81a4,
    format: 3,
    count: 1,
    data: ((1 << 48) + (1 << 32), 0),
    attr: (0, (110 << 21) + 1),
    pointer: 40,
};

// A device with a new image of one group of 256 blocks.
fn fresh(alloc: Global) -> Option<MemDevice> {
    let mut device = MemDevice::new(alloc, 256, 0, Vec::new(alloc));
    if device.size(Region::Image) < 256 {
        return None;
    }
    match write_fresh(&mut device, 1, 256) {
        Ok(()) => Some(device),
        Err(_) => None,
    }
}

// The block as the device reads it.
fn block_at(device: &mut MemDevice, at: u64) -> Option<Block> {
    if at >= device.size(Region::Image) {
        return None;
    }
    let mut block = Block::zeroed();
    match device.read(Region::Image, at, &mut block) {
        Ok(()) => Some(block),
        Err(_) => None,
    }
}

fn put_block(device: &mut MemDevice, at: u64, block: &Block) -> bool {
    at < device.size(Region::Image) && device.write(Region::Image, at, block).is_ok()
}

fn core_of(geo: &Geometry, ino: u64, shape: Shape) -> Core3 {
    let mut literal = [0; 336];
    put_u64(&mut literal, 0, shape.data.0);
    put_u64(&mut literal, 8, shape.data.1);
    put_u64(&mut literal, 92, shape.pointer);
    put_u64(&mut literal, 192, shape.attr.0);
    put_u64(&mut literal, 200, shape.attr.1);
    Core3 {
        mode: shape.mode,
        format: shape.format,
        uid: 0,
        nlink: 1,
        big_nextents: 0,
        nblocks: 0,
        nextents: shape.count,
        anextents: 1,
        forkoff: 24,
        aformat: 2,
        flags: 0,
        next_unlinked: 0xffff_ffff,
        changecount: 0,
        lsn: 0,
        flags2: 0,
        ino,
        uuid: geo.uuid,
        literal,
    }
}

// Writes the inodes 195 and 196, in slots 3 and 4 of block 24.
fn put_inodes(device: &mut MemDevice, geo: &Geometry, first: Shape, second: Shape) -> bool {
    let Some(mut block) = block_at(device, 24) else {
        return false;
    };
    let mut bytes = [0; 512];
    encode_core(&core_of(geo, 195, first), &mut bytes);
    block.bytes[1536..2048].copy_from_slice(&bytes);
    encode_core(&core_of(geo, 196, second), &mut bytes);
    block.bytes[2048..2560].copy_from_slice(&bytes);
    put_block(device, 24, &block)
}

// Writes the one leaf of the btree of inode 195, with one mapping, to block 40.
fn put_leaf(device: &mut MemDevice, geo: &Geometry) -> bool {
    let mut block = Block::zeroed();
    let bytes = &mut block.bytes;
    put_u32(bytes, 0, 0x424d_4133);
    put_u16(bytes, 6, 1);
    put_u64(bytes, 8, u64::MAX);
    put_u64(bytes, 16, u64::MAX);
    put_u64(bytes, 24, 320);
    bytes[40..56].copy_from_slice(&geo.uuid);
    put_u64(bytes, 56, 195);
    put_u64(bytes, 80, (120 << 21) + 1);
    let sum = sum_at(bytes, 64);
    put_sum(bytes, 64, sum);
    put_block(device, 40, &block)
}

// The geometry that block 0 states.
fn geometry_of(device: &mut MemDevice) -> Option<Geometry> {
    let block = block_at(device, 0)?;
    try_geometry(&block, device.size(Region::Image)).ok()
}

// Whether there is one group, with 32 blocks at least.
fn is_small(geo: &Geometry) -> bool
    ensures one { result ≡ true → geo.now.agcount ≡ 1 }
    ensures long { result ≡ true → 32 ≤ group_len_of (layout geo.now) 0 }
{
    geo.agcount == 1 && geo.group_len(0) >= 32
}

// The one chunk of the group, unit 3, which begins at block 24.
const CHUNK: Run = Run { start: 3, count: 1 };

// What is kept of the inodes of the one group: its chunk, and what the cores show of the forks.
fn kept<L: Ledger>(
    alloc: Global,
    device: &mut MemDevice,
    geo: &Geometry,
    steps: &mut Steps<L>,
) -> Result<Vec<GroupInodes>, PassStop>
    requires one { geo.now.agcount ≡ 1 }
    requires long { 32 ≤ group_len_of (layout geo.now) 0 }
    ensures one { IfOk result (λ inodes. length inodes.items ≡ 1) }
    ensures fit { IfOk result (λ inodes. AreFit (layout geo.now) 0 (notes_at inodes.items 0)) }
{
    if device.size(Region::Image) < geo.dblocks {
        return Err(PassStop::Failed);
    }
    let mut notes = Vec::new(alloc);
    let _seen = see_units(alloc, device, geo, 0, &[CHUNK], &mut notes, steps)?;
    let mut chunks = Vec::new(alloc);
    chunks.push(CHUNK.start)?;
    let mut inodes = Vec::new(alloc);
    inodes.push(GroupInodes { chunks, notes })?;
    Ok(inodes)
}

fn pass<L: Ledger>(
    alloc: Global,
    device: &mut MemDevice,
    geo: &Geometry,
    blank: Blank,
) -> Option<ForksSeen>
    requires name { blank.name ≡ L.name }
    requires parts { blank.parts ≡ L.parts }
    requires three { blank.parts ≡ 3 }
{
    if !is_small(geo) {
        return None;
    }
    let mut steps = Steps::<L>::new(blank);
    let Ok(mut inodes) = kept(alloc, device, geo, &mut steps) else {
        return None;
    };
    if device.size(Region::Image) < geo.dblocks {
        return None;
    }
    read_forks(alloc, device, geo, &mut inodes, &mut steps, &mut NoWatch).ok()
}

// The same for a caller that counts no steps.
fn counted(alloc: Global, device: &mut MemDevice, geo: &Geometry) -> Option<ForksSeen> {
    let blank = Blank::new(3);
    pass::<Brand>(alloc, device, geo, blank)
}

// What the forks of these two inodes show: a fork that can't be read, or two claims on one block.
fn shown(alloc: Global, first: Shape, second: Shape) -> Option<Option<Evidence>> {
    let mut device = fresh(alloc)?;
    let geo = geometry_of(&mut device)?;
    if !put_inodes(&mut device, &geo, first, second) || !put_leaf(&mut device, &geo) {
        return None;
    }
    match counted(alloc, &mut device, &geo)? {
        ForksSeen::GaveUp(evidence) => Some(Some(evidence)),
        ForksSeen::Claims(sets) => {
            let mut sets = sets;
            let mut set = sets.pop()?;
            Some(set.first_overlap(Among::All))
        }
    }
}

fn overlap(block: u32, first: Claim, second: Claim) -> Option<Evidence> {
    Some(Evidence::Overlap {
        block,
        first,
        second,
    })
}

fn bad_fork(ino: u64, fault: ForkFault) -> Option<Evidence> {
    Some(Evidence::BadFork { ino, fault })
}

fn expect_shown(
    rt: &impl Abort,
    alloc: Global,
    first: Shape,
    second: Shape,
    found: Option<Evidence>,
) {
    same(rt, shown(alloc, first, second), Some(found));
}

// A file with these words in its forks.
fn file(data: (u64, u64), attr: (u64, u64)) -> Shape {
    Shape { data, attr, ..FILE }
}

// Attributes in a block that no other shape has.
const APART: (u64, u64) = (0, (111 << 21) + 1);

// Written file data may be shared; attributes may not, and data that isn't written may not.
fn expect_of_files(rt: &impl Abort, alloc: Global) {
    let attributes = overlap(110, Claim::Attr(195), Claim::Attr(196));
    let unwritten = overlap(110, Claim::Data(196), Claim::Attr(195));
    expect_shown(rt, alloc, FILE, file(FILE.data, APART), None);
    expect_shown(rt, alloc, FILE, FILE, attributes);
    let second = file((1 << 63, (109 << 21) + 2), APART);
    expect_shown(rt, alloc, FILE, second, unwritten);
}

// The leaf of a btree, and the block that it maps.
fn expect_of_trees(rt: &impl Abort, alloc: Global) {
    let leaf = overlap(40, Claim::Data(196), Claim::ForkTree(195));
    let second = file((0, (40 << 21) + 1), APART);
    expect_shown(rt, alloc, TREE, second, leaf);
    let mapped = overlap(120, Claim::Data(195), Claim::Attr(196));
    let second = file(FILE.data, (0, (120 << 21) + 1));
    expect_shown(rt, alloc, TREE, second, mapped);
}

#[test]
fn forks_claim_what_they_map(rt: HostRuntime) {
    let alloc = rt.alloc();
    expect_of_files(&rt, alloc);
    // A free inode claims nothing.
    let free = Shape { mode: 0, ..FILE };
    expect_shown(&rt, alloc, FILE, free, None);
    expect_shown(&rt, alloc, free, FILE, None);
    expect_of_trees(&rt, alloc);
}

// A mapping without a block, and one that passes the group's end.
fn expect_out_of_range(rt: &impl Abort, alloc: Global) {
    let none = file((0, 100 << 21), FILE.attr);
    let far = file(FILE.data, (0, (255 << 21) + 2));
    let fault = ForkFault::Range;
    expect_shown(rt, alloc, none, FILE, bad_fork(195, fault));
    expect_shown(rt, alloc, far, FILE, bad_fork(195, fault));
    expect_shown(rt, alloc, FILE, far, bad_fork(196, fault));
}

// More mappings than fit; of two bad forks the data fork's fault, of two bad inodes the first's.
fn expect_first_fault(rt: &impl Abort, alloc: Global) {
    let many = Shape { count: 13, ..FILE };
    let both = Shape {
        attr: (0, (255 << 21) + 2),
        ..many
    };
    let unknown = Shape { format: 9, ..FILE };
    expect_shown(rt, alloc, many, FILE, bad_fork(195, ForkFault::Count));
    expect_shown(rt, alloc, both, FILE, bad_fork(195, ForkFault::Count));
    expect_shown(rt, alloc, unknown, many, bad_fork(195, ForkFault::Format));
}

// A btree with another number of mappings than its core says, and with a bad block.
fn expect_bad_trees(rt: &impl Abort, alloc: Global) {
    let two = Shape { count: 2, ..TREE };
    let lost = Shape {
        pointer: 41,
        ..TREE
    };
    expect_shown(rt, alloc, two, FILE, bad_fork(195, ForkFault::Count));
    expect_shown(rt, alloc, lost, FILE, bad_fork(195, ForkFault::Block));
}

#[test]
fn the_first_bad_fork_is_shown(rt: HostRuntime) {
    let alloc = rt.alloc();
    expect_out_of_range(&rt, alloc);
    expect_first_fault(&rt, alloc);
    expect_bad_trees(&rt, alloc);
    // A bad fork of a free inode is none.
    let free = Shape {
        mode: 0,
        count: 13,
        ..FILE
    };
    expect_shown(&rt, alloc, free, FILE, None);
}
