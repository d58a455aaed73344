// The inodes of a new image with one number changed and the checksums mended, and every fault of them.
use super::same::same;
use crate::inodes::{block_at, change_byte, fresh, inodes_of, is_all};
use blk_device::{Device, MemDevice, Region};
use byte_fields::{Block, put_sum, put_u32, sum_at};
use fs_model::{AnyRec, Claim, Counter, Entry, Evidence, Fault, Reason, Unit, Verdict};
use ino_recs::InoRec;
use sblock::{BlockFault, Kind};
use std::alloc::Global;
use std::process::Abort;

// The block with the checksums of the sectors 1 to 3 stored, which are a group's heads.
fn mended_heads(mut block: Block) -> Block {
    let agf = sum_at(&block.bytes[512..1024], 216);
    put_sum(&mut block.bytes, 728, agf);
    let agi = sum_at(&block.bytes[1024..1536], 312);
    put_sum(&mut block.bytes, 1336, agi);
    let agfl = sum_at(&block.bytes[1536..2048], 32);
    put_sum(&mut block.bytes, 1568, agfl);
    block
}

// The block with the checksum of a btree block stored.
fn mended_leaf(mut block: Block) -> Block {
    let sum = sum_at(&block.bytes, 52);
    put_sum(&mut block.bytes, 52, sum);
    block
}

// The block with the checksums that it has by its place.
fn mended(block: Block, at: u64) -> Block {
    if at == 0 {
        mended_heads(block)
    } else {
        mended_leaf(block)
    }
}

// Stores a number in a block of the first group, and mends its checksums.
fn store(device: &mut MemDevice, at: u64, place: usize, value: u32) -> bool {
    let Some(mut block) = block_at(device, at) else {
        return false;
    };
    if place > 4092 || at >= device.size(Region::Image) {
        return false;
    }
    put_u32(&mut block.bytes, place, value);
    device.write(Region::Image, at, &mended(block, at)).is_ok()
}

// A new image of one group with these numbers in its blocks.
fn stored(alloc: Global, changes: &[(u64, usize, u32)]) -> Option<MemDevice> {
    let mut device = fresh(alloc, 1, 256)?;
    for (at, place, value) in changes {
        if !store(&mut device, *at, *place, *value) {
            return None;
        }
    }
    Some(device)
}

// Whether this is the entry of that fault.
fn is_fault(entry: &Entry, fault: &Fault) -> bool {
    match entry {
        Entry::Fault {
            group: 0,
            unit: Unit::Inode,
            fault: found,
        } => found == fault,
        _ => false,
    }
}

// Whether this is the verdict on the inodes.
fn is_verdict(entry: &Entry, verdict: Verdict) -> bool {
    match entry {
        Entry::Verdict {
            group: 0,
            unit: Unit::Inode,
            verdict: found,
        } => *found == verdict,
        _ => false,
    }
}

// Whether the entries are these faults in their order, and then the verdict with their number.
fn are_faults(entries: &[Entry], faults: &[Fault]) -> bool {
    let Some((last, front)) = entries.split_last() else {
        return false;
    };
    for (entry, fault) in front.iter().zip(faults.iter()) {
        if !is_fault(entry, fault) {
            return false;
        }
    }
    front.len() == faults.len() && is_verdict(last, Verdict::Faulty(faults.len() as u64))
}

// Whether the inodes of the first group have exactly these faults.
fn has(alloc: Global, changes: &[(u64, usize, u32)], faults: &[Fault]) -> bool {
    let Some(mut device) = stored(alloc, changes) else {
        return false;
    };
    match inodes_of(alloc, &mut device, 0) {
        Some(entries) => are_faults(entries.as_slice(), faults),
        None => false,
    }
}

// Whether the inodes of the first group are given up for this evidence.
fn gives_up(alloc: Global, changes: &[(u64, usize, u32)], found: Evidence) -> bool {
    let Some(mut device) = stored(alloc, changes) else {
        return false;
    };
    let verdict = Verdict::GaveUp(Reason::Contradiction(found));
    match inodes_of(alloc, &mut device, 0) {
        Some(entries) => is_all(entries.as_slice(), 0, verdict),
        None => false,
    }
}

// The record of the one chunk, which is the unit from block 24 on, of whose inodes the first three are
// allocated.
fn chunk() -> InoRec {
    InoRec {
        startino: 192,
        holemask: 0,
        count: 64,
        freecount: 61,
        free: 0xffff_ffff_ffff_fff8,
    }
}

fn counter(name: Counter, found: u32, wanted: u32) -> Fault {
    Fault::Counter {
        name,
        found,
        wanted,
    }
}

fn expect_faults(rt: &impl Abort, alloc: Global, changes: &[(u64, usize, u32)], faults: &[Fault]) {
    assert!(rt; has(alloc, changes, faults), "{changes:?}");
}

fn expect_given_up(rt: &impl Abort, alloc: Global, changes: &[(u64, usize, u32)], found: Evidence) {
    assert!(rt; gives_up(alloc, changes, found), "{changes:?}");
}

#[test]
fn each_counter_of_inodes_is_judged(rt: HostRuntime) {
    let alloc = rt.alloc();
    // The places of agi_count, agi_freecount, agi_iblocks and agi_fblocks in block 0.
    for (place, name, found, wanted) in [
        (1040, Counter::Count, 63, 64),
        (1052, Counter::Freecount, 60, 61),
        (1360, Counter::Iblocks, 2, 1),
        (1364, Counter::Fblocks, 0, 1),
    ] {
        let fault = counter(name, found, wanted);
        expect_faults(&rt, alloc, &[(0, place, found)], &[fault]);
    }
}

#[test]
fn each_record_of_inodes_is_judged(rt: HostRuntime) {
    let alloc = rt.alloc();
    let wanted = chunk();
    let missing = Fault::Missing(AnyRec::Ino(wanted));
    // Block 3 has the inode btree's one leaf, and block 4 that of the free inode btree. Their count of
    // records stands behind their level, at place 4, and their one record at place 56.
    expect_faults(&rt, alloc, &[(3, 4, 0)], &[missing]);
    let missing_free = Fault::Missing(AnyRec::Fino(wanted));
    expect_faults(&rt, alloc, &[(4, 4, 0)], &[missing_free]);
    let other = InoRec {
        free: 0xffff_ffff_ffff_fff4,
        ..wanted
    };
    let changed = [missing, Fault::Extra(AnyRec::Ino(other))];
    expect_faults(&rt, alloc, &[(3, 68, 0xffff_fff4)], &changed);
    expect_second_record(&rt, alloc);
}

// A second record for a unit that holds no inodes: at the end, where the first has another key.
fn expect_second_record(rt: &impl Abort, alloc: Global) {
    let second = [
        (3, 4, 2),
        (3, 72, 256),
        (3, 76, 0x0000_403d),
        (3, 80, 0xffff_ffff),
        (3, 84, 0xffff_fff8),
    ];
    let wanted = chunk();
    let more = InoRec {
        startino: 256,
        ..wanted
    };
    expect_faults(rt, alloc, &second, &[Fault::Extra(AnyRec::Ino(more))]);
}

#[test]
fn each_evidence_against_inodes_is_shown(rt: HostRuntime) {
    let alloc = rt.alloc();
    // A record with a hole, which is a form that isn't supported yet, in each of the two trees.
    for (kind, block) in [(Kind::Ino, 3), (Kind::Fino, 4)] {
        let later = Evidence::Later { kind, block };
        expect_given_up(&rt, alloc, &[(u64::from(block), 60, 0x0001_403d)], later);
    }
    // The first block of the free list is the root of the reverse mappings.
    let overlap = Evidence::Overlap {
        block: 5,
        first: Claim::List,
        second: Claim::Tree(Kind::Rmap),
    };
    expect_given_up(&rt, alloc, &[(0, 1572, 5)], overlap);
}

// The journal of the inodes of a new image, once each of these blocks has a checksum that fails.
fn without(alloc: Global, blocks: &[u64]) -> Option<Vec<Entry>> {
    let mut device = fresh(alloc, 1, 256)?;
    for at in blocks {
        if !change_byte(&mut device, *at, 4095) {
            return None;
        }
    }
    inodes_of(alloc, &mut device, 0)
}

// Whether they then have this fault alone.
fn has_without(alloc: Global, blocks: &[u64], fault: Fault) -> bool {
    match without(alloc, blocks) {
        Some(entries) => are_faults(entries.as_slice(), &[fault]),
        None => false,
    }
}

// Whether they then get this verdict, and no fault.
fn is_judged_without(alloc: Global, blocks: &[u64], verdict: Verdict) -> bool {
    match without(alloc, blocks) {
        Some(entries) => is_all(entries.as_slice(), 0, verdict),
        None => false,
    }
}

#[test]
fn trees_that_cannot_be_read(rt: HostRuntime) {
    let alloc = rt.alloc();
    let unreadable = Fault::Block {
        kind: Kind::Ino,
        block: 3,
        fault: BlockFault::Checksum,
    };
    let neither = Verdict::GaveUp(Reason::Contradiction(Evidence::BadTree {
        kind: Kind::Rmap,
        block: 5,
    }));
    // The chunk is known by the reverse mappings alone, and then by the inode btree alone.
    let by_owners = has_without(alloc, &[3], unreadable);
    let by_inodes = is_judged_without(alloc, &[5], Verdict::Good);
    let by_none = is_judged_without(alloc, &[3, 5], neither);
    same(&rt, [by_owners, by_inodes, by_none], [true, true, true]);
}
