// Scans beside writers, call by call.
use super::same::same;
use crate::counting::Counts;
use crate::shadows::{FITS, has_room, rec_of, runs_of};
use live_hooks::{GroupRec, Listener, tell_delta, tell_inode, tell_last, tell_piece};
use rmap_recs::{Memory, RmapRec};
use shadow_rmap::Shadow;
use std::process::Abort;

// The user of all files.
const UID: u32 = 1000;

// A piece of the inode that the scan holds.
fn give<L: Listener>(listener: &mut L, ino: u64, group: u32, rec: RmapRec) -> Result<(), Memory> {
    if !has_room(&rec) {
        return Err(Memory);
    }
    tell_piece::<L>(listener, ino, UID, &GroupRec { group, rec })
}

// A finished step of reverse mappings, beside a scan with this cursor.
fn finish<L: Listener>(
    listener: &mut L,
    cursor: u64,
    group: u32,
    rec: RmapRec,
    add: bool,
) -> Result<(), Memory> {
    if !has_room(&rec) {
        return Err(Memory);
    }
    tell_delta::<L>(
        listener,
        cursor,
        rec.owner,
        UID,
        &GroupRec { group, rec },
        add,
    )
}

// The scan has passed 192 to 194, which have no blocks, and then holds 195. Behind it an inode is
// made and given blocks, before it 200 is; 195 loses a block after it was given.
fn scan<L: Listener>(listener: &mut L) -> Result<(), Memory> {
    tell_last::<L>(listener, 192, UID)?;
    tell_last::<L>(listener, 193, UID)?;
    tell_last::<L>(listener, 194, UID)?;
    give::<L>(listener, 195, 0, rec_of(40, 3, 195, 0))?;
    give::<L>(listener, 195, 1, rec_of(9, 1, 195, 3))?;
    tell_last::<L>(listener, 195, UID)?;
    tell_inode::<L>(listener, 195, 100, UID, true)?;
    finish::<L>(listener, 195, 0, rec_of(50, 2, 100, 0), true)?;
    tell_inode::<L>(listener, 195, 200, UID, true)?;
    finish::<L>(listener, 195, 0, rec_of(60, 2, 200, 0), true)?;
    finish::<L>(listener, 195, 0, rec_of(41, 1, 195, 1), false)
}

#[test]
fn a_scan_of_inodes_without_blocks_leaves_the_shadow_empty(rt: HostRuntime) {
    let mut shadow = Shadow::new(rt.alloc(), 0).expect(&rt, FITS);
    same(&rt, shadow.next_run(None), None);
    for ino in [192, 193, 194] {
        tell_last::<Shadow>(&mut shadow, ino, UID).expect(&rt, FITS);
    }
    same(&rt, shadow.next_run(None), None);
}

#[test]
fn a_shadow_hears_of_its_group_and_of_visited_inodes(rt: HostRuntime) {
    let mut shadow = Shadow::new(rt.alloc(), 0).expect(&rt, FITS);
    scan::<Shadow>(&mut shadow).expect(&rt, FITS);
    let runs = runs_of(rt.alloc(), &shadow).expect(&rt, FITS);
    let wanted = [
        rec_of(40, 1, 195, 0),
        rec_of(42, 1, 195, 2),
        rec_of(50, 2, 100, 0),
    ];
    same(&rt, runs.as_slice(), wanted.as_slice());
}

// Asserts how many inodes and blocks were counted.
fn expect_counts(rt: &impl Abort, counts: &Counts, inodes: u64, blocks: u64) {
    same(rt, (counts.inodes, counts.blocks), (inodes, blocks));
}

#[test]
fn a_counting_listener_hears_of_all_groups(rt: HostRuntime) {
    let mut counts = Counts {
        inodes: 0,
        blocks: 0,
    };
    scan::<Counts>(&mut counts).expect(&rt, FITS);
    expect_counts(&rt, &counts, 5, 5);
    // 100 loses its blocks and is given back, as the scan goes on.
    finish::<Counts>(&mut counts, 195, 0, rec_of(50, 2, 100, 0), false).expect(&rt, FITS);
    tell_inode::<Counts>(&mut counts, 195, 100, UID, false).expect(&rt, FITS);
    expect_counts(&rt, &counts, 4, 3);
    counts.clear();
    expect_counts(&rt, &counts, 0, 0);
}
