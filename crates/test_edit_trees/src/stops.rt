// A commit of an edit that stops after so many calls of the device, and a crash then.
use super::same::{same, same_in_row};
use crate::groups::free_list;
use crate::kinds::{evens, list_of};
use crate::play::{device_with, edit_in, lay, records_of, tree_at};
use blk_device::{FuseDevice, MemDevice, Unsynced};
use redo_area::recover;
use span_recs::{BnoKind, SpanRec};
use std::alloc::Global;
use std::collections::BTreeMap;
use std::marker::Brand;
use std::sync::ledger::Blank;
use std::test::Fail;
use tree_edit::Edit;

// A full leaf, on a device that passes so many calls on, after a record was put in; and whether that
// was done.
fn stopped_after(alloc: Global, calls: u64) -> Result<(MemDevice, bool), Fail> {
    let recs = list_of::<BnoKind>(alloc, &evens(alloc, 505)?)?;
    let mut blocks = BTreeMap::new(alloc);
    let mut tree = tree_at::<BnoKind>(lay::<BnoKind>(alloc, &mut blocks, &recs, 500)?, 1);
    let mut fuse = FuseDevice::new(device_with(alloc, blocks)?, calls);
    let mut list = free_list(5);
    let mut limbo = Vec::new(alloc);
    let rec = SpanRec { start: 2, count: 1 };
    let blank = Blank::new(3);
    let answer = edit_in::<BnoKind, FuseDevice, Brand>(
        alloc,
        &mut fuse,
        &mut tree,
        &mut list,
        &mut limbo,
        Edit::Insert,
        rec,
        blank,
    );
    Ok((fuse.into_inner(), answer.is_ok()))
}

// How many records the tree of this root and so many levels has, none where it isn't read.
fn count_of(alloc: Global, dev: &mut MemDevice, root: u32, levels: u32) -> Option<usize> {
    match records_of::<BnoKind>(alloc, dev, root, levels) {
        Ok(recs) => Some(recs.len()),
        Err(_) => None,
    }
}

// What is read after a crash and a recovery: the tree before, and the one afterwards.
fn left_by(
    alloc: Global,
    stopped: &MemDevice,
    choices: &[Unsynced],
) -> Result<[Option<usize>; 2], Fail> {
    let mut left = stopped.crash_by(alloc, choices)?;
    if recover(&mut left).is_err() {
        return Ok([None, None]);
    }
    Ok([
        count_of(alloc, &mut left, 500, 1),
        count_of(alloc, &mut left, 701, 2),
    ])
}

// Whether what is left is the tree before the edit, unless that was done, or the one afterwards.
fn is_either(left: [Option<usize>; 2], is_done: bool) -> bool {
    let is_old = !is_done && left == [Some(505), None];
    is_old || left == [None, Some(506)]
}

// One read of the walk and two of the list's blocks, then two calls a block and seven of the commit.
#[test]
fn a_stopped_edit_leaves_the_tree_before_or_afterwards(rt: HostRuntime) -> Result<(), Fail> {
    let alloc = rt.alloc();
    let mixed = [Unsynced::Present, Unsynced::Torn, Unsynced::Absent];
    for calls in 0..18u64 {
        let (stopped, is_done) = stopped_after(alloc, calls)?;
        same(&rt, is_done, calls >= 16);
        for choices in [[Unsynced::Absent; 3], [Unsynced::Present; 3], mixed] {
            let left = left_by(alloc, &stopped, &choices)?;
            same_in_row(&rt, calls, is_either(left, is_done), true);
        }
    }
    Ok(())
}
