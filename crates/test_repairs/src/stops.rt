//! Repairs of which one call to the device fails: at each, the old root or the new one is there, whole, and a further
//! repair ends well.
use crate::files::{emptied, owned_but};
use crate::runs::{MEMORY, REPAIR, expect_good, host_of, redo_word, run, word_of};
use crate::same::same;
use fresh_image::fresh_block;
use image_hosts::{MemHost, MemImage};
use small_images::{RunEnd, altered, at, bno_leaf, run as free_run, small_with};
use std::alloc::{AllocError, Global};
use std::process::Abort;

// The damaged image of a row: free space by start, reverse mappings, the inode btree.
fn damaged(alloc: Global, row: usize) -> Result<MemImage, AllocError> {
    match row {
        0 => {
            let leaf = bno_leaf(at(1), &[free_run(19, 5), free_run(32, 224)]);
            small_with(alloc, &[(1, altered(leaf, 68, 0x1e0))])
        }
        1 => owned_but(alloc, 6),
        _ => small_with(alloc, &[(3, emptied(fresh_block(1, 256, 3)))]),
    }
}

// The place of the head's root pointer that the repair changes, and the old root.
fn root_of(row: usize) -> (usize, u32) {
    match row {
        0 => (528, 1),
        1 => (536, 5),
        _ => (1044, 3),
    }
}

// No call fails any more.
fn mend_device(alloc: Global, host: &mut MemHost) {
    if let Some(image) = host.images.get_mut("a.img") {
        image.failing = Vec::new(alloc);
    }
}

// A host with the image of a row, whose device's call of this number fails.
fn host_failing(rt: &impl Abort, alloc: Global, row: usize, call: u64) -> MemHost {
    let mut image = damaged(alloc, row).expect(rt, MEMORY);
    image.failing.push(call).expect(rt, MEMORY);
    host_of(rt, alloc, Ok(image))
}

// The last line of a report is that of a device that failed.
fn says_failed(rt: &impl Abort, host: &MemHost) -> bool {
    let shown = str::from_utf8(host.report.as_slice()).expect(rt, "a report is text");
    shown.ends_with("device failed\n")
}

// Asserts that the root is the old one, or the new one at block 7.
fn expect_root(rt: &impl Abort, host: &MemHost, row: usize, call: u64) {
    let (place, old) = root_of(row);
    let root = word_of(host, 0, place);
    let is_known = root == old || root == 7;
    same(rt, (row, call, is_known), (row, call, true));
}

// Asserts that a further repair, whose device doesn't fail, ends with 0, and that a check finds all good.
fn expect_mended(rt: &impl Abort, alloc: Global, host: &mut MemHost, row: usize, call: u64) {
    mend_device(alloc, host);
    let end = run(rt, alloc, host, &REPAIR);
    same(rt, (row, call, end.status), (row, call, 0));
    expect_good(rt, alloc, host);
}

// Asserts how a repair of a row's image ends whose call of this number fails, and what comes after. Answers
// whether it failed.
fn fails_at(rt: &impl Abort, alloc: Global, row: usize, call: u64) -> bool {
    let mut host = host_failing(rt, alloc, row, call);
    let end: RunEnd = run(rt, alloc, &mut host, &REPAIR);
    if end.status == 0 {
        return false;
    }
    same(rt, (row, call, end.status), (row, call, 5));
    same(rt, says_failed(rt, &host), true);
    expect_root(rt, &host, row, call);
    expect_mended(rt, alloc, &mut host, row, call);
    true
}

// Whether this call of a repair of free space comes after the copy, in the redo file, of the heads that name the
// new root: where it fails, the copy is there, or the repair was over.
fn is_after_copy(rt: &impl Abort, alloc: Global, call: u64) -> bool {
    let mut host = host_failing(rt, alloc, 0, call);
    let end: RunEnd = run(rt, alloc, &mut host, &REPAIR);
    end.status == 0 || redo_word(&host, 2, 528) == 7
}

// The first call of such a repair that comes after the copy of these heads.
fn first_after_copy(rt: &impl Abort, alloc: Global) -> u64 {
    let mut below = 0u64;
    let mut above = 1024u64;
    for _ in 0..10u32 {
        let middle = below.saturating_add(above) / 2;
        if is_after_copy(rt, alloc, middle) {
            above = middle;
        } else {
            below = middle;
        }
    }
    above
}

// Fails each second call of a repair in turn, from this one on. Answers how many there are.
fn fail_each(rt: &impl Abort, alloc: Global, row: usize, first: u64) -> u64 {
    for i in 0..1000u64 {
        if !fails_at(rt, alloc, row, first.wrapping_add(i.wrapping_mul(2))) {
            return i;
        }
    }
    1000
}

// Table and copy are written, and synced; then the gate is.
#[test]
fn each_write_of_a_switch_may_fail(rt: HostRuntime) {
    let first = first_after_copy(&rt, rt.alloc());
    same(&rt, first > 1 && first < 1000, true);
    for more in 0..4u64 {
        let call = first.saturating_sub(1).saturating_add(more);
        same(
            &rt,
            (call, fails_at(&rt, rt.alloc(), 0, call)),
            (call, true),
        );
    }
}

#[test]
fn calls_of_a_repair_of_free_space_may_fail(rt: HostRuntime) {
    let calls = fail_each(&rt, rt.alloc(), 0, 0);
    same(&rt, calls > 40 && calls < 1000, true);
}

#[test]
fn calls_of_a_repair_of_reverse_mappings_may_fail(rt: HostRuntime) {
    let calls = fail_each(&rt, rt.alloc(), 1, 1);
    same(&rt, calls > 40 && calls < 1000, true);
}

#[test]
fn calls_of_a_repair_of_inodes_may_fail(rt: HostRuntime) {
    let calls = fail_each(&rt, rt.alloc(), 2, 0);
    same(&rt, calls > 40 && calls < 1000, true);
}
