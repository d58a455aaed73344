//! Checks with a redo file beside the image.
use super::same::same;
use crate::runs::{MEMORY, expect_end, image_with};
use byte_fields::Block;
use image_hosts::{MemHost, MemImage, MemRedo, Purpose};
use small_images::{
    ALL_GOOD, RunEnd, altered, fsck_main, mended_heads, small_heads, small_image, words_of,
};
use std::alloc::{AllocError, Global};
use std::collections::BTreeMap;
use std::process::Abort;

// A block with this in its first byte.
fn gate(first: u8) -> Block {
    let mut block = Block::zeroed();
    block.bytes[0] = first;
    block
}

// A redo file of so many blocks, whose gate has this in its first byte.
fn redo_of(alloc: Global, size: u64, first: u8) -> Result<MemRedo, AllocError> {
    let mut blocks = BTreeMap::new(alloc);
    blocks.insert(0, gate(first))?;
    Ok(MemRedo {
        size,
        blocks,
        is_lost: false,
    })
}

// Checks the image with the redo file `b` beside it.
fn run_beside(
    alloc: Global,
    image: MemImage,
    redo: MemRedo,
) -> Result<(RunEnd, MemHost), AllocError> {
    let words = words_of(alloc, &["check", "a.img", "--redo", "b"])?;
    let mut images = BTreeMap::new(alloc);
    images.insert(String::from_str(alloc, "a.img")?, image)?;
    let mut host = MemHost::new(alloc, images, Vec::new(alloc));
    host.redos.insert(String::from_str(alloc, "b")?, redo)?;
    let end = fsck_main(alloc, &mut host, words.as_slice());
    Ok((end, host))
}

// Checks the image beside a redo file of 162 blocks whose gate has this in its first byte.
fn check_beside(rt: &impl Abort, alloc: Global, image: MemImage, first: u8) -> (RunEnd, MemHost) {
    let redo = redo_of(alloc, 162, first).expect(rt, MEMORY);
    run_beside(alloc, image, redo).expect(rt, MEMORY)
}

// Asserts that the image was asked for with the redo file, once, to be checked.
fn expect_asked(rt: &impl Abort, host: &MemHost) {
    same(rt, host.asked.len(), 1);
    for asked in &host.asked {
        same(rt, asked.image.as_str(), "a.img");
        same(rt, asked.redo.as_deref(), Some("b"));
        same(rt, asked.purpose, Purpose::Check);
    }
}

// Asserts that the redo file is there, with so many blocks and this gate.
fn expect_kept(rt: &impl Abort, host: &MemHost, size: u64, first: u8) {
    match host.redos.get("b") {
        Some(kept) => {
            same(rt, kept.size, size);
            same(rt, kept.blocks.get(&0), Some(&gate(first)));
        }
        None => panic!(rt; "the redo file is gone"),
    }
}

// Asserts how a check of the small image ends beside a redo file of so many blocks with this gate.
fn expect_by_redo(rt: &impl Abort, alloc: Global, size: u64, first: u8, status: u8, report: &str) {
    let image = small_image(alloc).expect(rt, MEMORY);
    let redo = redo_of(alloc, size, first).expect(rt, MEMORY);
    let (end, host) = run_beside(alloc, image, redo).expect(rt, MEMORY);
    expect_end(rt, &end, &host, status, report);
    expect_asked(rt, &host);
    expect_kept(rt, &host, size, first);
}

#[test]
fn a_redo_file_is_looked_at_by_its_length_and_its_gate(rt: HostRuntime) {
    let alloc = rt.alloc();
    for (size, first, status, report) in [
        (162, 1, 4, "redo waiting\n"),
        (200, 1, 4, "redo waiting\n"),
        (162, 0, 0, ALL_GOOD),
        (162, 7, 0, ALL_GOOD),
        (162, 2, 0, ALL_GOOD),
        (161, 0, 4, "redo short\n"),
        (161, 1, 4, "redo short\n"),
        (0, 1, 4, "redo short\n"),
    ] {
        expect_by_redo(&rt, alloc, size, first, status, report);
    }
}

// Checks the small image with the name of a redo file that isn't there.
fn check_beside_none(alloc: Global) -> Result<(RunEnd, MemHost), AllocError> {
    let words = words_of(alloc, &["check", "a.img", "--redo=c"])?;
    let mut images = BTreeMap::new(alloc);
    images.insert(String::from_str(alloc, "a.img")?, small_image(alloc)?)?;
    let mut host = MemHost::new(alloc, images, Vec::new(alloc));
    let end = fsck_main(alloc, &mut host, words.as_slice());
    Ok((end, host))
}

#[test]
fn a_redo_file_that_isn_t_there_holds_nothing(rt: HostRuntime) {
    let (end, host) = check_beside_none(rt.alloc()).expect(&rt, MEMORY);
    expect_end(&rt, &end, &host, 0, ALL_GOOD);
}

// An image of zeros.
fn zeros(alloc: Global, size: u64) -> MemImage {
    MemImage {
        size,
        blocks: BTreeMap::new(alloc),
        failing: Vec::new(alloc),
    }
}

// Asserts that this image is refused with this line beside a closed redo file.
fn expect_refused(rt: &impl Abort, alloc: Global, image: MemImage, report: &str) {
    let (end, host) = check_beside(rt, alloc, image, 0);
    expect_end(rt, &end, &host, 4, report);
}

#[test]
fn the_redo_file_is_looked_at_before_the_image(rt: HostRuntime) {
    let alloc = rt.alloc();
    // Images without a block, and with blocks of zeros.
    for size in [0, 10, 256] {
        let (end, host) = check_beside(&rt, alloc, zeros(alloc, size), 1);
        expect_end(&rt, &end, &host, 4, "redo waiting\n");
    }
    let magic = mended_heads(altered(small_heads(), 0, 0x5846_5344));
    let head = mended_heads(altered(small_heads(), 512, 0x5841_4749));
    let magic = image_with(&rt, alloc, &[(0, magic)]);
    let head = image_with(&rt, alloc, &[(0, head)]);
    expect_refused(&rt, alloc, zeros(alloc, 0), "image deviceshort\n");
    expect_refused(&rt, alloc, magic, "image magic\n");
    expect_refused(&rt, alloc, head, "group 0 agf magic\n");
}

// Checks the small image, of whose device this call fails, beside a redo file with this gate.
fn check_failing(rt: &impl Abort, alloc: Global, call: u64, first: u8) -> (RunEnd, MemHost) {
    let mut image = small_image(alloc).expect(rt, MEMORY);
    image.failing.push(call).expect(rt, MEMORY);
    check_beside(rt, alloc, image, first)
}

#[test]
fn a_device_that_fails_at_the_gate_ends_the_check(rt: HostRuntime) {
    let alloc = rt.alloc();
    // The gate, and block 0 of the image.
    for (call, first) in [(0, 0), (0, 1), (1, 0)] {
        let (end, host) = check_failing(&rt, alloc, call, first);
        expect_end(&rt, &end, &host, 5, "device failed\n");
        same(&rt, host.dev_faults, 1);
    }
    // A gate that is open ends it before that.
    let (end, host) = check_failing(&rt, alloc, 1, 1);
    expect_end(&rt, &end, &host, 4, "redo waiting\n");
}
