//! New images.
use super::same::same;
use crate::runs::{MEMORY, expect_end, run_over};
use byte_fields::Block;
use fresh_image::fresh_block;
use image_hosts::{MemHost, MemImage, Purpose};
use small_images::{ALL_GOOD, RunEnd, bare_image, fsck_main, run_words, small_heads, words_of};
use std::alloc::{AllocError, Global};
use std::collections::BTreeMap;
use std::process::Abort;

// Asserts that the stored image is the new one, block for block.
fn expect_fresh(rt: &impl Abort, image: &MemImage) {
    same(rt, image.size, 256);
    for at in 0..256 {
        let block = match image.blocks.get(&at) {
            Some(block) => *block,
            None => Block::zeroed(),
        };
        same(rt, (at, block), (at, fresh_block(1, 256, at)));
    }
}

// Asserts that the host was asked for a new image of 256 blocks, once.
fn expect_asked(rt: &impl Abort, host: &MemHost) {
    same(rt, host.asked.len(), 1);
    for asked in &host.asked {
        same(rt, asked.image.as_str(), "a.img");
        assert!(rt; asked.redo.is_none());
        same(rt, asked.purpose, Purpose::Make(256));
    }
}

// Asserts that the host has the new image under its name.
fn expect_made(rt: &impl Abort, host: &MemHost) {
    match host.images.get("a.img") {
        Some(image) => expect_fresh(rt, image),
        None => panic!(rt; "the image is gone"),
    }
}

// Asserts that a new image takes the place of one of so many blocks with heads, and is good.
fn expect_new_in_place(rt: &impl Abort, alloc: Global, size: u64) {
    let blocks = [(0, small_heads()), (2, small_heads())];
    let before = bare_image(alloc, size, &blocks).expect(rt, MEMORY);
    let (end, mut host) = run_over(rt, alloc, &["make", "a.img"], before);
    expect_end(rt, &end, &host, 0, "");
    same(rt, end.journal.len(), 0);
    same(rt, end.starts, [0, 0, 0]);
    expect_asked(rt, &host);
    expect_made(rt, &host);
    let words = words_of(alloc, &["check", "a.img"]).expect(rt, MEMORY);
    let end = fsck_main(alloc, &mut host, words.as_slice());
    expect_end(rt, &end, &host, 0, ALL_GOOD);
}

#[test]
fn a_new_image_takes_the_place_of_what_was_there_and_is_good(rt: HostRuntime) {
    // Three blocks, one of them with heads; and one that is longer than the new image.
    for size in [3, 300] {
        expect_new_in_place(&rt, rt.alloc(), size);
    }
}

// Makes an image on a device whose call of this number fails.
fn make_failing(alloc: Global, call: u64) -> Result<(RunEnd, MemHost), AllocError> {
    let mut failing = Vec::new(alloc);
    failing.push(call)?;
    let before = MemImage {
        size: 0,
        blocks: BTreeMap::new(alloc),
        failing,
    };
    run_words(alloc, &["make", "a.img"], before, Vec::new(alloc))
}

#[test]
fn each_call_of_the_device_that_fails_ends_the_making(rt: HostRuntime) {
    // 256 writes, and a sync.
    for call in 0..257 {
        let (end, host) = make_failing(rt.alloc(), call).expect(&rt, MEMORY);
        expect_end(&rt, &end, &host, 5, "device failed\n");
        same(&rt, host.dev_faults, 1);
        expect_asked(&rt, &host);
    }
}

#[test]
fn an_image_that_can_t_be_made_is_the_host_s_fault(rt: HostRuntime) {
    let alloc = rt.alloc();
    let other = bare_image(alloc, 3, &[(0, small_heads())]).expect(&rt, MEMORY);
    let (end, host) = run_over(&rt, alloc, &["make", "b.img"], other);
    expect_end(&rt, &end, &host, 5, "host failed\n");
    same(&rt, host.host_faults, 1);
    same(&rt, host.asked.len(), 1);
}
