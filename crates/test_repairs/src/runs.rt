//! Runs over a host in memory with one image and one redo file, and what the image holds then.
use super::same::same;
use byte_fields::{Block, get_u32};
use image_hosts::{MemHost, MemImage, MemRedo};
use small_images::{ALL_GOOD, RunEnd, fsck_main, words_of};
use std::alloc::{AllocError, Global};
use std::collections::BTreeMap;
use std::process::Abort;

/// What is expected where memory is asked for.
pub(crate) const MEMORY: &str = "memory is there";

/// The words of a repair, and of a check.
pub(crate) const REPAIR: [&str; 4] = ["repair", "a.img", "--redo", "b"];

pub(crate) const CHECK: [&str; 2] = ["check", "a.img"];

/// A redo file of so many blocks, of which these aren't zeros.
pub(crate) fn redo_of(
    alloc: Global,
    size: u64,
    blocks: &[(u64, Block)],
) -> Result<MemRedo, AllocError> {
    let mut map = BTreeMap::new(alloc);
    for (at, block) in blocks {
        map.insert(*at, *block)?;
    }
    Ok(MemRedo {
        size,
        blocks: map,
        is_lost: false,
    })
}

// A host with this image and this redo file.
fn host_with(alloc: Global, image: MemImage, redo: MemRedo) -> Result<MemHost, AllocError> {
    let mut images = BTreeMap::new(alloc);
    images.insert(String::from_str(alloc, "a.img")?, image)?;
    let mut host = MemHost::new(alloc, images, Vec::new(alloc));
    host.redos.insert(String::from_str(alloc, "b")?, redo)?;
    Ok(host)
}

/// A host with this image and a redo file of so many blocks, of which these aren't zeros.
pub(crate) fn host_beside(
    alloc: Global,
    image: MemImage,
    size: u64,
    blocks: &[(u64, Block)],
) -> Result<MemHost, AllocError> {
    let redo = redo_of(alloc, size, blocks)?;
    host_with(alloc, image, redo)
}

/// A host with this image and a redo file of zeros.
pub(crate) fn host_of(
    rt: &impl Abort,
    alloc: Global,
    image: Result<MemImage, AllocError>,
) -> MemHost {
    let image = image.expect(rt, MEMORY);
    host_beside(alloc, image, 162, &[]).expect(rt, MEMORY)
}

// Runs the words, over a report that is empty.
fn run_words(alloc: Global, host: &mut MemHost, words: &[&str]) -> Result<RunEnd, AllocError> {
    let texts = words_of(alloc, words)?;
    host.report.clear();
    Ok(fsck_main(alloc, host, texts.as_slice()))
}

/// Runs the words over this host.
pub(crate) fn run(rt: &impl Abort, alloc: Global, host: &mut MemHost, words: &[&str]) -> RunEnd {
    run_words(alloc, host, words).expect(rt, MEMORY)
}

/// Asserts the status and the report of the last run.
pub(crate) fn expect_said(rt: &impl Abort, host: &MemHost, found: u8, status: u8, report: &str) {
    let shown = str::from_utf8(host.report.as_slice()).expect(rt, "a report is text");
    same(rt, (found, shown), (status, report));
}

/// Runs the words over this host, and asserts how that ends.
pub(crate) fn expect_run(
    rt: &impl Abort,
    alloc: Global,
    host: &mut MemHost,
    words: &[&str],
    wanted: (u8, &str),
) {
    let end = run(rt, alloc, host, words);
    expect_said(rt, host, end.status, wanted.0, wanted.1);
}

/// Asserts that a check of this host's image finds all good.
pub(crate) fn expect_good(rt: &impl Abort, alloc: Global, host: &mut MemHost) {
    expect_run(rt, alloc, host, &CHECK, (0, ALL_GOOD));
}

// The number in the four bytes at this place, or 0 where they don't lie in the block.
fn word_in(block: &Block, at: usize) -> u32 {
    if at <= 4092 {
        return get_u32(&block.bytes, at);
    }
    0
}

// A block of the host's image; zeros where it holds none.
fn block_of(host: &MemHost, number: u64) -> Block {
    match host.images.get("a.img") {
        Some(image) => block_in(image, number),
        None => Block::zeroed(),
    }
}

/// A block of an image; zeros where it holds none.
pub(crate) fn block_in(image: &MemImage, number: u64) -> Block {
    match image.blocks.get(&number) {
        Some(block) => *block,
        None => Block::zeroed(),
    }
}

/// The number in the four bytes at a place of a block of the host's image.
pub(crate) fn word_of(host: &MemHost, number: u64, at: usize) -> u32 {
    let block = block_of(host, number);
    word_in(&block, at)
}

/// The number in the four bytes at a place of a block of the host's redo file.
pub(crate) fn redo_word(host: &MemHost, number: u64, at: usize) -> u32 {
    match host.redos.get("b") {
        Some(redo) => match redo.blocks.get(&number) {
            Some(block) => word_in(block, at),
            None => 0,
        },
        None => 0,
    }
}

/// Asserts numbers of four bytes, each with its block and its place there.
pub(crate) fn expect_words(rt: &impl Abort, host: &MemHost, words: &[(u64, usize, u32)]) {
    for (number, at, wanted) in words {
        let found = word_of(host, *number, *at);
        same(rt, (*number, *at, found), (*number, *at, *wanted));
    }
}

// Whether a block of the host's image is that of this image.
fn is_same_block(host: &MemHost, image: &MemImage, number: u64) -> bool {
    let found = block_of(host, number);
    let wanted = block_in(image, number);
    found == wanted
}

/// Asserts that these blocks of the host's image are those of this one.
pub(crate) fn expect_same(rt: &impl Abort, host: &MemHost, image: &MemImage, blocks: (u64, u64)) {
    for number in blocks.0..blocks.1 {
        let is_same = is_same_block(host, image, number);
        same(rt, (number, is_same), (number, true));
    }
}
