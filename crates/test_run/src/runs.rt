//! Runs over a host in memory, and how they are to end.
use super::same::same;
use blk_device::MemDevice;
use byte_fields::Block;
use image_hosts::{MemHost, MemImage};
use small_images::{RunEnd, run_words, small_with, two_groups_with};
use std::alloc::Global;
use std::process::Abort;

/// What is expected where memory is asked for.
pub(crate) const MEMORY: &str = "memory is there";

/// Runs the words over this image, named `a.img`.
pub(crate) fn run_over(
    rt: &impl Abort,
    alloc: Global,
    words: &[&str],
    image: MemImage,
) -> (RunEnd, MemHost) {
    run_words(alloc, words, image, Vec::new(alloc)).expect(rt, MEMORY)
}

/// The small image with these blocks in the place of its own.
pub(crate) fn image_with(rt: &impl Abort, alloc: Global, blocks: &[(u64, Block)]) -> MemImage {
    small_with(alloc, blocks).expect(rt, MEMORY)
}

/// A device over a sound image of two groups.
pub(crate) fn two_group_device(rt: &impl Abort, alloc: Global) -> MemDevice {
    let image = two_groups_with(alloc, &[]).expect(rt, MEMORY);
    let device = MemDevice::with_image(alloc, image.size, 1, image.blocks, Vec::new(alloc));
    device.expect(rt, MEMORY)
}

/// Asserts how a run ended and what it reported.
pub(crate) fn expect_end(rt: &impl Abort, end: &RunEnd, host: &MemHost, status: u8, report: &str) {
    let shown = str::from_utf8(host.report.as_slice()).expect(rt, "a report is text");
    same(rt, (end.status, shown), (status, report));
}

/// Asserts how a check of this image ends and what it reports.
pub(crate) fn expect_check(
    rt: &impl Abort,
    alloc: Global,
    image: MemImage,
    status: u8,
    report: &str,
) {
    let (end, host) = run_over(rt, alloc, &["check", "a.img"], image);
    expect_end(rt, &end, &host, status, report);
}
