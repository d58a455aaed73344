//! How a check of an image in memory is to end.
use super::same::same;
use image_hosts::{MemHost, MemImage};
use small_images::{RunEnd, run_words};
use std::alloc::{AllocError, Global};
use std::process::Abort;

/// What is expected where memory is asked for.
pub(crate) const MEMORY: &str = "memory is there";

// These texts, one behind the other.
fn joined(alloc: Global, texts: &[&str]) -> Result<String, AllocError> {
    let mut all = String::new(alloc);
    for text in texts {
        all.push_str(text)?;
    }
    Ok(all)
}

/// Checks an image.
pub(crate) fn checked(
    rt: &impl Abort,
    alloc: Global,
    image: Result<MemImage, AllocError>,
) -> (RunEnd, MemHost) {
    let image = image.expect(rt, MEMORY);
    run_words(alloc, &["check", "a.img"], image, Vec::new(alloc)).expect(rt, MEMORY)
}

/// What a run reported.
pub(crate) fn report_of<'a>(rt: &impl Abort, host: &'a MemHost) -> &'a str {
    str::from_utf8(host.report.as_slice()).expect(rt, "a report is text")
}

/// Asserts how a check of this image ends, and that it reports these texts, one behind the other.
pub(crate) fn expect_check(
    rt: &impl Abort,
    alloc: Global,
    image: Result<MemImage, AllocError>,
    status: u8,
    texts: &[&str],
) {
    let (end, host) = checked(rt, alloc, image);
    let report = joined(alloc, texts).expect(rt, MEMORY);
    same(
        rt,
        (end.status, report_of(rt, &host)),
        (status, report.as_str()),
    );
}
