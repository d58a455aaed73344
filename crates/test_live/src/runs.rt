// Runs of the whole program over a host in memory, and how they are to end.
ghost use Rattle.std.specs.Thread.{IsSync};

use super::same::same;
use image_hosts::{MemHost, MemImage};
use live_jobs::{Gate, RunEnd, fsck_live};
use small_images::words_of;
use std::alloc::{AllocError, Global};
use std::collections::BTreeMap;
use std::process::Abort;
use std::sync::Wait;
use std::thread::Threads;

/// What is expected where memory is asked for.
pub(crate) const MEMORY: &str = "memory is there";

// A host with this image under the name `a.img`, with an empty one for a drill, and with this script
// under the name `s`.
fn host_of(alloc: Global, image: MemImage, script: &str) -> Result<MemHost, AllocError> {
    let mut images = BTreeMap::new(alloc);
    images.insert(String::from_str(alloc, "a.img")?, image)?;
    let scratch = MemImage {
        size: 1,
        blocks: BTreeMap::new(alloc),
        failing: Vec::new(alloc),
    };
    images.insert(String::from_str(alloc, "xscrub.scratch")?, scratch)?;
    let mut host = MemHost::new(alloc, images, Vec::new(alloc));
    let mut bytes = Vec::new(alloc);
    bytes.extend_from_slice(script.as_bytes())?;
    host.scripts.insert(String::from_str(alloc, "s")?, bytes)?;
    Ok(host)
}

/// Runs these words on a host with this image and this script.
pub(crate) fn run_with<R: Threads + Wait + Sync + Abort, G: Gate + Sync>(
    rt: &R,
    alloc: Global,
    image: MemImage,
    script: &str,
    words: &[&str],
    gate: &G,
) -> (RunEnd, MemHost)
    requires { IsSync R.row }
{
    let mut host = host_of(alloc, image, script).expect(rt, MEMORY);
    let texts = words_of(alloc, words).expect(rt, MEMORY);
    let end = fsck_live(rt, alloc, &mut host, gate, texts.as_slice());
    (end, host)
}

/// What a run reported.
pub(crate) fn report_of<'a>(rt: &impl Abort, host: &'a MemHost) -> &'a str {
    str::from_utf8(host.report.as_slice()).expect(rt, "a report is text")
}

/// Asserts how a run of these words ends, and what it reports; the host then.
pub(crate) fn expect_run<R: Threads + Wait + Sync + Abort, G: Gate + Sync>(
    rt: &R,
    alloc: Global,
    run: (MemImage, &str, &[&str]),
    gate: &G,
    status: u8,
    report: &str,
) -> MemHost
    requires { IsSync R.row }
{
    let (end, host) = run_with(rt, alloc, run.0, run.1, run.2, gate);
    same(rt, (end.status, report_of(rt, &host)), (status, report));
    host
}
