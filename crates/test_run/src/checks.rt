use super::same::same;
use crate::runs::{MEMORY, expect_end, image_with, run_over, two_group_device};
use blk_device::MemDevice;
use byte_fields::Block;
use check_watch::NoWatch;
use fs_model::{AnyRec, Entry, Fault, Unit, Verdict};
use image_hosts::{MemHost, MemImage, Purpose};
use sblock::{BlockFault, Kind};
use small_images::{
    ALL_GOOD, RunEnd, at, bno_leaf, judge, run, run_words, small_image, small_with, two_groups_with,
};
use std::alloc::{AllocError, Global};
use std::process::Abort;

const USAGE: &str =
    "usage: xscrub JOB TARGET [--redo FILE] [--script FILE] [--rebuild] [--turns N]\n";

// Asserts how these words end, and that they open no image.
fn expect_unopened(rt: &impl Abort, alloc: Global, words: &[&str], status: u8, report: &str) {
    let image = small_image(alloc).expect(rt, MEMORY);
    let (end, host) = run_over(rt, alloc, words, image);
    expect_end(rt, &end, &host, status, report);
    same(rt, host.asked.len(), 0);
    same(rt, end.journal.len(), 0);
}

#[test]
fn words_that_ask_for_no_check_open_no_image(rt: HostRuntime) {
    let none: [&str; 0] = [];
    let rows: [(&[&str], u8, &str); 13] = [
        (&none, 2, USAGE),
        (&["check"], 2, USAGE),
        (&["check", "a.img", "b.img"], 2, USAGE),
        (&["check", "-x"], 2, USAGE),
        (&["other", "a.img"], 2, USAGE),
        (&["", "a.img"], 2, USAGE),
        (&["check", "a.img", "--help"], 2, USAGE),
        (&["repair", "a.img"], 2, USAGE),
        (&["repair", "a.img", "--redo=b", "--script=c"], 2, USAGE),
        (
            &["run", "a.img", "--redo=b", "--script=c"],
            4,
            "unbuilt job\n",
        ),
        (&["drill", "7"], 4, "unbuilt job\n"),
        (&["make"], 2, USAGE),
        (&["make", "a.img", "--redo", "b"], 2, USAGE),
    ];
    for (words, status, report) in &rows {
        expect_unopened(&rt, rt.alloc(), words, *status, report);
    }
}

// Asserts that the host was asked for the image alone, once, to be checked.
fn expect_asked(rt: &impl Abort, host: &MemHost) {
    same(rt, host.asked.len(), 1);
    for asked in &host.asked {
        same(rt, asked.image.as_str(), "a.img");
        same(rt, &asked.redo, &None);
        same(rt, asked.purpose, Purpose::Check);
    }
}

fn verdict_of(group: u32, unit: Unit, verdict: Verdict) -> Entry {
    Entry::Verdict {
        group,
        unit,
        verdict,
    }
}

fn good(group: u32, unit: Unit) -> Entry {
    verdict_of(group, unit, Verdict::Good)
}

#[test]
fn a_sound_image_is_good(rt: HostRuntime) {
    let alloc = rt.alloc();
    let image = small_image(alloc).expect(&rt, MEMORY);
    let (end, host) = run_over(&rt, alloc, &["check", "a.img"], image);
    expect_end(&rt, &end, &host, 0, ALL_GOOD);
    let journal = [
        good(0, Unit::Inode),
        good(0, Unit::Rmap),
        good(0, Unit::Free),
        good(0, Unit::Refc),
    ];
    same(&rt, end.journal.as_slice(), journal.as_slice());
    same(&rt, end.starts, [0, 4, 4]);
    expect_asked(&rt, &host);
    let faults = [host.host_faults, host.dev_faults, host.sink_faults];
    same(&rt, faults, [0, 0, 0]);
}

// An image of two groups: of the first a free run is too short, and the second has no reverse mappings.
fn two_faulty_groups(rt: &impl Abort, alloc: Global) -> MemImage {
    let short = bno_leaf(at(1), &[run(19, 5), run(32, 31)]);
    two_groups_with(alloc, &[(1, short), (69, Block::zeroed())]).expect(rt, MEMORY)
}

fn fault_of(group: u32, unit: Unit, fault: Fault) -> Entry {
    Entry::Fault { group, unit, fault }
}

#[test]
fn faults_stand_before_the_verdict(rt: HostRuntime) {
    let image = two_faulty_groups(&rt, rt.alloc());
    let (end, _host) = run_over(&rt, rt.alloc(), &["check", "a.img"], image);
    let unread = Fault::Block {
        kind: Kind::Rmap,
        block: 5,
        fault: BlockFault::Magic,
    };
    let wanted = [
        good(0, Unit::Inode),
        good(1, Unit::Inode),
        good(0, Unit::Rmap),
        fault_of(1, Unit::Rmap, unread),
        verdict_of(1, Unit::Rmap, Verdict::Faulty(1)),
        fault_of(0, Unit::Free, Fault::Missing(AnyRec::Bno(run(32, 32)))),
        fault_of(0, Unit::Free, Fault::Extra(AnyRec::Bno(run(32, 31)))),
        verdict_of(0, Unit::Free, Verdict::Faulty(2)),
        good(0, Unit::Refc),
        verdict_of(1, Unit::Free, Verdict::Skipped(1, Unit::Rmap)),
        verdict_of(1, Unit::Refc, Verdict::Skipped(1, Unit::Rmap)),
    ];
    same(&rt, end.journal.as_slice(), wanted.as_slice());
}

// What a check of the image with a run that is too short shows of its units, of none to all but the last,
// and then that the device failed.
const CUT_OFF: [&str; 4] = [
    "device failed\n",
    "0 inode good\ndevice failed\n",
    "0 inode good\n0 rmap good\ndevice failed\n",
    "0 inode good\n0 rmap good\n0 bno missing 32 224\n0 bno extra 32 223\n0 free faulty 2\n\
        device failed\n",
];

// What the whole check of that image shows.
const FAULTY_FREE: &str =
    "0 inode good\n0 rmap good\n0 bno missing 32 224\n0 bno extra 32 223\n0 free faulty 2\n0 refc good\n";

// Checks that image, of whose device this call fails.
fn check_failing(alloc: Global, call: u64) -> Result<(RunEnd, MemHost), AllocError> {
    let short = bno_leaf(at(1), &[run(19, 5), run(32, 223)]);
    let mut image = small_with(alloc, &[(1, short)])?;
    image.failing.push(call)?;
    run_words(alloc, &["check", "a.img"], image, Vec::new(alloc))
}

// How many units are shown where this call fails, as many as where the call before it failed or one
// more; asserts how the check ends then. No answer where the check makes no such call.
fn units_shown(rt: &impl Abort, alloc: Global, call: u64, before: usize) -> Option<usize> {
    let (end, host) = check_failing(alloc, call).expect(rt, MEMORY);
    if end.status == 1 {
        return None;
    }
    let shown = str::from_utf8(host.report.as_slice()).expect(rt, "a report is text");
    let has_more = before < 3 && shown == CUT_OFF[before + 1];
    let units = if has_more { before + 1 } else { before };
    same(rt, (call, shown), (call, CUT_OFF[units.min(3)]));
    same(rt, end.status, 5);
    same(rt, (call, host.host_faults, host.dev_faults), (call, 0, 1));
    Some(units)
}

#[test]
fn each_read_of_the_device_may_fail(rt: HostRuntime) {
    // Superblock and heads are read before any unit. From then on what was judged before the read that
    // fails is shown, each unit with all its lines, and each unit reads something.
    let mut units = 0usize;
    let mut most = 0;
    for call in 0..1000u64 {
        match units_shown(&rt, rt.alloc(), call, units) {
            Some(shown) => units = shown,
            None => break,
        }
        most = call;
    }
    same(&rt, units, 3);
    // A check makes no call behind the last that it needs.
    let (end, host) = check_failing(rt.alloc(), most.saturating_add(1)).expect(&rt, MEMORY);
    expect_end(&rt, &end, &host, 1, FAULTY_FREE);
    same(&rt, host.dev_faults, 0);
}

// Asserts how often each of these blocks was read, whose numbers count from block `group` on.
fn expect_reads(rt: &impl Abort, dev: &MemDevice, group: u64, blocks: &[u64], reads: u64) {
    for block in blocks {
        let at = group.wrapping_add(*block);
        same(rt, (at, dev.reads_at(at)), (at, reads));
    }
}

#[test]
fn how_often_each_block_is_read(rt: HostRuntime) {
    let alloc = rt.alloc();
    let mut dev = two_group_device(&rt, alloc);
    assert!(rt; judge(alloc, &mut dev, &mut NoWatch).is_ok());
    // The superblock is in block 0, beside the heads of group 0.
    expect_reads(&rt, &dev, 0, &[0], 2);
    expect_reads(&rt, &dev, 64, &[0], 1);
    for group in [0, 64] {
        // Each btree is read for the inodes and for the reverse mappings; those of the group's space
        // besides for their own units.
        expect_reads(&rt, &dev, group, &[1, 2, 5, 6], 3);
        expect_reads(&rt, &dev, group, &[3, 4], 2);
    }
    // A chunk is read for its cores, which show the forks of its inodes too.
    expect_reads(&rt, &dev, 0, &[24, 25, 26, 27, 28, 29, 30, 31], 1);
}

#[test]
fn an_image_that_is_not_there_is_a_fault_of_the_host(rt: HostRuntime) {
    let image = small_image(rt.alloc()).expect(&rt, MEMORY);
    let (end, host) = run_over(&rt, rt.alloc(), &["check", "b.img"], image);
    expect_end(&rt, &end, &host, 5, "host failed\n");
    same(&rt, [host.host_faults, host.dev_faults], [1, 0]);
}

// Runs the words over this image, for a sink that refuses the call of this number.
fn run_refusing(
    alloc: Global,
    words: &[&str],
    image: MemImage,
    call: u64,
) -> Result<(RunEnd, MemHost), AllocError> {
    let mut failing = Vec::new(alloc);
    failing.push(call)?;
    run_words(alloc, words, image, failing)
}

#[test]
fn a_report_ends_where_the_sink_fails(rt: HostRuntime) {
    let alloc = rt.alloc();
    // The few lines of this report go to the sink at once.
    for (call, status, report, counts) in [
        (0, 5, "host failed\n", [2, 1]),
        (1, 1, FAULTY_FREE, [1, 0]),
    ] {
        let short = bno_leaf(at(1), &[run(19, 5), run(32, 223)]);
        let image = image_with(&rt, alloc, &[(1, short)]);
        let ran = run_refusing(alloc, &["check", "a.img"], image, call);
        let (end, host) = ran.expect(&rt, MEMORY);
        expect_end(&rt, &end, &host, status, report);
        same(&rt, [host.puts, host.sink_faults], counts);
        same(&rt, end.journal.len(), 6);
    }
    let image = small_image(alloc).expect(&rt, MEMORY);
    let (end, host) = run_refusing(alloc, &["check"], image, 0).expect(&rt, MEMORY);
    expect_end(&rt, &end, &host, 2, "");
}
