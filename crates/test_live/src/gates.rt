// Writers and a scrubber in an order that a gate makes.
ghost use Rattle.std.specs.Thread.{IsSync};

use super::same::same;
use crate::images::{mappings_of, with_two_files};
use crate::runs::{MEMORY, expect_run};
use crate::schedule::{Rule, TestGate, at_event};
use fs_model::EventKind;
use image_hosts::MemHost;
use std::alloc::Global;
use std::process::Abort;
use std::sync::Wait;
use std::thread::Threads;

const REBUILD: [&str; 9] = [
    "run",
    "a.img",
    "--redo",
    "r",
    "--script",
    "s",
    "--rebuild",
    "--turns",
    "4294967295",
];

// Asserts how such a run ends by these rules, and that each thread came on; the host then.
fn expect_by<R: Threads + Wait + Sync + Abort>(
    rt: &R,
    alloc: Global,
    script: &str,
    words: &[&str],
    rules: &[Rule],
    status: u8,
    report: &str,
) -> MemHost
    requires { IsSync R.row }
{
    let image = with_two_files(alloc).expect(rt, MEMORY);
    let gate = TestGate::new(alloc, rules).expect(rt, MEMORY);
    let host = expect_run(rt, alloc, (image, script, words), &gate, status, report);
    // Each thread came on.
    same(rt, gate.failures(), 0);
    host
}

// Asserts that reverse mappings, which were made anew, have the file's four blocks once: the first of the
// free run 19 to 23, unwritten.
fn expect_mapped_once(rt: &impl Abort, alloc: Global, host: &MemHost, inode: u64) {
    let found = mappings_of(alloc, host, inode).expect(rt, MEMORY);
    let wanted = [(19, 4, 0x2000_0000_0000_0000)];
    same(rt, found.as_slice(), &wanted[..]);
}

// The scrubber is behind inode 195 when it is mapped: by the fifth advance.
#[test]
fn mapped_behind_the_cursor(rt: HostRuntime) {
    let alloc: Global = rt.alloc();
    let rules = [
        (
            at_event(0, EventKind::Start, 1),
            at_event(1, EventKind::Note, 1),
        ),
        (
            at_event(1, EventKind::Note, 1),
            at_event(0, EventKind::Advance, 5),
        ),
        (
            at_event(0, EventKind::Advance, 5),
            at_event(1, EventKind::MapFirst, 1),
        ),
        (
            at_event(1, EventKind::MapFirst, 1),
            at_event(0, EventKind::Advance, 6),
        ),
    ];
    let report =
        "0 inode rebuilt\n0 rmap rebuilt\n0 free rebuilt\n0 refc rebuilt\n1 2 0 0\n1 3 0 4\n";
    let script = "writer 1\nopen a 195\nmap a 0 4\n";
    let host = expect_by(&rt, alloc, script, &REBUILD, &rules, 0, report);
    expect_mapped_once(&rt, alloc, &host, 195);
}

// The scrubber comes to inode 196 while it is mapped.
#[test]
fn mapped_before_the_cursor(rt: HostRuntime) {
    let alloc: Global = rt.alloc();
    let rules = [
        (
            at_event(0, EventKind::Start, 1),
            at_event(1, EventKind::Note, 1),
        ),
        (
            at_event(1, EventKind::Note, 1),
            at_event(0, EventKind::Advance, 4),
        ),
        (
            at_event(0, EventKind::Advance, 4),
            at_event(1, EventKind::MapFirst, 1),
        ),
        (
            at_event(1, EventKind::MapFirst, 1),
            at_event(0, EventKind::Advance, 5),
        ),
    ];
    let report =
        "0 inode rebuilt\n0 rmap rebuilt\n0 free rebuilt\n0 refc rebuilt\n1 2 0 0\n1 3 0 4\n";
    let script = "writer 1\nopen a 196\nmap a 0 4\n";
    let host = expect_by(&rt, alloc, script, &REBUILD, &rules, 0, report);
    expect_mapped_once(&rt, alloc, &host, 196);
}

// A writer holds an inode for longer than the unit may wait.
#[test]
fn a_unit_gives_up_its_turn(rt: HostRuntime) {
    let alloc: Global = rt.alloc();
    let rules = [
        (
            at_event(0, EventKind::Start, 1),
            at_event(1, EventKind::Begin, 2),
        ),
        (
            at_event(1, EventKind::Begin, 2),
            at_event(0, EventKind::Reopen, 2),
        ),
    ];
    let words = [
        "run", "a.img", "--redo", "r", "--script", "s", "--turns", "1",
    ];
    let report =
        "0 inode good\n0 rmap gaveup turns 1\n0 free skipped 0 rmap\n0 refc skipped 0 rmap\n1 2 0 0\n1 3 0 1\n";
    let script = "writer 1\nopen a 195\nmap a 0 1\n";
    let _host = expect_by(&rt, alloc, script, &words, &rules, 6, report);
}
