//! How a journal that isn't the whole one is told.
use super::same::same;
use crate::runs::MEMORY;
use dinode_core::CoreFault;
use fs_model::{Entry, Evidence, Reason, Unit, Verdict};
use image_hosts::MemHost;
use small_images::{Finding, LastLine, Status, Told, tell};
use std::alloc::{AllocError, Global};
use std::collections::BTreeMap;
use std::process::Abort;

// A journal of one entry, behind which this line stands.
fn ended(alloc: Global, line: LastLine) -> Result<Finding, AllocError> {
    let mut journal = Vec::new(alloc);
    journal.push(Entry::Verdict {
        group: 0,
        unit: Unit::Free,
        verdict: Verdict::Faulty(3),
    })?;
    match line {
        LastLine::JournalFull => Ok(Finding::Full(journal)),
        LastLine::DeviceFailed => Ok(Finding::DeviceFailed(journal)),
        _ => Ok(Finding::Memory(journal)),
    }
}

// Tells a finding to a sink that refuses the call of this number.
fn tell_to(alloc: Global, finding: Finding, failing: u64) -> Result<(Told, MemHost), AllocError> {
    let mut failing_puts = Vec::new(alloc);
    failing_puts.push(failing)?;
    let mut host = MemHost::new(alloc, BTreeMap::new(alloc), failing_puts);
    let told = tell(alloc, &mut host, finding);
    Ok((told, host))
}

// Tells that journal and that line to a sink that refuses the call of this number, and asserts the report.
fn told_of(rt: &impl Abort, alloc: Global, line: LastLine, failing: u64, report: &str) -> Told {
    let finding = ended(alloc, line).expect(rt, MEMORY);
    let (told, host) = tell_to(alloc, finding, failing).expect(rt, MEMORY);
    let shown = str::from_utf8(host.report.as_slice()).expect(rt, "a report is text");
    same(rt, shown, report);
    told
}

#[test]
fn what_was_found_is_told_and_then_why_there_is_no_more(rt: HostRuntime) {
    let full = "0 free faulty 3\njournal full\n";
    let failed = "0 free faulty 3\ndevice failed\n";
    let no_memory = "0 free faulty 3\nmemory\n";
    let rows = [
        (LastLine::JournalFull, 9, Status::Full, full),
        (LastLine::DeviceFailed, 9, Status::Failed, failed),
        (LastLine::Memory, 9, Status::Memory, no_memory),
        // The line that comes last isn't taken.
        (LastLine::JournalFull, 1, Status::Full, "0 free faulty 3\n"),
        (
            LastLine::DeviceFailed,
            1,
            Status::Failed,
            "0 free faulty 3\n",
        ),
        (LastLine::Memory, 1, Status::Memory, "0 free faulty 3\n"),
    ];
    for (line, failing, status, report) in &rows {
        let told = told_of(&rt, rt.alloc(), *line, *failing, report);
        same(&rt, told.status, *status);
        same(&rt, told.last, Some(*line));
        same(&rt, told.journal.len(), 1);
    }
    // An entry's line isn't taken.
    let told = told_of(&rt, rt.alloc(), LastLine::JournalFull, 0, "host failed\n");
    same(&rt, told.status, Status::Failed);
    same(&rt, Status::Full.code(), 7);
}

// A line of 12 bytes, and how many of them are at most 64 KiB.
const GOOD_LINE: &str = "0 free good\n";

const PIECE_LINES: usize = 5_461;

// A journal with so many of these lines.
fn good_journal(alloc: Global, lines: usize) -> Result<Finding, AllocError> {
    let mut journal = Vec::new(alloc);
    for _ in 0..lines {
        journal.push(Entry::Verdict {
            group: 0,
            unit: Unit::Free,
            verdict: Verdict::Good,
        })?;
    }
    Ok(Finding::Judged(journal))
}

// The text of so many of these lines, and of a line behind them.
fn good_report(alloc: Global, lines: usize, last: &str) -> Result<String, AllocError> {
    let mut report = String::new(alloc);
    for _ in 0..lines {
        report.push_str(GOOD_LINE)?;
    }
    report.push_str(last)?;
    Ok(report)
}

// How many lines the long journal has.
const ALL_LINES: usize = 14_000;

// Tells the long journal to a sink that refuses the call of this number, and asserts that the report has so
// many of its lines and this one behind them.
fn told_in_pieces(
    rt: &impl Abort,
    alloc: Global,
    failing: u64,
    lines: usize,
    last: &str,
) -> (Told, MemHost) {
    let finding = good_journal(alloc, ALL_LINES).expect(rt, MEMORY);
    let (told, host) = tell_to(alloc, finding, failing).expect(rt, MEMORY);
    let wanted = good_report(alloc, lines, last).expect(rt, MEMORY);
    // Not compared by `same`, which would show both texts.
    assert!(rt; host.report.as_slice() == wanted.as_bytes(), "{failing}");
    (told, host)
}

#[test]
fn a_long_report_goes_to_the_sink_in_pieces(rt: HostRuntime) {
    let rows = [
        (9, Status::Clean, ALL_LINES, "", 3),
        // A piece isn't taken: the report ends before it, and the last line is put behind that.
        (0, Status::Failed, 0, "host failed\n", 2),
        (1, Status::Failed, PIECE_LINES, "host failed\n", 3),
        (2, Status::Failed, 2 * PIECE_LINES, "host failed\n", 4),
    ];
    for (failing, status, lines, last, puts) in &rows {
        let (told, host) = told_in_pieces(&rt, rt.alloc(), *failing, *lines, *last);
        same(&rt, told.status, *status);
        same(&rt, told.journal.len(), ALL_LINES);
        same(&rt, host.puts, *puts);
    }
}

// How a journal with these verdicts on free space is told.
fn status_of(alloc: Global, verdicts: &[Verdict]) -> Result<Status, AllocError> {
    let mut journal = Vec::new(alloc);
    for verdict in verdicts {
        journal.push(Entry::Verdict {
            group: 0,
            unit: Unit::Free,
            verdict: *verdict,
        })?;
    }
    let (told, _host) = tell_to(alloc, Finding::Judged(journal), 9)?;
    Ok(told.status)
}

#[test]
fn the_verdicts_decide_the_status(rt: HostRuntime) {
    let evidence = Evidence::BadChunk {
        block: 24,
        fault: CoreFault::Checksum,
    };
    let gave_up = Verdict::GaveUp(Reason::Contradiction(evidence));
    let skipped = Verdict::Skipped(0, Unit::Rmap);
    let rows: [(&[Verdict], Status, u8); 7] = [
        (&[Verdict::Good, Verdict::Good], Status::Clean, 0),
        (&[Verdict::Good, Verdict::Faulty(1)], Status::Faulty, 1),
        (&[skipped, Verdict::Good], Status::Faulty, 1),
        (&[Verdict::Good, gave_up], Status::GaveUp, 6),
        (&[Verdict::Faulty(2), gave_up], Status::GaveUp, 6),
        (&[gave_up, skipped], Status::GaveUp, 6),
        (&[gave_up, Verdict::Faulty(2)], Status::GaveUp, 6),
    ];
    for (verdicts, status, code) in &rows {
        let found = status_of(rt.alloc(), *verdicts).expect(&rt, MEMORY);
        same(&rt, found, *status);
        same(&rt, found.code(), *code);
    }
}
