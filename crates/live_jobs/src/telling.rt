//! How a run beside writers and a drill are told.
ghost use Rattle.std.specs.Prelude.{◌≤◌, length, OnOk};

use crate::ending::{DrillEnd, Drilled, LiveFinding, Unbegun};
use crate::texts::{Count, count_in, reply_line, script_line, summary_line};
use blk_device::{Sink, put_all};
use fs_model::{Entry, Verdict};
use std::alloc::Global;
use xscrub::{
    Finding, RunEnd, TellStop, Told, gather, put_gathered, put_journal, repaired_status, tell,
};

// The status of a run whose script has a wrong line.
const SCRIPT_STATUS: u8 = 3;

// And of one whose script couldn't be read.
const FAILED_STATUS: u8 = 5;

// The status of a drill in which a unit was given up.
const GAVE_UP_STATUS: u8 = 6;

// How a run ended that has one session.
fn run_end(status: u8, journal: Vec<Entry>) -> RunEnd {
    let end = journal.len() as u64;
    RunEnd {
        status,
        journal,
        starts: [0, end, end],
    }
}

// The end of a run whose last line this finding has; the journal was told before it.
fn ended_with<K: Sink>(
    alloc: Global,
    sink: &mut K,
    journal: Vec<Entry>,
    finding: Finding,
) -> RunEnd {
    let told = tell(alloc, sink, finding);
    run_end(told.status.code(), journal)
}

// Puts the replies to one writer behind what was gathered.
fn put_replies_of<K: Sink>(
    alloc: Global,
    sink: &mut K,
    gathered: &mut Vec<u8>,
    journal: &[Entry],
    writer: u32,
) -> Result<(), TellStop>
    requires few { length gathered.old.items ≤ 65536 }
    ensures few { OnOk result (length gathered.new.items ≤ 65536) }
{
    for entry in journal {
        let Ok(text) = reply_line(alloc, writer, entry) else {
            return Err(TellStop::Memory {
                told: journal.len(),
            });
        };
        if gather(sink, gathered, text.as_bytes()).is_err() {
            return Err(TellStop::Sink);
        }
    }
    Ok(())
}

// Puts the replies, writer by writer.
fn put_replies<K: Sink>(alloc: Global, sink: &mut K, journal: &[Entry]) -> Result<(), TellStop> {
    let mut gathered = Vec::new(alloc);
    for writer in 1..17 {
        if let Err(stop) = put_replies_of(alloc, sink, &mut gathered, journal, writer) {
            return Err(stop);
        }
    }
    match put_gathered(sink, &mut gathered) {
        Ok(()) => Ok(()),
        Err(_) => Err(TellStop::Sink),
    }
}

// Puts the journal and the replies.
fn put_report<K: Sink>(alloc: Global, sink: &mut K, journal: &[Entry]) -> Result<(), TellStop> {
    match put_journal(alloc, sink, journal) {
        Ok(()) => put_replies(alloc, sink, journal),
        Err(stop) => Err(stop),
    }
}

// The end of a run whose report stopped.
fn ended_early<K: Sink>(
    alloc: Global,
    sink: &mut K,
    journal: Vec<Entry>,
    stop: TellStop,
) -> RunEnd {
    match stop {
        TellStop::Sink => ended_with(alloc, sink, journal, Finding::HostFailed),
        TellStop::Memory { told } => {
            let mut journal = journal;
            journal.truncate(told);
            ended_with(alloc, sink, journal, Finding::Memory(Vec::new(alloc)))
        }
    }
}

// Tells a run that wasn't stopped.
fn tell_whole<K: Sink>(alloc: Global, sink: &mut K, journal: Vec<Entry>, is_sick: bool) -> RunEnd {
    match put_report(alloc, sink, journal.as_slice()) {
        Ok(()) => {
            let status = repaired_status(is_sick, journal.as_slice());
            run_end(status.code(), journal)
        }
        Err(stop) => ended_early(alloc, sink, journal, stop),
    }
}

// Tells a run that was stopped, for which this finding has the last line.
fn tell_stopped<K: Sink>(
    alloc: Global,
    sink: &mut K,
    journal: Vec<Entry>,
    finding: Finding,
) -> RunEnd {
    match put_report(alloc, sink, journal.as_slice()) {
        Ok(()) => ended_with(alloc, sink, journal, finding),
        Err(stop) => ended_early(alloc, sink, journal, stop),
    }
}

fn of_told(told: Told) -> RunEnd {
    run_end(told.status.code(), told.journal)
}

fn tell_found<K: Sink>(alloc: Global, sink: &mut K, finding: Finding) -> RunEnd {
    match finding {
        Finding::Repaired { journal, is_sick } => tell_whole(alloc, sink, journal, is_sick),
        Finding::Full(journal) => {
            tell_stopped(alloc, sink, journal, Finding::Full(Vec::new(alloc)))
        }
        Finding::DeviceFailed(journal) => {
            tell_stopped(alloc, sink, journal, Finding::DeviceFailed(Vec::new(alloc)))
        }
        Finding::Memory(journal) => {
            tell_stopped(alloc, sink, journal, Finding::Memory(Vec::new(alloc)))
        }
        other => of_told(tell(alloc, sink, other)),
    }
}

// Tells that a line of the script is wrong.
fn tell_wrong<K: Sink>(alloc: Global, sink: &mut K, line: u32) -> RunEnd {
    let Ok(text) = script_line(alloc, line) else {
        return of_told(tell(alloc, sink, Finding::Memory(Vec::new(alloc))));
    };
    let _ = put_all(sink, text.as_bytes());
    run_end(SCRIPT_STATUS, Vec::new(alloc))
}

/// Tells a run beside writers: the lines of its journal, then the replies writer by writer, and then the line that it ends with.
pub(crate) fn tell_run<K: Sink>(alloc: Global, sink: &mut K, finding: LiveFinding) -> RunEnd {
    match finding {
        LiveFinding::Found(finding) => tell_found(alloc, sink, finding),
        LiveFinding::ScriptWrong(line) => tell_wrong(alloc, sink, line),
        LiveFinding::ScriptFailed => {
            let _ = put_all(sink, "script failed\n".as_bytes());
            run_end(FAILED_STATUS, Vec::new(alloc))
        }
    }
}

// The lengths of a drill's journal at which its sessions began; one that never began has the final length.
fn starts_of(drilled: &Drilled) -> [u64; 3] {
    let end = drilled.journal.len() as u64;
    [
        0,
        drilled.second.unwrap_or(end),
        drilled.third.unwrap_or(end),
    ]
}

// A journal in two parts, the first of which has so many entries.
fn parts_at(journal: &[Entry], length: u64) -> (&[Entry], &[Entry]) {
    match journal.split_at_checked(length as usize) {
        Some(parts) => parts,
        None => (journal, &[]),
    }
}

// Puts a line of the summary; false where there is no memory for it.
fn put_count<K: Sink>(
    alloc: Global,
    sink: &mut K,
    word: &str,
    number: u64,
) -> Result<(), TellStop> {
    let Ok(text) = summary_line(alloc, word, number) else {
        return Err(TellStop::Memory { told: 0 });
    };
    match put_all(sink, text.as_bytes()) {
        Ok(()) => Ok(()),
        Err(_) => Err(TellStop::Sink),
    }
}

// Puts what a summary counts in one session's journal.
fn put_counts<K: Sink>(
    alloc: Global,
    sink: &mut K,
    counts: &[(&str, Count)],
    journal: &[Entry],
) -> Result<(), TellStop> {
    for (word, count) in counts {
        if let Err(stop) = put_count(alloc, sink, word, count_in(*count, journal)) {
            return Err(stop);
        }
    }
    Ok(())
}

// Puts the summary of a drill.
fn put_summary<K: Sink>(alloc: Global, sink: &mut K, drilled: &Drilled) -> Result<(), TellStop> {
    let starts = starts_of(drilled);
    let (front, checked) = parts_at(drilled.journal.as_slice(), starts[2]);
    let (repaired, live) = parts_at(front, starts[1]);
    put_count(alloc, sink, "drill", u64::from(drilled.number))?;
    put_counts(alloc, sink, &[("repaired", Count::Rebuilt)], repaired)?;
    put_counts(
        alloc,
        sink,
        &[
            ("accepted", Count::Accepted),
            ("mapped", Count::Mapped),
            ("shared", Count::Shared),
            ("rebuilt", Count::Rebuilt),
        ],
        live,
    )?;
    put_counts(alloc, sink, &[("faults", Count::Faults)], checked)
}

fn is_given_up(entry: &Entry) -> bool {
    matches!(
        entry,
        Entry::Verdict {
            verdict: Verdict::GaveUp(_),
            ..
        }
    )
}

// The status of a drill that wasn't stopped: given up where a unit of any session was, else that of the
// check at its end.
fn drill_status(drilled: &Drilled, is_sick: bool) -> u8 {
    let journal = drilled.journal.as_slice();
    if journal.iter().any(is_given_up) {
        return GAVE_UP_STATUS;
    }
    let (_, checked) = parts_at(journal, starts_of(drilled)[2]);
    repaired_status(is_sick, checked).code()
}

// The end of a drill with this status.
fn drill_end(drilled: Drilled, status: u8) -> RunEnd {
    RunEnd {
        status,
        starts: starts_of(&drilled),
        journal: drilled.journal,
    }
}

// The end of a drill whose last line this finding has.
fn drill_ended<K: Sink>(alloc: Global, sink: &mut K, drilled: Drilled, finding: Finding) -> RunEnd {
    let told = tell(alloc, sink, finding);
    drill_end(drilled, told.status.code())
}

// The last line of a drill whose summary was put.
fn tell_last<K: Sink>(alloc: Global, sink: &mut K, drilled: Drilled) -> RunEnd {
    match drilled.end {
        DrillEnd::Whole { is_sick } => {
            let status = drill_status(&drilled, is_sick);
            drill_end(drilled, status)
        }
        DrillEnd::DeviceFailed => {
            drill_ended(alloc, sink, drilled, Finding::DeviceFailed(Vec::new(alloc)))
        }
        DrillEnd::Full => drill_ended(alloc, sink, drilled, Finding::Full(Vec::new(alloc))),
        DrillEnd::Memory | DrillEnd::Refused => {
            drill_ended(alloc, sink, drilled, Finding::Memory(Vec::new(alloc)))
        }
        DrillEnd::NotBegun(why) => tell_unbegun(alloc, sink, drilled, why),
    }
}

// The last line of a drill of which no session began.
fn tell_unbegun<K: Sink>(alloc: Global, sink: &mut K, drilled: Drilled, why: Unbegun) -> RunEnd {
    match why {
        Unbegun::DeviceFailed => {
            drill_ended(alloc, sink, drilled, Finding::DeviceFailed(Vec::new(alloc)))
        }
        Unbegun::HostFailed => drill_ended(alloc, sink, drilled, Finding::HostFailed),
        Unbegun::Memory => drill_ended(alloc, sink, drilled, Finding::Memory(Vec::new(alloc))),
    }
}

// Tells a drill that was begun.
fn tell_begun<K: Sink>(alloc: Global, sink: &mut K, drilled: Drilled) -> RunEnd {
    match put_summary(alloc, sink, &drilled) {
        Ok(()) => tell_last(alloc, sink, drilled),
        Err(TellStop::Sink) => drill_ended(alloc, sink, drilled, Finding::HostFailed),
        Err(TellStop::Memory { .. }) => {
            drill_ended(alloc, sink, drilled, Finding::Memory(Vec::new(alloc)))
        }
    }
}

/// Tells a drill: the seven lines of its summary, unless no session of it began, and then the line that it
/// ends with.
pub(crate) fn tell_drill<K: Sink>(alloc: Global, sink: &mut K, drilled: Drilled) -> RunEnd {
    match drilled.end {
        DrillEnd::NotBegun(why) => tell_unbegun(alloc, sink, drilled, why),
        _ => tell_begun(alloc, sink, drilled),
    }
}
