ghost use Rattle.std.specs.Prelude.{◌≡◌, ◌≤◌, ℕ, List, Option, OnOk, IfErr, length, Some, true, false};
ghost use Rattle.std.specs.Bool.{OnTrue, OnFalse};
ghost use Rattle.std.specs.List.{list_all, list_any};
ghost use Rattle.blk_device.specs.Causes.{Rose};
ghost use Rattle.blk_device.specs.Taken.{Takes};
ghost use Rattle.xscrub.specs.Ending.{IsShown, IsToldOf, ShowsStopped, TellsStopped, told_outcome};
ghost use Rattle.xscrub.specs.Outcome.{is_calm as is_calm_entry, is_calm_verdict as is_calm_verdict_of, is_given_up as is_given_up_entry, is_given_up_verdict as is_given_up_verdict_of, judged_status, judged_outcome, repaired_outcome, repaired_status as repaired_status_of, stopped_outcome, ended_outcome, outcome_of};
ghost use Rattle.run_text.specs.Report.{report_of};
ghost use Rattle.xscrub.specs.LastLines.{is_fixed, last_line_of};
ghost use Rattle.xscrub.specs.Shown.{StopsAt, IsLineShown, EndsWith, last_text};

use crate::ending::{Finding, Status, Told};
use crate::gathering::{gather, put_gathered};
use crate::last_lines::{LastLine, fixed_line, last_line};
use blk_device::{Sink, SinkFailed, put_all};
use fs_model::{Entry, Verdict};
use run_text::line;
use std::alloc::Global;

/// Why a journal wasn't told whole: the sink failed, or there was no memory for the line of entry
/// `told`, the first that wasn't told.
#[derive(Clone, Copy, Debug, PartialEq, Eq)]
pub enum TellStop {
    Sink,
    Memory { told: usize },
}

impl From<SinkFailed> for TellStop {
    ghost use Rattle.xscrub.specs.declared.telling.TellStop.TheVariants.{Sink};

    ghost from_gives = { λ _ e. e ≡ Sink };

    fn from(_: SinkFailed) -> Self {
        TellStop::Sink
    }
}

/// Puts the line of each entry into the sink, in the journal's order, up to the first that the
/// sink or memory refuses. Lines go to it in pieces of up to 64 KiB, whatever the journal's length.
pub fn put_journal<K: Sink>(alloc: Global, sink: &mut K, journal: &[Entry]) -> Result<(), TellStop>
    ensures rest { K.kept sink.old sink.new }
    ensures later { K.sink_faults sink.old ≤ K.sink_faults sink.new }
    ensures calm { OnOk result (K.sink_faults sink.new ≡ K.sink_faults sink.old) }
    ensures whole { OnOk result (Takes (report_of journal.now) (K.taken sink.old) (K.taken sink.new)) }
    ensures stop { IfErr result (λ stop. StopsAt journal.now
        (K.sink_faults sink.old) (K.sink_faults sink.new)
        (K.taken sink.old) (K.taken sink.new) stop) }
{
    let mut gathered = Vec::new(alloc);
    for (told, entry) in journal.iter().enumerate() {
        let Ok(text) = line(alloc, entry) else {
            put_gathered(sink, &mut gathered)?;
            return Err(TellStop::Memory { told });
        };
        gather(sink, &mut gathered, text.as_bytes())?;
    }
    put_gathered(sink, &mut gathered)?;
    Ok(())
}

// Puts a line into the sink as far as the sink takes it, and says whether there was memory for it.
fn put_line<K: Sink>(alloc: Global, sink: &mut K, last: LastLine) -> bool
    ensures rest { K.kept sink.old sink.new }
    ensures shown { OnTrue result (IsLineShown (last_line_of last)
        (K.sink_faults sink.old) (K.sink_faults sink.new)
        (K.taken sink.old) (K.taken sink.new)) }
    ensures none { OnFalse result ((K.sink_faults sink.new ≡ K.sink_faults sink.old)
        × (K.taken sink.new ≡ K.taken sink.old)) }
    ensures fixed { OnFalse result (is_fixed last ≡ false) }
{
    // What the sink answers is left: the run has had its cause, and the status says it in any case.
    if let Some(text) = fixed_line(&last) {
        let _ = put_all(sink, text.as_bytes());
        return true;
    }
    let Ok(text) = last_line(alloc, &last) else {
        return false;
    };
    let _ = put_all(sink, text.as_bytes());
    true
}

// Ends a run with this line or, where there is no memory for it, with the one that says so.
fn end_with<K: Sink>(
    alloc: Global,
    sink: &mut K,
    status: Status,
    journal: Vec<Entry>,
    last: LastLine,
) -> Told
    ensures rest { K.kept sink.old sink.new }
    ensures shown { EndsWith status journal.items last result.status result.journal.items result.last }
    ensures line { IsLineShown (last_text result.last)
        (K.sink_faults sink.old) (K.sink_faults sink.new)
        (K.taken sink.old) (K.taken sink.new) }
{
    if put_line(alloc, sink, last) {
        return Told {
            status,
            journal,
            last: Some(last),
        };
    }
    put_line(alloc, sink, LastLine::Memory);
    Told {
        status: Status::Memory,
        journal,
        last: Some(LastLine::Memory),
    }
}

fn is_calm(entry: &Entry) -> bool
    ensures { result ≡ is_calm_entry entry.now }
{
    match entry {
        Entry::Verdict { verdict, .. } => is_calm_verdict(verdict),
        _ => true,
    }
}

fn is_calm_verdict(verdict: &Verdict) -> bool
    ensures { result ≡ is_calm_verdict_of verdict.now }
{
    match verdict {
        Verdict::Good | Verdict::Rebuilt => true,
        _ => false,
    }
}

/// Whether no verdict of a journal speaks against the image.
pub(crate) fn are_all_calm(journal: &[Entry]) -> bool
    ensures { result ≡ list_all is_calm_entry journal.now }
{
    for entry in journal {
        if !is_calm(entry) {
            return false;
        }
    }
    true
}

fn is_given_up(entry: &Entry) -> bool
    ensures { result ≡ is_given_up_entry entry.now }
{
    match entry {
        Entry::Verdict { verdict, .. } => is_given_up_verdict(verdict),
        _ => false,
    }
}

fn is_given_up_verdict(verdict: &Verdict) -> bool
    ensures { result ≡ is_given_up_verdict_of verdict.now }
{
    match verdict {
        Verdict::GaveUp(_) => true,
        _ => false,
    }
}

fn is_any_given_up(journal: &[Entry]) -> bool
    ensures { result ≡ list_any is_given_up_entry journal.now }
{
    journal.iter().any(is_given_up)
}

fn status_of(journal: &[Entry]) -> Status
    ensures { result ≡ judged_status journal.now }
{
    if are_all_calm(journal) {
        return Status::Clean;
    }
    // Before faulty: nothing says then which of two sources is wrong, and no fault elsewhere hides it.
    if is_any_given_up(journal) {
        return Status::GaveUp;
    }
    Status::Faulty
}

/// The status of a repair. What is sick at the end needs another repair.
pub fn repaired_status(is_sick: bool, journal: &[Entry]) -> Status
    ensures { result ≡ repaired_status_of is_sick journal.now }
{
    if !is_sick {
        return status_of(journal);
    }
    if is_any_given_up(journal) {
        return Status::GaveUp;
    }
    Status::Faulty
}

// Ends a run whose journal wasn't told whole: the host has failed, or there was no memory, and the
// journal is cut to what was told.
fn end_early<K: Sink>(alloc: Global, sink: &mut K, journal: Vec<Entry>, stop: TellStop) -> Told
    ensures rest { K.kept sink.old sink.new }
    ensures shown { ShowsStopped K.Sink journal.items stop sink.old sink.new result }
    ensures told { TellsStopped K.Sink journal.items stop sink.old sink.new result }
{
    match stop {
        TellStop::Sink => end_with(alloc, sink, Status::Failed, journal, LastLine::HostFailed),
        TellStop::Memory { told } => {
            let mut journal = journal;
            // So that the journal that is handed back and the text that was written say the same.
            journal.truncate(told);
            end_with(alloc, sink, Status::Memory, journal, LastLine::Memory)
        }
    }
}

// Tells the journal of a judged image, as far as the sink and memory go.
fn tell_judged<K: Sink>(alloc: Global, sink: &mut K, journal: Vec<Entry>) -> Told
    ensures rest { K.kept sink.old sink.new }
    ensures shown { IsShown result.journal.items result.last
        (K.sink_faults sink.old) (K.sink_faults sink.new)
        (K.taken sink.old) (K.taken sink.new) }
    ensures told { IsToldOf (judged_outcome journal.items)
        (K.sink_faults sink.old) (K.sink_faults sink.new) (told_outcome result) }
{
    match put_journal(alloc, sink, journal.as_slice()) {
        Ok(()) => Told {
            status: status_of(journal.as_slice()),
            journal,
            last: None,
        },
        Err(stop) => end_early(alloc, sink, journal, stop),
    }
}

// Tells the journal of a repair that wasn't stopped, as far as the sink and memory go.
fn tell_repaired<K: Sink>(alloc: Global, sink: &mut K, journal: Vec<Entry>, is_sick: bool) -> Told
    ensures rest { K.kept sink.old sink.new }
    ensures shown { IsShown result.journal.items result.last
        (K.sink_faults sink.old) (K.sink_faults sink.new)
        (K.taken sink.old) (K.taken sink.new) }
    ensures told { IsToldOf (repaired_outcome is_sick journal.items)
        (K.sink_faults sink.old) (K.sink_faults sink.new) (told_outcome result) }
{
    match put_journal(alloc, sink, journal.as_slice()) {
        Ok(()) => Told {
            status: repaired_status(is_sick, journal.as_slice()),
            journal,
            last: None,
        },
        Err(stop) => end_early(alloc, sink, journal, stop),
    }
}

// Tells a journal that isn't the whole one, as far as the sink and memory go, and then why it isn't.
fn tell_stopped<K: Sink>(
    alloc: Global,
    sink: &mut K,
    status: Status,
    journal: Vec<Entry>,
    last: LastLine,
) -> Told
    ensures rest { K.kept sink.old sink.new }
    ensures shown { IsShown result.journal.items result.last
        (K.sink_faults sink.old) (K.sink_faults sink.new)
        (K.taken sink.old) (K.taken sink.new) }
    ensures told { IsToldOf (stopped_outcome status journal.items last)
        (K.sink_faults sink.old) (K.sink_faults sink.new) (told_outcome result) }
{
    match put_journal(alloc, sink, journal.as_slice()) {
        Ok(()) => end_with(alloc, sink, status, journal, last),
        Err(stop) => end_early(alloc, sink, journal, stop),
    }
}

// Tells a run that ended before its first unit.
fn tell_end<K: Sink>(alloc: Global, sink: &mut K, status: Status, last: LastLine) -> Told
    ensures rest { K.kept sink.old sink.new }
    ensures shown { IsShown result.journal.items result.last
        (K.sink_faults sink.old) (K.sink_faults sink.new)
        (K.taken sink.old) (K.taken sink.new) }
    ensures told { IsToldOf (ended_outcome status last)
        (K.sink_faults sink.old) (K.sink_faults sink.new) (told_outcome result) }
{
    tell_stopped(alloc, sink, status, Vec::new(alloc), last)
}

/// Tells what a run found: the line of each entry, and then the line that it ends with. Where the
/// sink fails in the journal, the host has failed; where there is no memory for an entry's line,
/// the journal is cut to what was told. Where only the last line can't be put, the status stays.
pub fn tell<K: Sink>(alloc: Global, sink: &mut K, finding: Finding) -> Told
    ensures rest { K.kept sink.old sink.new }
    ensures shown { IsShown result.journal.items result.last
        (K.sink_faults sink.old) (K.sink_faults sink.new)
        (K.taken sink.old) (K.taken sink.new) }
    ensures told { IsToldOf (outcome_of finding)
        (K.sink_faults sink.old) (K.sink_faults sink.new) (told_outcome result) }
{
    match finding {
        Finding::Judged(journal) => tell_judged(alloc, sink, journal),
        Finding::Repaired { journal, is_sick } => tell_repaired(alloc, sink, journal, is_sick),
        Finding::Full(journal) => {
            tell_stopped(alloc, sink, Status::Full, journal, LastLine::JournalFull)
        }
        Finding::Refused(line) => tell_end(alloc, sink, Status::Refused, line),
        Finding::Made => Told {
            status: Status::Clean,
            journal: Vec::new(alloc),
            last: None,
        },
        Finding::Usage => tell_end(alloc, sink, Status::Usage, LastLine::Usage),
        Finding::DeviceFailed(journal) => {
            tell_stopped(alloc, sink, Status::Failed, journal, LastLine::DeviceFailed)
        }
        Finding::HostFailed => tell_end(alloc, sink, Status::Failed, LastLine::HostFailed),
        Finding::Memory(journal) => {
            tell_stopped(alloc, sink, Status::Memory, journal, LastLine::Memory)
        }
    }
}
