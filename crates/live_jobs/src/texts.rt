// The lines of replies and of a drill's summary.
use fs_model::{Entry, Verdict};
use std::alloc::{AllocError, Global};

/// The line of a reply of this writer, with its line feed: writer, line, code, and blocks done. Every other
/// entry has no text.
pub(crate) fn reply_line(alloc: Global, of: u32, entry: &Entry) -> Result<String, AllocError> {
    match *entry {
        Entry::Reply {
            writer,
            line,
            code,
            done,
            ..
        } if writer == of => format!(in alloc; "{writer} {line} {code} {done}\n"),
        _ => Ok(String::new(alloc)),
    }
}

/// The last line of a run whose script has a wrong line.
pub(crate) fn script_line(alloc: Global, line: u32) -> Result<String, AllocError> {
    format!(in alloc; "script line {line}\n")
}

// The verdict of an entry that it rebuilt a unit counts 1.
fn rebuilt_by(entry: &Entry) -> u64 {
    match entry {
        Entry::Verdict {
            verdict: Verdict::Rebuilt,
            ..
        } => 1,
        _ => 0,
    }
}

fn accepted_by(entry: &Entry) -> u64 {
    match entry {
        Entry::Reply { code: 0, .. } => 1,
        _ => 0,
    }
}

fn mapped_by(entry: &Entry) -> u64 {
    match entry {
        Entry::Mapped(piece) => u64::from(piece.count),
        _ => 0,
    }
}

fn shared_by(entry: &Entry) -> u64 {
    match entry {
        Entry::Shared(piece) => u64::from(piece.count),
        _ => 0,
    }
}

fn faults_by(entry: &Entry) -> u64 {
    match entry {
        Entry::Fault { .. } => 1,
        _ => 0,
    }
}

/// What a summary counts in a journal.
#[derive(Clone, Copy, Debug, PartialEq, Eq)]
pub(crate) enum Count {
    Rebuilt,
    Accepted,
    Mapped,
    Shared,
    Faults,
}

fn counted_by(count: Count, entry: &Entry) -> u64 {
    match count {
        Count::Rebuilt => rebuilt_by(entry),
        Count::Accepted => accepted_by(entry),
        Count::Mapped => mapped_by(entry),
        Count::Shared => shared_by(entry),
        Count::Faults => faults_by(entry),
    }
}

/// How many of these a journal has; at 2^64 - 1 the count stays there.
pub(crate) fn count_in(count: Count, journal: &[Entry]) -> u64 {
    let mut all = 0u64;
    for entry in journal {
        all = all.saturating_add(counted_by(count, entry));
    }
    all
}

/// A line of a summary.
pub(crate) fn summary_line(alloc: Global, word: &str, number: u64) -> Result<String, AllocError> {
    format!(in alloc; "{word} {number}\n")
}
