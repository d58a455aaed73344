use core_calls::{ScrubFault, WriteFault};

/// How a writer's section ended: how many of its lines were replied to, and the answer of the event
/// that stopped it before its last line, which is Memory, Shut or JournalFull
/// (XFS Online Fsck Design, "Live Updates").
#[derive(Clone, Copy, Debug, PartialEq, Eq)]
pub struct WriterEnd {
    pub lines_done: u32,
    pub stop: Option<WriteFault>,
}

/// How a scrub ended: how many units have their verdict by it, and the answer that stopped it before the
/// last one, which is Memory, Shut or JournalFull (XFS Online Fsck Design, "Metadata Scrubbing").
#[derive(Clone, Copy, Debug, PartialEq, Eq)]
pub struct ScrubEnd {
    pub units: u32,
    pub stop: Option<ScrubFault>,
}

/// Why writers or a scrub stopped before their end: the device failed, the journal is full, or memory is
/// wanting (XFS Online Fsck Design, "Live Updates").
#[derive(Clone, Copy, Debug, PartialEq, Eq)]
pub enum LiveStop {
    Shut,
    JournalFull,
    Memory,
}

/// How a session of writers and a scrubber ended: why somebody stopped, of several reasons the one that
/// `LiveStop` names first (XFS Online Fsck Design, "Live Updates").
#[derive(Clone, Copy, Debug, PartialEq, Eq)]
pub struct LiveEnd {
    pub stop: Option<LiveStop>,
}

// Why a writer stopped.
fn of_writer(fault: WriteFault) -> LiveStop {
    match fault {
        WriteFault::Shut(_) => LiveStop::Shut,
        WriteFault::JournalFull => LiveStop::JournalFull,
        _ => LiveStop::Memory,
    }
}

// Why a scrub stopped.
fn of_scrub(fault: ScrubFault) -> LiveStop {
    match fault {
        ScrubFault::Shut(_) => LiveStop::Shut,
        ScrubFault::JournalFull => LiveStop::JournalFull,
        _ => LiveStop::Memory,
    }
}

/// Why a writer stopped, if it did.
pub(crate) fn writer_stop(end: WriterEnd) -> Option<LiveStop> {
    match end.stop {
        Some(fault) => Some(of_writer(fault)),
        None => None,
    }
}

/// Why a scrub stopped, if it did.
pub(crate) fn scrub_stop(end: ScrubEnd) -> Option<LiveStop> {
    match end.stop {
        Some(fault) => Some(of_scrub(fault)),
        None => None,
    }
}

fn first_of(one: LiveStop, other: LiveStop) -> LiveStop {
    match (one, other) {
        (LiveStop::Shut, _) => LiveStop::Shut,
        (_, LiveStop::Shut) => LiveStop::Shut,
        (LiveStop::JournalFull, _) => LiveStop::JournalFull,
        (_, LiveStop::JournalFull) => LiveStop::JournalFull,
        _ => LiveStop::Memory,
    }
}

/// One reason of two.
pub(crate) fn one_stop(one: Option<LiveStop>, other: Option<LiveStop>) -> Option<LiveStop> {
    match (one, other) {
        (Some(one), Some(other)) => Some(first_of(one, other)),
        (Some(one), None) => Some(one),
        (None, other) => other,
    }
}
