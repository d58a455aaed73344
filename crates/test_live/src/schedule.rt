// A gate that holds an actor until an event of another was answered.
use fs_model::EventKind;
use live_jobs::{Gate, Point};
use std::alloc::{AllocError, Global};
use std::sync::atomic::{AtomicU64, Ordering};
use std::thread;

// So often a held thread looks.
const LOOKS: u64 = 100_000_000;

// There are so many kinds of events.
const KINDS: usize = 25;

const ACTORS: usize = 17;

/// The n-th event of this kind of an actor, from 1 on.
#[derive(Clone, Copy, Debug, PartialEq, Eq)]
pub(crate) struct Moment {
    pub(crate) actor: u32,
    pub(crate) event: EventKind,
    pub(crate) nth: u64,
}

/// The n-th event.
pub(crate) fn at_event(actor: u32, event: EventKind, nth: u64) -> Moment {
    Moment { actor, event, nth }
}

/// Behind the first moment its actor waits for the second.
pub(crate) type Rule = (Moment, Moment);

/// A gate with rules. It counts the events, and the threads that waited in vain.
#[derive(Drop)]
pub(crate) struct TestGate<'a> {
    rules: &'a [Rule],
    counts: Vec<AtomicU64>,
    failed: AtomicU64,
}

fn place_of(actor: u32, event: EventKind) -> usize {
    (actor as usize)
        .saturating_mul(KINDS)
        .saturating_add(event as usize)
}

fn new_counts(alloc: Global) -> Result<Vec<AtomicU64>, AllocError> {
    let mut counts = Vec::new(alloc);
    for _ in 0..ACTORS * KINDS {
        counts.push(AtomicU64::new(0))?;
    }
    Ok(counts)
}

impl<'a> TestGate<'a> {
    /// A gate with these rules.
    pub(crate) fn new(alloc: Global, rules: &'a [Rule]) -> Result<Self, AllocError> {
        Ok(TestGate {
            rules,
            counts: new_counts(alloc)?,
            failed: AtomicU64::new(0),
        })
    }

    /// How many threads waited in vain.
    pub(crate) fn failures(&self) -> u64 {
        self.failed.load(Ordering::SeqCst)
    }

    fn count(&self, place: usize) -> u64 {
        match self.counts.get(place) {
            Some(count) => count.load(Ordering::SeqCst),
            None => 0,
        }
    }

    // One event more: which one of its kind it is.
    fn count_up(&self, place: usize) -> u64 {
        match self.counts.get(place) {
            Some(count) => count.fetch_add(1, Ordering::SeqCst).saturating_add(1),
            None => 0,
        }
    }

    fn wait_for(&self, until: &Moment) {
        let place = place_of(until.actor, until.event);
        for _ in 0..LOOKS {
            if self.count(place) >= until.nth {
                return;
            }
            thread::yield_now();
        }
        self.failed.fetch_add(1, Ordering::SeqCst);
    }
}

impl Gate for TestGate<'_> {
    fn pause(&self, point: Point) {
        let nth = self.count_up(place_of(point.actor, point.event));
        for (behind, until) in self.rules {
            if behind.actor == point.actor && behind.event == point.event && behind.nth == nth {
                self.wait_for(until);
            }
        }
    }
}
