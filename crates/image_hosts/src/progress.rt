//! How far a check is, on standard error, for a person who waits. No contract speaks of it.
use check_watch::{Phase, Watch};
use std::rt::Clock;
use std::time::Instant;

// So many seconds at least are between two lines.
const PAUSE: u64 = 1;

/// Shows how far a check is, a line a second; a check that is done within a second shows none.
#[derive(Drop)]
pub struct Progress<'a, R: Eprint + Clock> {
    rt: &'a R,
    // When the last line was shown, or the check began; where nobody watches, or there is no clock, none.
    shown: Option<Instant>,
    phase: Phase,
    done: u64,
    of: u64,
}

// When a check begins, where somebody watches it.
fn beginning<R: Clock>(rt: &R, is_watched: bool) -> Option<Instant> {
    if is_watched {
        return Instant::now(rt).ok();
    }
    None
}

// What a phase does, and what it counts.
fn words_of(phase: Phase) -> (&'static str, &'static str) {
    match phase {
        Phase::Inodes => ("inodes", "groups"),
        Phase::Forks => ("forks", "inodes"),
        Phase::Mappings => ("reverse mappings", "groups"),
        Phase::Space => ("free space and reference counts", "groups"),
    }
}

impl<'a, R: Eprint + Clock> Progress<'a, R> {
    /// A check that begins now.
    pub fn new(rt: &'a R, is_watched: bool) -> Self {
        Progress {
            rt,
            shown: beginning(rt, is_watched),
            phase: Phase::Inodes,
            done: 0,
            of: 0,
        }
    }

    // Whether it is time for a line, which is shown then.
    fn is_due(&mut self) -> bool {
        let Some(shown) = self.shown else {
            return false;
        };
        let Ok(now) = Instant::now(self.rt) else {
            return false;
        };
        if now.saturating_duration_since(shown).as_secs() < PAUSE {
            return false;
        }
        self.shown = Some(now);
        true
    }

    fn show(&mut self) {
        if self.is_due() {
            let (work, things) = words_of(self.phase);
            let (done, of) = (self.done, self.of);
            let _ = eprintln!(self.rt; "{work}: {done} of {of} {things}");
        }
    }
}

impl<R: Eprint + Clock> Watch for Progress<'_, R> {
    fn begin(&mut self, phase: Phase, of: u64) {
        self.phase = phase;
        self.done = 0;
        self.of = of;
        self.show();
    }

    fn pass(&mut self, more: u64) {
        self.done = self.done.saturating_add(more);
        self.show();
    }
}
