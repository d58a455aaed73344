// A value with a journal, to lie behind a lock.
ghost use Rattle.std.specs.Prelude.{◌≡◌, []};
ghost use Rattle.turn_lock.specs.Lists.{Begins};

use std::alloc::Global;
use turn_lock::Recorded;

#[derive(Drop)]
pub(crate) struct Journal {
    pub(crate) entries: Vec<u32>,
}

impl Recorded for Journal {
    type Entry = u32;

    type Origin = u32;

    type Kept = u32;

    ghost journal = { λ j. j.entries.items };

    ghost origin = { λ j. 0 };

    ghost kept = { λ j a. 0 };

    fn entries(&self) -> u64 {
        self.entries.len() as u64
    }
}

impl Journal {
    pub(crate) fn new(alloc: Global) -> Journal
        ensures { result.entries.items ≡ [] }
    {
        Journal {
            entries: Vec::new(alloc),
        }
    }

    // Without memory nothing changes.
    pub(crate) fn add(&mut self, entry: u32) -> bool
        ensures { Begins self.old.entries.items self.new.entries.items }
    {
        if self.entries.push(entry).is_err() {
            return false;
        }
        true
    }
}
