// A value with a journal, to lie behind a lock.
ghost use Rattle.std.specs.Prelude.{ℕ, ◌≡◌, ◌<◌, [], slice_index, length};
ghost use Rattle.turn_lock.specs.Lists.{Begins};

use std::alloc::Global;
use turn_lock::{ACTORS, Recorded};

/// Who wrote a note, and which of its notes it is.
#[derive(Clone, Copy, Drop)]
pub struct Note {
    pub actor: u32,
    pub number: u32,
}

/// A journal of notes, how many each actor wrote last, and a name that no turn changes.
#[derive(Drop)]
pub struct Notes {
    pub entries: Vec<Note>,
    pub counts: [u32; 17],
    pub name: u64,
}

impl Recorded for Notes {
    type Entry = Note;

    type Origin = u64;

    type Kept = u32;

    ghost use Rattle.std.specs.Prelude.{slice_index};

    ghost journal = { λ n. n.entries.items };

    ghost origin = { λ n. n.name };

    ghost kept = { λ n a. slice_index n.counts a };

    fn entries(&self) -> u64 {
        self.entries.len() as u64
    }
}

impl Notes {
    /// A journal without notes.
    pub fn new(alloc: Global, name: u64) -> Notes
        ensures { result.entries.items ≡ [] }
    {
        Notes {
            entries: Vec::new(alloc),
            counts: [0; 17],
            name,
        }
    }

    /// Writes a note down, and counts it. Without memory nothing changes.
    pub fn add(&mut self, actor: u32, number: u32) -> bool
        requires { actor < ACTORS }
        ensures journal { Begins self.old.entries.items self.new.entries.items }
        ensures others { (a : ℕ) → (a ≡ actor → ⊥) → slice_index self.new.counts a ≡ slice_index self.old.counts a }
        ensures name { self.new.name ≡ self.old.name }
    {
        if self.entries.push(Note { actor, number }).is_err() {
            return false;
        }
        self.counts[actor as usize] = number;
        true
    }

    /// Whether these are the notes, in this order.
    pub fn are(&self, wanted: &[(u32, u32)]) -> bool {
        let found = self.entries.iter().map(|note| (note.actor, note.number));
        found.eq(wanted.iter().copied())
    }

    /// Whether each actor has so many notes in the journal, each once and in its order.
    pub fn has_all(&self, notes: u32) -> bool {
        let mut next = [0u32; 17];
        for note in &self.entries {
            let Some(number) = next.get_mut(note.actor as usize) else {
                return false;
            };
            if *number != note.number {
                return false;
            }
            *number = number.saturating_add(1);
        }
        next.iter().all(|number| *number == notes)
    }
}
