ghost use Rattle.std.specs.Prelude.{◌≡◌, length};

use crate::note::{Asker, Note};
use core_calls::{Answer, Ask};
use fs_model::Entry;

/// So many writers there are, with numbers from 1 on.
pub const MOST_WRITERS: usize = 16;

// Nothing was done or refused.
const NO_NOTE: Note = Note {
    code: 0,
    refused: None,
    done: 0,
    begun: None,
};

/// The notes of all writers.
#[derive(Clone, Copy)]
pub struct Notes {
    notes: [Note; 16],
    ghost places: { length notes ≡ 16 },
}

impl Notes {
    ghost use Rattle.std.specs.Prelude.{◌≡◌, replicate};
    ghost use Rattle.core_notes.specs.Noted.{no_note, note_at, noted, notes_of, reply_of, with_note};

    /// Nothing was done or refused yet.
    pub fn new() -> Notes
        ensures { notes_of result ≡ replicate 16 no_note }
    {
        Notes {
            notes: [NO_NOTE; MOST_WRITERS],
        }
    }

    /// What is noted of a writer; nothing, where there is no such writer.
    pub fn of(&self, writer: u32) -> Note
        ensures { result ≡ note_at (notes_of self.now) writer }
    {
        if writer == 0 || writer > MOST_WRITERS as u32 {
            return NO_NOTE;
        }
        self.notes[(writer - 1) as usize]
    }

    // Another note of a writer, where there is such a writer.
    fn put(&mut self, writer: u32, note: Note)
        ensures { notes_of self.new ≡ with_note (notes_of self.old) writer note }
    {
        if writer == 0 || writer > MOST_WRITERS as u32 {
            return;
        }
        self.notes[(writer - 1) as usize] = note;
    }

    /// Notes an event of a writer, with its answer: blocks done, an inode begun, or a refusal, with what was
    /// asked; but not Busy, Closing and Crowded, nor that an inode isn't given back that has mappings
    /// (XFS Online Fsck Design, "Eventual Consistency").
    pub fn after(&mut self, ask: Ask, answer: Answer, who: Asker)
        ensures { notes_of self.new ≡ with_note (notes_of self.old) who.writer (noted (note_at (notes_of self.old) who.writer) ask answer who) }
    {
        let note = self.of(who.writer);
        self.put(who.writer, note.behind(ask, answer, who));
    }

    /// The reply to a writer at a line of its script, of all that was noted since the last one; nothing is
    /// noted of it from now on (XFS Online Fsck Design, "Eventual Consistency").
    pub fn reply(&mut self, writer: u32, line: u32) -> Entry
        ensures entry { result ≡ reply_of (note_at (notes_of self.old) writer) writer line }
        ensures cleared { notes_of self.new ≡ with_note (notes_of self.old) writer no_note }
    {
        let note = self.of(writer);
        self.put(writer, NO_NOTE);
        Entry::Reply {
            writer,
            line,
            code: note.code,
            done: note.done,
            refused: note.refused,
            begun: note.begun,
        }
    }
}
