ghost use Rattle.std.specs.Prelude.{◌≡◌};
ghost use Rattle.core_notes.specs.Noted.{begun_after, blocks_of, held_one as held_one_of, more_done, noted, with_refusal};

use crate::refusals::{code, counts, refused};
use core_calls::{Answer, Ask, WriteFault};
use fs_model::Refused;

/// Who asked for an event, and for which inodes: those that `begin` was given, or those of the event's
/// chain; 0 and none where it has none.
#[derive(Clone, Copy, Debug, PartialEq, Eq)]
pub struct Asker {
    pub writer: u32,
    pub first: u64,
    pub second: Option<u64>,
}

/// What is noted of a writer since its last reply: the code of its last refusal that counts, or 0, and what
/// that event was asked; the blocks done; and the inode of its last `begin` that answered with a chain.
#[derive(Clone, Copy, Debug, PartialEq, Eq)]
pub struct Note {
    pub code: u32,
    pub refused: Option<Refused>,
    pub done: u64,
    pub begun: Option<u64>,
}

// So many blocks more were done; their number stays where it would have no end.
fn add_blocks(done: u64, blocks: u32) -> u64
    ensures { result ≡ more_done done blocks }
{
    let more = u64::from(blocks);
    if done > u64::MAX - more {
        return u64::MAX;
    }
    done + more
}

// How many blocks of a file an event has changed.
fn blocks_in(ask: Ask, answer: Answer) -> u32
    ensures { result ≡ blocks_of ask answer }
{
    let Answer::Blocks(blocks) = answer else {
        return 0;
    };
    match ask {
        Ask::MapFirst { .. } => blocks,
        Ask::UnmapFirst { .. } => blocks,
        Ask::StripFirst { .. } => blocks,
        Ask::ShareFirst { .. } => blocks,
        Ask::ConvertFirst { .. } => blocks,
        _ => 0,
    }
}

// The inode that is held, where it is only one.
fn held_one(first: u64, second: Option<u64>) -> Option<u64>
    ensures { result ≡ held_one_of first second }
{
    match second {
        Some(other) => { if other == first { Some(first) } else { None } }
        None => Some(first),
    }
}

// The inode begun, behind an event.
fn begun_behind(begun: Option<u64>, ask: Ask, answer: Answer) -> Option<u64>
    ensures { result ≡ begun_after begun ask answer }
{
    let Ask::Begin {
        writer: _,
        first,
        second,
    } = ask
    else {
        return begun;
    };
    match answer {
        Answer::Chain(_) => held_one(first, second),
        _ => begun,
    }
}

impl Note {
    // The note with a refusal, where that counts.
    fn refuse(self, ask: Ask, fault: WriteFault, who: Asker) -> Note
        ensures { result ≡ with_refusal self ask fault who }
    {
        if !counts(ask, fault) {
            return self;
        }
        Note {
            code: code(fault),
            refused: Some(refused(ask, who)),
            done: self.done,
            begun: self.begun,
        }
    }

    // The note behind an event that wasn't refused.
    fn go_on(self, ask: Ask, answer: Answer) -> Note
        ensures code { result.code ≡ self.code }
        ensures refused { result.refused ≡ self.refused }
        ensures done { result.done ≡ more_done self.done (blocks_of ask answer) }
        ensures begun { result.begun ≡ begun_after self.begun ask answer }
    {
        Note {
            code: self.code,
            refused: self.refused,
            done: add_blocks(self.done, blocks_in(ask, answer)),
            begun: begun_behind(self.begun, ask, answer),
        }
    }

    /// The note behind an event.
    pub(crate) fn behind(self, ask: Ask, answer: Answer, who: Asker) -> Note
        ensures { result ≡ noted self ask answer who }
    {
        match answer {
            Answer::Write(fault) => self.refuse(ask, fault, who),
            _ => self.go_on(ask, answer),
        }
    }
}
