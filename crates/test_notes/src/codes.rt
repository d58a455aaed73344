use super::same::same;
use core_calls::{Answer, Ask, WriteFault};
use core_notes::{Asker, Notes};
use fs_model::{EventKind, Refused};
use sblock::Kind;

// Writer 3, whose chain holds two inodes.
fn asker() -> Asker {
    Asker {
        writer: 3,
        first: 100,
        second: Some(200),
    }
}

// The code that is noted of a refusal, and what of it was asked.
fn noted(ask: Ask, fault: WriteFault) -> (u32, Option<Refused>) {
    let mut notes = Notes::new();
    notes.after(ask, Answer::Write(fault), asker());
    let note = notes.of(3);
    (note.code, note.refused)
}

fn code_of(fault: WriteFault) -> u32 {
    let (code, _) = noted(Ask::StripFirst { chain: 0 }, fault);
    code
}

#[test]
fn each_refusal_has_its_code(rt: HostRuntime) {
    same(&rt, code_of(WriteFault::NoFile), 1);
    same(&rt, code_of(WriteFault::Occupied), 2);
    same(&rt, code_of(WriteFault::Hole), 3);
    same(&rt, code_of(WriteFault::ForkFull), 4);
    same(&rt, code_of(WriteFault::TreeFork), 5);
    same(&rt, code_of(WriteFault::NoSpace), 6);
    same(&rt, code_of(WriteFault::Sick(1, Kind::Rmap)), 7);
    same(&rt, code_of(WriteFault::CountMax), 8);
    same(&rt, code_of(WriteFault::TooLarge), 9);
    same(&rt, code_of(WriteFault::Shut(1)), 12);
    same(&rt, code_of(WriteFault::Memory), 13);
    same(&rt, code_of(WriteFault::NoChain), 15);
    same(&rt, code_of(WriteFault::OtherStep(None)), 16);
    same(&rt, code_of(WriteFault::JournalFull), 17);
}

#[test]
fn what_is_tried_again_isnt_noted(rt: HostRuntime) {
    same(&rt, code_of(WriteFault::Busy(100)), 0);
    same(&rt, code_of(WriteFault::Closing(0)), 0);
    same(&rt, code_of(WriteFault::Crowded), 0);
    let give = Ask::GiveInode { chain: 0 };
    same(&rt, noted(give, WriteFault::Occupied), (0, None));
}

#[test]
fn a_refusal_tells_what_was_asked(rt: HostRuntime) {
    let ask = Ask::ShareFirst {
        chain: 7,
        offset: 10,
        to_offset: 20,
        count: 5,
    };
    let refused = Refused {
        event: EventKind::ShareFirst,
        first: 100,
        second: Some(200),
        offset: 10,
        to_offset: 20,
        count: 5,
    };
    same(&rt, noted(ask, WriteFault::CountMax), (8, Some(refused)));
}
