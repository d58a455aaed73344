use super::same::same;
use core_calls::{Answer, Ask, WriteFault};
use core_notes::{Asker, Notes};
use fs_model::{Entry, EventKind, Refused};

fn asker(writer: u32) -> Asker {
    Asker {
        writer,
        first: 100,
        second: None,
    }
}

fn begin(second: Option<u64>) -> Ask {
    Ask::Begin {
        writer: 5,
        first: 100,
        second,
    }
}

// What is noted of writer 5 behind a begin with a second inode: the inode begun.
fn begun(second: Option<u64>, answer: Answer) -> Option<u64> {
    let mut notes = Notes::new();
    notes.after(begin(second), answer, asker(5));
    notes.of(5).begun
}

// Two first events of writer 5 and one of writer 6, a refusal of writer 5, and then replies.
fn replies() -> (Entry, Entry, Entry) {
    let mut notes = Notes::new();
    let strip = Ask::StripFirst { chain: 1 };
    notes.after(begin(None), Answer::Chain(1), asker(5));
    notes.after(strip, Answer::Blocks(30), asker(5));
    notes.after(strip, Answer::Blocks(12), asker(5));
    notes.after(strip, Answer::Blocks(1), asker(6));
    notes.after(strip, Answer::Write(WriteFault::TreeFork), asker(5));
    let first = notes.reply(5, 1);
    let second = notes.reply(5, 2);
    (first, second, notes.reply(6, 9))
}

#[test]
fn an_inode_begun_alone_is_noted(rt: HostRuntime) {
    same(&rt, begun(None, Answer::Chain(0)), Some(100));
    same(&rt, begun(Some(100), Answer::Chain(0)), Some(100));
    same(&rt, begun(Some(200), Answer::Chain(0)), None);
    same(&rt, begun(None, Answer::Write(WriteFault::NoFile)), None);
}

#[test]
fn a_reply_tells_what_was_done_since_the_last(rt: HostRuntime) {
    let (first, second, third) = replies();
    let refused = Refused {
        event: EventKind::StripFirst,
        first: 100,
        second: None,
        offset: 0,
        to_offset: 0,
        count: 0,
    };
    same(
        &rt,
        first,
        Entry::Reply {
            writer: 5,
            line: 1,
            code: 5,
            done: 42,
            refused: Some(refused),
            begun: Some(100),
        },
    );
    same(
        &rt,
        second,
        Entry::Reply {
            writer: 5,
            line: 2,
            code: 0,
            done: 0,
            refused: None,
            begun: None,
        },
    );
    same(
        &rt,
        third,
        Entry::Reply {
            writer: 6,
            line: 9,
            code: 0,
            done: 1,
            refused: None,
            begun: None,
        },
    );
}
