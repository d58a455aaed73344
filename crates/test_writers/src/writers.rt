use super::asks::{begin, convert, end, map, note, refused, share, strip, unmap};
use super::same::same;
use super::worlds::{expect_rows, full_file, two_files};
use core_calls::{Answer, Ask, WriteFault};
use fs_model::{Entry, EventKind, Refused};

#[test]
fn a_file_is_unmapped_and_stripped(rt: HostRuntime) {
    let image = full_file(&rt, rt.alloc());
    let rows = [
        (begin(195, None), Answer::Chain(0)),
        (unmap(3, 4), Answer::Blocks(4)),
        (unmap(3, 1), refused(WriteFault::Hole)),
        (convert(0, 2), Answer::Blocks(2)),
        (strip(), Answer::Blocks(3)),
        (strip(), Answer::Blocks(3)),
        (strip(), Answer::Blocks(0)),
        (end(), Answer::Done),
        (begin(197, None), refused(WriteFault::NoFile)),
        (note(), Answer::Done),
    ];
    let last = expect_rows(&rt, rt.alloc(), image, &rows);
    let refused = Refused {
        event: EventKind::Begin,
        first: 197,
        second: None,
        offset: 0,
        to_offset: 0,
        count: 0,
    };
    let reply = Entry::Reply {
        writer: 1,
        line: 7,
        code: 1,
        done: 12,
        refused: Some(refused),
        begun: Some(195),
    };
    same(&rt, last, Some(reply));
}

#[test]
fn a_file_is_mapped_and_unmapped(rt: HostRuntime) {
    let image = two_files(&rt, rt.alloc());
    let rows = [
        (begin(195, Some(196)), Answer::Chain(0)),
        (map(0, 10), Answer::Blocks(10)),
        (map(9, 2), refused(WriteFault::Occupied)),
        (map(20, 300), Answer::Blocks(214)),
        (convert(2, 3), Answer::Blocks(3)),
        (unmap(20, 4000), Answer::Blocks(214)),
        (unmap(1, 2), Answer::Blocks(1)),
        (end(), Answer::Done),
        (end(), refused(WriteFault::NoChain)),
        (note(), Answer::Done),
    ];
    let _last = expect_rows(&rt, rt.alloc(), image, &rows);
}

#[test]
fn a_file_is_shared_and_stripped(rt: HostRuntime) {
    let image = full_file(&rt, rt.alloc());
    let rows = [
        (begin(195, Some(196)), Answer::Chain(0)),
        (share(2, 5, 4), Answer::Blocks(4)),
        (share(2, 8, 4), refused(WriteFault::Occupied)),
        (share(20, 50, 4), refused(WriteFault::Hole)),
        (unmap(0, 10), Answer::Blocks(10)),
        (end(), Answer::Done),
        (begin(196, None), Answer::Chain(0)),
        (strip(), Answer::Blocks(4)),
        (end(), Answer::Done),
        (note(), Answer::Done),
    ];
    let _last = expect_rows(&rt, rt.alloc(), image, &rows);
}

#[test]
fn an_inode_is_taken_filled_and_given_back(rt: HostRuntime) {
    let image = two_files(&rt, rt.alloc());
    let take = Ask::TakeInode { writer: 1, uid: 7 };
    let give = Ask::GiveInode { chain: 0 };
    let rows = [
        (take, Answer::Taken(197, 0)),
        (map(0, 4), Answer::Blocks(4)),
        (give, refused(WriteFault::Occupied)),
        (strip(), Answer::Blocks(4)),
        (give, Answer::Done),
        (take, Answer::Taken(197, 0)),
        (end(), Answer::Done),
        (Ask::Refill { group: 0 }, Answer::Blocks(0)),
        (note(), Answer::Done),
    ];
    let _last = expect_rows(&rt, rt.alloc(), image, &rows);
}
