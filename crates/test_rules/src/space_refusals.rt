// Why no group gives a run, of the first group and of the last that an image may have.
use super::same::same;
use free_space::{GroupSpace, NoRun, Search, SickGroup, aligned_run};
use fs_model::Extent;
use sblock::Kind;
use span_recs::SpanRec;

const LAST: u32 = 65_535;

// A usable group with no free space.
fn empty(group: u32) -> GroupSpace {
    GroupSpace {
        group,
        is_open: true,
        sick: None,
        is_large: false,
        fit: None,
        last: None,
    }
}

// One with its last block free.
fn one(group: u32) -> GroupSpace {
    GroupSpace {
        last: Some(SpanRec {
            start: 268_435_455,
            count: 1,
        }),
        ..empty(group)
    }
}

fn closed(group: u32) -> GroupSpace {
    GroupSpace {
        is_open: false,
        ..one(group)
    }
}

fn sick(group: u32, kind: Kind) -> GroupSpace {
    GroupSpace {
        sick: Some(kind),
        ..one(group)
    }
}

fn large(space: GroupSpace) -> GroupSpace {
    GroupSpace {
        is_large: true,
        ..space
    }
}

fn sick_of(group: u32, kind: Kind) -> Result<Extent, NoRun> {
    Err(NoRun::Sick(SickGroup { group, kind }))
}

fn block_of(group: u32) -> Result<Extent, NoRun> {
    Ok(Extent {
        group,
        block: 268_435_455,
        count: 1,
    })
}

fn choose(first: &GroupSpace, second: &GroupSpace) -> Result<Extent, NoRun> {
    let mut search = Search::new(4);
    search.look(first);
    search.look(second);
    search.answer()
}

#[test]
fn closing_comes_before_sick_and_that_before_no_space(rt: HostRuntime) {
    let rows = [
        (closed(LAST), closed(0), Err(NoRun::Closing(0))),
        (empty(0), closed(LAST), Err(NoRun::Closing(LAST))),
        (sick(0, Kind::Bno), closed(LAST), Err(NoRun::Closing(LAST))),
        (
            sick(LAST, Kind::Bno),
            sick(0, Kind::Rmap),
            sick_of(0, Kind::Rmap),
        ),
        (empty(0), sick(LAST, Kind::Fino), sick_of(LAST, Kind::Fino)),
        (
            large(one(0)),
            sick(LAST, Kind::Cnt),
            sick_of(LAST, Kind::Cnt),
        ),
        (empty(0), large(one(LAST)), Err(NoRun::TooLarge)),
        (empty(LAST), large(empty(0)), Err(NoRun::NoSpace)),
        (empty(0), empty(LAST), Err(NoRun::NoSpace)),
        (closed(0), one(LAST), block_of(LAST)),
        (one(0), sick(LAST, Kind::Bno), block_of(0)),
    ];
    for (first, second, answer) in rows {
        same(&rt, choose(&first, &second), answer);
    }
}

// The first block of a chunk in a free run; none where the run has no end.
fn chunk_in(start: u32, count: u32) -> Option<u32> {
    if count > u32::MAX - start {
        return None;
    }
    aligned_run(&SpanRec { start, count })
}

#[test]
fn a_chunk_wants_eight_blocks_from_a_multiple_of_eight_on(rt: HostRuntime) {
    let rows = [
        (0, 7, None),
        (0, 8, Some(0)),
        (1, 14, None),
        (1, 15, Some(8)),
        (7, 8, None),
        (7, 9, Some(8)),
        (268_435_448, 7, None),
        (268_435_448, 8, Some(268_435_448)),
        (4_294_967_287, 8, None),
        (4_294_967_280, 8, Some(4_294_967_280)),
    ];
    for (start, count, block) in rows {
        same(&rt, chunk_in(start, count), block);
    }
}
