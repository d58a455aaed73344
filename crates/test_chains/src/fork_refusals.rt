// What a fork's list refuses, at both ends of each number.
use super::same::same;
use dinode_core::Mapping;
use fork_change::{ForkChange, MOST_MAPPED, add, convert, take};
use geom::Geometry;
use std::alloc::Global;

// One more than the greatest offset.
const END: u64 = 18_014_398_509_481_984;

// Offsets 5 to 7, in blocks 40 to 42.
const WHOLE: Mapping = Mapping {
    offset: 5,
    block: 40,
    count: 3,
    unwritten: true,
};

// The last three offsets.
const LAST: Mapping = Mapping {
    offset: 18_014_398_509_481_981,
    block: 40,
    count: 3,
    unwritten: false,
};

// One group of 2^28 blocks, the greatest there is.
fn geometry() -> Geometry {
    Geometry {
        agblocks: 268_435_456,
        agcount: 1,
        dblocks: 268_435_456,
        agblklog: 28,
        uuid: [0; 16],
        log: None,
        kept: [0; 6],
        inobtcount: false,
    }
}

// How many mappings a list of one has once another is added, in so much room; Hole where the other is
// none that a fork can have.
fn added(
    alloc: Global,
    offset: u64,
    block: u64,
    count: u32,
    room: u32,
) -> Result<usize, ForkChange> {
    if count == 0 || count > MOST_MAPPED || offset > END - u64::from(count) || block > 4096 {
        return Err(ForkChange::Hole);
    }
    let mut list = Vec::from_slice(alloc, &[WHOLE])?;
    let m = Mapping {
        offset,
        block,
        count,
        unwritten: true,
    };
    add(alloc, &geometry(), &mut list, &m, room)?;
    Ok(list.len())
}

#[test]
fn an_offset_that_is_mapped_is_occupied(rt: HostRuntime) {
    let rows = [
        (0, 5, Ok(2)),
        (0, 6, Err(ForkChange::Occupied)),
        (5, 1, Err(ForkChange::Occupied)),
        (7, 1, Err(ForkChange::Occupied)),
        (7, MOST_MAPPED, Err(ForkChange::Occupied)),
        (8, MOST_MAPPED, Ok(2)),
        (END - 1, 1, Ok(2)),
    ];
    for (offset, count, answer) in rows {
        same(&rt, added(rt.alloc(), offset, 100, count, 2), answer);
    }
}

#[test]
fn a_list_is_full_where_one_more_has_no_room(rt: HostRuntime) {
    let rows = [
        (9, 44, 1, 1, Err(ForkChange::Full(2))),
        (9, 44, 1, 2, Ok(2)),
        (8, 43, 1, 0, Err(ForkChange::Full(1))),
        (8, 43, 1, 1, Ok(1)),
        (8, 43, MOST_MAPPED - 3, 1, Ok(1)),
        (8, 43, MOST_MAPPED - 2, 1, Err(ForkChange::Full(2))),
        (8, 43, MOST_MAPPED - 2, 2, Ok(2)),
    ];
    for (offset, block, count, room, answer) in rows {
        same(&rt, added(rt.alloc(), offset, block, count, room), answer);
    }
}

// The first offset of the piece that is taken out of a list of one mapping.
fn taken(alloc: Global, m: &Mapping, offset: u64) -> Result<u64, ForkChange> {
    if m.count == 0
        || m.count > MOST_MAPPED
        || m.offset > END - u64::from(m.count)
        || m.block > 4096
    {
        return Err(ForkChange::Memory);
    }
    let mut list = Vec::from_slice(alloc, &[*m])?;
    let piece = take(alloc, &mut list, offset, 1, 2)?;
    Ok(piece.offset)
}

#[test]
fn beside_a_mapping_there_is_a_hole(rt: HostRuntime) {
    let rows = [
        (WHOLE, 4, Err(ForkChange::Hole)),
        (WHOLE, 5, Ok(5)),
        (WHOLE, 7, Ok(7)),
        (WHOLE, 8, Err(ForkChange::Hole)),
        (LAST, END - 4, Err(ForkChange::Hole)),
        (LAST, END - 3, Ok(END - 3)),
        (LAST, END - 1, Ok(END - 1)),
        (LAST, END, Err(ForkChange::Hole)),
        (LAST, u64::MAX, Err(ForkChange::Hole)),
    ];
    for (m, offset, answer) in rows {
        same(&rt, taken(rt.alloc(), &m, offset), answer);
    }
}

// How many mappings a list of one has once a block of it is made written, in so much room.
fn converted(alloc: Global, offset: u64, room: u32) -> Result<usize, ForkChange> {
    let mut list = Vec::from_slice(alloc, &[WHOLE])?;
    convert(alloc, &geometry(), &mut list, offset, 1, room)?;
    Ok(list.len())
}

#[test]
fn a_written_piece_wants_room_beside_what_stays(rt: HostRuntime) {
    let rows = [
        (4, 3, Err(ForkChange::Hole)),
        (5, 1, Err(ForkChange::Full(2))),
        (5, 2, Ok(2)),
        (6, 2, Err(ForkChange::Full(3))),
        (6, 3, Ok(3)),
        (7, 2, Ok(2)),
        (8, 3, Err(ForkChange::Hole)),
    ];
    for (offset, room, answer) in rows {
        same(&rt, converted(rt.alloc(), offset, room), answer);
    }
}
