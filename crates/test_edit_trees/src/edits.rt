// Records put into trees of free space and taken out of them, and what is read then.
use super::same::same;
use crate::play::{records_of, state_of, step};
use span_recs::{BnoKind, SpanRec};
use std::alloc::{AllocError, Global};
use std::test::Fail;
use tree_edit::{Edit, EditFault};

// So many runs of five free blocks each, from block 1,000 on, five used ones between them.
fn list_of(alloc: Global, n: u32) -> Result<Vec<SpanRec>, AllocError> {
    let mut recs = Vec::new(alloc);
    for i in 0..n {
        let start = i.saturating_mul(10).saturating_add(1000);
        recs.push(SpanRec { start, count: 5 })?;
    }
    Ok(recs)
}

// What an edit answered, with the number of blocks that went to limbo; the root, the levels and the
// free list's blocks then; and how many records are read.
type Seen = (Result<usize, EditFault>, (u32, u32, u32), usize);

// What is seen after an edit by a run of this start and count, of a tree of so many records, with so
// many blocks in the free list.
fn seen_after(
    alloc: Global,
    records: u32,
    listed: u32,
    how: Edit,
    (start, count): (u32, u32),
) -> Result<Seen, Fail> {
    let mut state = state_of::<BnoKind>(alloc, &list_of(alloc, records)?, listed)?;
    let answer = match step::<BnoKind>(alloc, &mut state, how, SpanRec { start, count }) {
        Ok(()) => Ok(state.limbo.len()),
        Err(fault) => Err(fault),
    };
    let (root, levels) = (state.root, state.levels);
    let read = records_of::<BnoKind>(alloc, &mut state.dev, root, levels)?;
    Ok((answer, (root, levels, state.list.len()), read.len()))
}

#[test]
fn a_full_leaf_is_split_with_blocks_of_the_free_list(rt: HostRuntime) -> Result<(), Fail> {
    let alloc = rt.alloc();
    let short = seen_after(alloc, 505, 0, Edit::Insert, (1, 2))?;
    let fault = EditFault::Short { have: 0, need: 2 };
    same(&rt, short, (Err(fault), (500, 1, 0), 505));
    let split = seen_after(alloc, 505, 5, Edit::Insert, (1, 2))?;
    same(&rt, split, (Ok(0), (701, 2, 3), 506));
    Ok(())
}

#[test]
fn two_leaves_are_joined_into_one(rt: HostRuntime) -> Result<(), Fail> {
    let joined = seen_after(rt.alloc(), 506, 119, Edit::Remove, (1000, 5))?;
    let (answer, (_, levels, listed), records) = joined;
    same(&rt, answer, Ok(2));
    same(&rt, [levels, listed], [1, 119]);
    same(&rt, records, 505);
    Ok(())
}

#[test]
fn the_last_record_leaves_an_empty_root(rt: HostRuntime) -> Result<(), Fail> {
    let empty = seen_after(rt.alloc(), 1, 2, Edit::Remove, (1000, 5))?;
    same(&rt, empty, (Ok(0), (500, 1, 2), 0));
    Ok(())
}

#[test]
fn what_does_not_fit_is_refused(rt: HostRuntime) -> Result<(), Fail> {
    let alloc = rt.alloc();
    let (answer, _, records) = seen_after(alloc, 2, 2, Edit::Remove, (1000, 4))?;
    same(&rt, answer, Err(EditFault::Missing));
    same(&rt, records, 2);
    let (answer, _, records) = seen_after(alloc, 2, 2, Edit::Insert, (1004, 1))?;
    same(&rt, answer, Err(EditFault::Overlap));
    same(&rt, records, 2);
    Ok(())
}
