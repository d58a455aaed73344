// Edits that are refused, and what they leave: the tree, the list and limbo as they were.
use super::same::same;
use crate::kinds::{evens, list_of};
use crate::play::{State, reads, state_of, step};
use sblock::BlockFault;
use span_recs::{BnoKind, RefcKind, RefcRec, SpanRec};
use std::alloc::Global;
use std::test::Fail;
use tree_edit::{Edit, EditFault};

fn span(start: u32, count: u32) -> SpanRec {
    SpanRec { start, count }
}

fn shared(start: u32, count: u32, refcount: u32) -> RefcRec {
    RefcRec {
        start,
        count,
        refcount,
    }
}

// Whether nothing of the state but its device has changed since it was made.
fn is_as_before(state: &State, root: u32, listed: u32) -> bool {
    state.root == root && state.list.len() == listed && state.limbo.is_empty()
}

#[test]
fn free_space_refuses_what_does_not_fit(rt: HostRuntime) -> Result<(), Fail> {
    let alloc = rt.alloc();
    let base = [span(19, 5), span(32, 224)];
    for (how, rec, fault) in [
        (Edit::Remove, span(20, 1), EditFault::Missing),
        (Edit::Remove, span(19, 4), EditFault::Missing),
        (Edit::Insert, span(22, 4), EditFault::Overlap),
        (Edit::Insert, span(19, 5), EditFault::Overlap),
        (Edit::Change, span(20, 4), EditFault::Missing),
        (Edit::Change, span(25, 100), EditFault::Missing),
        (Edit::Change, span(19, 14), EditFault::Overlap),
    ] {
        let mut state = state_of::<BnoKind>(alloc, &base, 4)?;
        same(
            &rt,
            step::<BnoKind>(alloc, &mut state, how, rec),
            Err(fault),
        );
        same(&rt, is_as_before(&state, 500, 4), true);
        same(&rt, reads::<BnoKind>(alloc, &mut state, &base), true);
    }
    Ok(())
}

#[test]
fn a_changed_record_stands_in_the_place_of_its_key(rt: HostRuntime) -> Result<(), Fail> {
    let alloc = rt.alloc();
    let base = [span(19, 5), span(32, 224)];
    for (rec, wanted) in [
        (span(19, 13), [span(19, 13), span(32, 224)]),
        (span(32, 1), [span(19, 5), span(32, 1)]),
    ] {
        let mut state = state_of::<BnoKind>(alloc, &base, 4)?;
        same(
            &rt,
            step::<BnoKind>(alloc, &mut state, Edit::Change, rec),
            Ok(()),
        );
        same(&rt, reads::<BnoKind>(alloc, &mut state, &wanted), true);
    }
    Ok(())
}

#[test]
fn shared_blocks_are_counted_anew(rt: HostRuntime) -> Result<(), Fail> {
    let alloc = rt.alloc();
    let base = [shared(40, 2, 2), shared(50, 4, 3)];
    for (rec, answer) in [
        (shared(40, 2, 3), Ok(())),
        (shared(40, 10, 2), Ok(())),
        (shared(40, 11, 2), Err(EditFault::Overlap)),
        (shared(41, 1, 2), Err(EditFault::Missing)),
    ] {
        let mut state = state_of::<RefcKind>(alloc, &base, 4)?;
        same(
            &rt,
            step::<RefcKind>(alloc, &mut state, Edit::Change, rec),
            answer,
        );
        let kept = if answer.is_ok() { rec } else { base[0] };
        let is_read = reads::<RefcKind>(alloc, &mut state, &[kept, base[1]]);
        same(&rt, is_read, true);
    }
    Ok(())
}

// A block of zeros where the root should be.
#[test]
fn a_bad_root_is_told_first(rt: HostRuntime) -> Result<(), Fail> {
    let alloc = rt.alloc();
    let mut state = state_of::<BnoKind>(alloc, &[span(19, 5)], 0)?;
    state.root = 501;
    let bad = EditFault::Bad {
        block: 501,
        fault: BlockFault::Magic,
    };
    for (how, rec) in [
        (Edit::Remove, span(20, 1)),
        (Edit::Insert, span(19, 5)),
        (Edit::Change, span(20, 1)),
    ] {
        same(&rt, step::<BnoKind>(alloc, &mut state, how, rec), Err(bad));
        same(&rt, is_as_before(&state, 501, 0), true);
    }
    Ok(())
}

// What an edit of a tree of so many records answers, and whether it left the list as it was.
fn answer_of(
    alloc: Global,
    records: u32,
    how: Edit,
    n: u32,
) -> Result<(Result<(), EditFault>, bool), Fail> {
    let base = list_of::<BnoKind>(alloc, &evens(alloc, records)?)?;
    let mut state = state_of::<BnoKind>(alloc, &base, 10)?;
    let root = state.root;
    let rec = span(n.saturating_add(1).saturating_mul(2), 1);
    let answer = step::<BnoKind>(alloc, &mut state, how, rec);
    let stays = is_as_before(&state, root, 10) && reads::<BnoKind>(alloc, &mut state, &base);
    Ok((answer, stays))
}

// 158 full leaves and a root become 159 and a root, 160 blocks: a batch has no more. With a leaf more
// there would be 161, and so there would be where 160 leaves and a root become 159 and a root.
#[test]
fn more_than_a_batch_is_refused(rt: HostRuntime) -> Result<(), Fail> {
    let alloc = rt.alloc();
    let large = (Err(EditFault::TooLarge(161)), true);
    same(&rt, answer_of(alloc, 79_790, Edit::Insert, 1)?.0, Ok(()));
    same(&rt, answer_of(alloc, 80_295, Edit::Insert, 1)?, large);
    same(&rt, answer_of(alloc, 80_296, Edit::Remove, 2)?, large);
    Ok(())
}

// Short comes before TooLarge, and Missing and Overlap before both.
#[test]
fn the_first_refusal_is_told(rt: HostRuntime) -> Result<(), Fail> {
    let alloc = rt.alloc();
    same(
        &rt,
        answer_of(alloc, 80_296, Edit::Remove, 1)?,
        (Err(EditFault::Missing), true),
    );
    same(
        &rt,
        answer_of(alloc, 80_295, Edit::Insert, 2)?,
        (Err(EditFault::Overlap), true),
    );
    let base = list_of::<BnoKind>(alloc, &evens(alloc, 80_295)?)?;
    let mut state = state_of::<BnoKind>(alloc, &base, 0)?;
    let short = EditFault::Short { have: 0, need: 1 };
    same(
        &rt,
        step::<BnoKind>(alloc, &mut state, Edit::Insert, span(4, 1)),
        Err(short),
    );
    Ok(())
}
