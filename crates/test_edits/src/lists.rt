// Lists of records, edited.
use super::same::same;
use list_edit::{Edit, ListFault, edit_list};
use rmap_recs::{RmapKind, RmapRec};
use span_recs::{BnoKind, CntKind, RefcKind, RefcRec, SpanRec};
use std::alloc::{AllocError, Global};
use std::process::Abort;

fn span(start: u32, count: u32) -> SpanRec {
    SpanRec { start, count }
}

fn shared(start: u32, count: u32, refcount: u32) -> RefcRec {
    RefcRec {
        start,
        count,
        refcount,
    }
}

fn owned(start: u32, count: u32, owner: u64, word: u64) -> RmapRec {
    RmapRec {
        start,
        count,
        owner,
        word,
    }
}

// Edits the list of two free runs by start, and compares the answer and the list.
fn expect_by_start(
    rt: &impl Abort,
    alloc: Global,
    how: Edit,
    rec: SpanRec,
    answer: Result<(), ListFault>,
    wanted: &[SpanRec],
) {
    let mut list = Vec::from_array(alloc, [span(19, 5), span(32, 224)]).expect(
        rt,
        "memory is there",
    );
    same(rt, edit_list::<BnoKind>(&mut list, how, &rec), answer);
    same(rt, list.as_slice(), wanted);
}

#[test]
fn free_space_by_start_is_edited(rt: HostRuntime) {
    for (rec, wanted) in [
        (span(1, 2), [span(1, 2), span(19, 5), span(32, 224)]),
        (span(24, 8), [span(19, 5), span(24, 8), span(32, 224)]),
        (span(256, 4), [span(19, 5), span(32, 224), span(256, 4)]),
    ] {
        expect_by_start(&rt, rt.alloc(), Edit::Insert, rec, Ok(()), &wanted);
    }
    for (rec, wanted) in [(span(19, 5), span(32, 224)), (span(32, 224), span(19, 5))] {
        expect_by_start(&rt, rt.alloc(), Edit::Remove, rec, Ok(()), &[wanted]);
    }
}

#[test]
fn free_space_by_start_refuses(rt: HostRuntime) {
    let unchanged = [span(19, 5), span(32, 224)];
    for (how, start, count, fault) in [
        (Edit::Remove, 20, 1, ListFault::Missing),
        (Edit::Remove, 19, 4, ListFault::Missing),
        (Edit::Change, 20, 4, ListFault::Missing),
        (Edit::Insert, 22, 4, ListFault::Overlap),
        (Edit::Insert, 18, 2, ListFault::Overlap),
        (Edit::Insert, 1, 255, ListFault::Overlap),
        (Edit::Insert, 19, 5, ListFault::Overlap),
        (Edit::Change, 19, 14, ListFault::Overlap),
    ] {
        let rec = span(start, count);
        expect_by_start(&rt, rt.alloc(), how, rec, Err(fault), &unchanged);
    }
}

#[test]
fn free_space_by_count_stands_by_count(rt: HostRuntime) -> Result<(), AllocError> {
    let mut list = Vec::from_array(rt.alloc(), [span(19, 5), span(32, 224)])?;
    same(
        &rt,
        edit_list::<CntKind>(&mut list, Edit::Insert, &span(1, 5)),
        Ok(()),
    );
    same(
        &rt,
        edit_list::<CntKind>(&mut list, Edit::Insert, &span(1, 6)),
        Ok(()),
    );
    same(
        &rt,
        list.as_slice(),
        [span(1, 5), span(19, 5), span(1, 6), span(32, 224)].as_slice(),
    );
    same(
        &rt,
        edit_list::<CntKind>(&mut list, Edit::Insert, &span(1, 5)),
        Err(ListFault::Overlap),
    );
    Ok(())
}

#[test]
fn counts_change_in_place(rt: HostRuntime) -> Result<(), AllocError> {
    let mut list = Vec::from_array(rt.alloc(), [shared(40, 2, 2), shared(50, 4, 3)])?;
    same(
        &rt,
        edit_list::<RefcKind>(&mut list, Edit::Change, &shared(40, 10, 3)),
        Ok(()),
    );
    same(
        &rt,
        list.as_slice(),
        [shared(40, 10, 3), shared(50, 4, 3)].as_slice(),
    );
    same(
        &rt,
        edit_list::<RefcKind>(&mut list, Edit::Change, &shared(40, 11, 3)),
        Err(ListFault::Overlap),
    );
    same(
        &rt,
        edit_list::<RefcKind>(&mut list, Edit::Remove, &shared(40, 10, 2)),
        Err(ListFault::Missing),
    );
    Ok(())
}

#[test]
fn mappings_of_one_block_stand_side_by_side(rt: HostRuntime) -> Result<(), AllocError> {
    let mut list = Vec::from_array(rt.alloc(), [owned(40, 1, 195, 0)])?;
    same(
        &rt,
        edit_list::<RmapKind>(&mut list, Edit::Insert, &owned(40, 1, 195, 5)),
        Ok(()),
    );
    same(
        &rt,
        list.as_slice(),
        [owned(40, 1, 195, 0), owned(40, 1, 195, 5)].as_slice(),
    );
    same(
        &rt,
        edit_list::<RmapKind>(&mut list, Edit::Insert, &owned(40, 2, 195, 5)),
        Err(ListFault::Overlap),
    );
    same(
        &rt,
        edit_list::<RmapKind>(&mut list, Edit::Remove, &owned(40, 1, 195, 5)),
        Ok(()),
    );
    same(&rt, list.as_slice(), [owned(40, 1, 195, 0)].as_slice());
    Ok(())
}
