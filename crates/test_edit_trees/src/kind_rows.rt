// Records of each kind put at the front, in the middle and at the end, and trees that change their
// shape. A leaf of free space holds 505 records, of reverse mappings 168, of reference counts 336 and
// of inodes 252 (XFS Algorithms and Data Structures, "Short Format B+trees").
use super::same::same;
use crate::kinds::{Sample, evens, list_of};
use crate::play::{has_numbers, state_of, step};
use ino_recs::{FinoKind, InoKind};
use rmap_recs::RmapKind;
use span_recs::{BnoKind, CntKind, RefcKind};
use std::alloc::Global;
use std::test::Fail;
use tree_edit::Edit;

// Whether records 1, 5 and 7 stand in their places among 2, 4 and 6, and go again.
fn do_stand<K: Sample>(alloc: Global) -> Result<bool, Fail> {
    let base = [2, 4, 6];
    for (n, wanted) in [(1, [1, 2, 4, 6]), (5, [2, 4, 5, 6]), (7, [2, 4, 6, 7])] {
        let mut state = state_of::<K>(alloc, &list_of::<K>(alloc, &base)?, 4)?;
        let is_in = step::<K>(alloc, &mut state, Edit::Insert, K::nth(n)).is_ok();
        if !is_in || !has_numbers::<K>(alloc, &mut state, &wanted)? {
            return Ok(false);
        }
        let is_out = step::<K>(alloc, &mut state, Edit::Remove, K::nth(n)).is_ok();
        if !is_out || !has_numbers::<K>(alloc, &mut state, &base)? {
            return Ok(false);
        }
    }
    Ok(true)
}

#[test]
fn each_kind_is_edited_at_each_place(rt: HostRuntime) -> Result<(), Fail> {
    let alloc = rt.alloc();
    let found = [
        do_stand::<BnoKind>(alloc)?,
        do_stand::<CntKind>(alloc)?,
        do_stand::<RmapKind>(alloc)?,
        do_stand::<RefcKind>(alloc)?,
        do_stand::<InoKind>(alloc)?,
        do_stand::<FinoKind>(alloc)?,
    ];
    same(&rt, found, [true; 6]);
    Ok(())
}

// What a tree of so many records, and a free list of 10 blocks, are after an edit at the front: the
// levels and the list's blocks; none where the edit was refused or other records are read.
fn shape_after<K: Sample>(
    alloc: Global,
    records: u32,
    how: Edit,
) -> Result<Option<[u32; 2]>, Fail> {
    let mut numbers = evens(alloc, records)?;
    let mut state = state_of::<K>(alloc, &list_of::<K>(alloc, &numbers)?, 10)?;
    let n = if how == Edit::Insert { 1 } else { 2 };
    if step::<K>(alloc, &mut state, how, K::nth(n)).is_err() {
        return Ok(None);
    }
    if how == Edit::Insert {
        numbers.insert(0, n)?;
    } else if !numbers.is_empty() {
        let _ = numbers.remove(0);
    }
    if !has_numbers::<K>(alloc, &mut state, &numbers)? {
        return Ok(None);
    }
    Ok(Some([state.levels, state.list.len()]))
}

// Whether a full leaf gets a second one and a root from the list, two full ones a third, two leaves
// and a root become one leaf again, and a tree keeps an empty one.
fn do_shapes_change<K: Sample>(alloc: Global, most: u32) -> Result<bool, Fail> {
    for (records, how, wanted) in [
        (most, Edit::Insert, [2, 8]),
        (most.saturating_mul(2), Edit::Insert, [2, 9]),
        (most.saturating_add(1), Edit::Remove, [1, 12]),
        (1, Edit::Remove, [1, 10]),
    ] {
        if shape_after::<K>(alloc, records, how)? != Some(wanted) {
            return Ok(false);
        }
    }
    Ok(true)
}

#[test]
fn each_kind_changes_its_shape(rt: HostRuntime) -> Result<(), Fail> {
    let alloc = rt.alloc();
    let found = [
        do_shapes_change::<BnoKind>(alloc, 505)?,
        do_shapes_change::<CntKind>(alloc, 505)?,
        do_shapes_change::<RmapKind>(alloc, 168)?,
        do_shapes_change::<RefcKind>(alloc, 336)?,
        do_shapes_change::<InoKind>(alloc, 252)?,
        do_shapes_change::<FinoKind>(alloc, 252)?,
    ];
    same(&rt, found, [true; 6]);
    Ok(())
}

// 91 full leaves below one root become 92 below two nodes and a root.
#[test]
fn a_third_level_grows(rt: HostRuntime) -> Result<(), Fail> {
    let grown = shape_after::<RmapKind>(rt.alloc(), 15_288, Edit::Insert)?;
    same(&rt, grown, Some([3, 7]));
    Ok(())
}
