// Lists and blocks that make no tree.
use super::same::{same, same_in_row};
use crate::lists::list_of;
use crate::trees::{large_group, tree_in};
use load_trees::Unfit;
use rmap_recs::RmapKind;
use span_recs::{BnoKind, SpanRec};
use std::alloc::Global;
use std::test::Fail;

fn span((start, count): (u32, u32)) -> SpanRec {
    SpanRec { start, count }
}

// What a tree of two spans, each a start and a count, is refused for.
fn unfit_of(alloc: Global, spans: [(u32, u32); 2], block: u32) -> Option<Unfit> {
    let [first, second] = spans;
    let list = [span(first), span(second)];
    tree_in::<BnoKind>(alloc, &list, &large_group(), &[block]).err()
}

#[test]
fn the_first_that_does_not_fit_is_told(rt: HostRuntime) {
    let sound = [(2, 1), (4, 1)];
    let equal = [(4, 1), (4, 2)];
    let falling = [(4, 0), (2, 1)];
    let empty = [(2, 1), (4, 0)];
    let behind = [(2, 1), (1_048_575, 2)];
    for (spans, block, unfit) in [
        (equal, 7, Unfit::Order),
        (falling, 0, Unfit::Order),
        (empty, 0, Unfit::Range),
        (behind, 7, Unfit::Range),
        (sound, 0, Unfit::Blocks),
        (sound, 1_048_576, Unfit::Blocks),
    ] {
        let found = unfit_of(rt.alloc(), spans, block);
        same_in_row(&rt, (spans, block), found, Some(unfit));
    }
}

#[test]
fn the_blocks_are_as_many_as_the_tree_has_and_differ(rt: HostRuntime) -> Result<(), Fail> {
    let alloc = rt.alloc();
    let list = list_of::<RmapKind>(alloc, 169)?;
    let two = [7, 8].as_slice();
    let four = [7, 8, 9, 10].as_slice();
    for claimed in [two, four, [7, 8, 7].as_slice(), [8, 8, 7].as_slice()] {
        let found = tree_in::<RmapKind>(alloc, &list, &large_group(), claimed).err();
        same_in_row(&rt, claimed, found, Some(Unfit::Blocks));
    }
    let placed = tree_in::<RmapKind>(alloc, &list, &large_group(), &[9, 7, 8])?;
    same(&rt, placed.len(), 3);
    Ok(())
}
