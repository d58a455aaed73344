use super::same::same;
use crate::pieces::{overlap, piece};
use fs_model::{Claim, Unit};
use std::test::Fail;
use unit_plan::{Among, ClaimSet, need};

#[test]
fn the_need_is_a_sum_of_shapes(rt: HostRuntime) {
    let rows = [
        (Unit::Free, 2, 2, 2),
        (Unit::Rmap, 7, 0, 1),
        (Unit::Inode, 1, 1, 2),
        (Unit::Inode, 1, 0, 2),
        (Unit::Free, 505, 505, 2),
        (Unit::Free, 506, 506, 6),
        (Unit::Inode, 300, 2, 4),
        (Unit::Rmap, 168, 0, 1),
        (Unit::Rmap, 169, 0, 3),
        (Unit::Refc, 0, 0, 1),
        (Unit::Free, 0, 0, 2),
    ];
    for (unit, first, second, wanted) in rows {
        same(&rt, need(unit, first, second), wanted);
    }
}

#[test]
fn a_file_on_the_heads_is_an_overlap(rt: HostRuntime) -> Result<(), Fail> {
    let mut set = ClaimSet::new(rt.alloc());
    set.put(piece(Claim::Data(195), 0, 1))?;
    set.put(piece(Claim::Heads, 0, 1))?;
    let wanted = overlap(0, Claim::Heads, Claim::Data(195));
    same(&rt, set.first_overlap(Among::All), wanted);
    Ok(())
}
