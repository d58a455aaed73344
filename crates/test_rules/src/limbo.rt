use super::same::same;
use block_reap::{LimboRun, Memory, next, put, unit_owner};
use fs_model::Unit;
use rmap_recs::Owner;
use std::alloc::Global;

const AG: u64 = 0xffff_ffff_ffff_fffb;

const INOBT: u64 = 0xffff_ffff_ffff_fffa;

fn run(start: u32, count: u32, owner: u64) -> LimboRun {
    LimboRun {
        start,
        count,
        owner,
    }
}

#[test]
fn the_lowest_run_is_reaped_first_and_cut(rt: HostRuntime) {
    same(&rt, next(&[]), None);
    same(&rt, next(&[run(1, 2, AG)]), Some(run(1, 2, AG)));
    same(
        &rt,
        next(&[run(5, 64, AG), run(5, 1, INOBT)]),
        Some(run(5, 64, AG)),
    );
    same(&rt, next(&[run(5, 65, INOBT)]), Some(run(5, 64, INOBT)));
}

#[test]
fn owners_of_what_a_switch_leaves(rt: HostRuntime) {
    let rows = [
        (Unit::Inode, Owner::Inobt),
        (Unit::Rmap, Owner::Ag),
        (Unit::Free, Owner::Ag),
        (Unit::Refc, Owner::Refc),
    ];
    for (unit, owner) in rows {
        same(&rt, unit_owner(unit), owner);
    }
}

// What is reaped next once one block waits; none where it has no number behind it.
fn reaped(alloc: Global, block: u32, owner: u64) -> Result<Option<LimboRun>, Memory> {
    if block == u32::MAX {
        return Ok(None);
    }
    let mut limbo = Vec::with_capacity(alloc, 1)?;
    put(&mut limbo, block, owner);
    Ok(next(&limbo))
}

#[test]
fn a_block_that_waits_is_reaped_with_its_owner(rt: HostRuntime) {
    let rows = [
        (0, AG, Some(run(0, 1, AG))),
        (268_435_455, INOBT, Some(run(268_435_455, 1, INOBT))),
        (4_294_967_294, 0, Some(run(4_294_967_294, 1, 0))),
        (u32::MAX, AG, None),
    ];
    for (block, owner, found) in rows {
        same(&rt, reaped(rt.alloc(), block, owner), Ok(found));
    }
}
