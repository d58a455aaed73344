// Trees of one, two and three levels of each kind.
use super::same::same;
use crate::build::{
    BNO, CNT, FINO, INO, REFC, RMAP, Shape, device_of, one_level, three_levels, two_levels,
};
use crate::read::{Counts, NO_RUN, claims_by_kind, counted, first_runs};
use blk_device::MemDevice;
use run_sets::Run;
use sblock::Kind;
use std::alloc::Global;
use std::process::Abort;
use std::test::Fail;
use tree_walk::WalkFault;

const SHAPES: [Shape; 6] = [BNO, CNT, RMAP, REFC, INO, FINO];

const fn counts_of(records: usize, blocks: usize, last: u32) -> Counts {
    Counts {
        records,
        blocks,
        last,
    }
}

const fn run(start: u32, count: u32) -> Run {
    Run { start, count }
}

// Expects these counts of a walk, and one or two runs that the tree claims.
fn expect_whole(
    rt: &impl Abort,
    alloc: Global,
    mut device: MemDevice,
    kind: Kind,
    levels: u32,
    counts: Counts,
    runs: [Run; 2],
) -> Result<(), WalkFault> {
    same(rt, counted(alloc, &mut device, kind, levels)?, counts);
    let claims = claims_by_kind(alloc, &mut device, kind, 1, levels)?;
    same(rt, first_runs(&claims), [runs[0], runs[1], NO_RUN, NO_RUN]);
    Ok(())
}

#[test]
fn a_root_leaf_is_read_whole(rt: HostRuntime) -> Result<(), Fail> {
    let alloc = rt.alloc();
    let counts = counts_of(3, 1, 1);
    for shape in SHAPES {
        let device = device_of(alloc, one_level(alloc, &shape)?)?;
        let runs = [run(1, 1), NO_RUN];
        expect_whole(&rt, alloc, device, shape.kind, 1, counts, runs)?;
    }
    Ok(())
}

fn expect_two_levels(rt: &impl Abort, alloc: Global, shape: &Shape) -> Result<(), WalkFault> {
    let device = device_of(alloc, two_levels(alloc, shape, 3)?)?;
    let counts = counts_of(3 * usize::from(shape.leaf), 4, 42);
    let runs = [run(1, 1), run(40, 3)];
    expect_whole(rt, alloc, device, shape.kind, 2, counts, runs)
}

#[test]
fn a_root_over_three_leaves_is_read_whole(rt: HostRuntime) -> Result<(), Fail> {
    let alloc = rt.alloc();
    for shape in SHAPES {
        expect_two_levels(&rt, alloc, &shape)?;
    }
    Ok(())
}

fn expect_three_levels(rt: &impl Abort, alloc: Global, shape: &Shape) -> Result<(), WalkFault> {
    let device = device_of(alloc, three_levels(alloc, shape)?)?;
    let leaves = 2 * usize::from(shape.node);
    let count = 2 * u32::from(shape.node);
    let records = leaves * usize::from(shape.leaf);
    let counts = counts_of(records, 3 + leaves, 99 + count);
    let runs = [run(1, 3), run(100, count)];
    expect_whole(rt, alloc, device, shape.kind, 3, counts, runs)
}

#[test]
fn a_root_over_two_nodes_is_read_whole(rt: HostRuntime) -> Result<(), Fail> {
    let alloc = rt.alloc();
    for shape in SHAPES {
        expect_three_levels(&rt, alloc, &shape)?;
    }
    Ok(())
}

// Whether each of `n` blocks from this one on was read once.
fn were_read_once(device: &MemDevice, from: u64, n: u64) -> bool {
    for i in 0..n {
        if device.reads_at(from.wrapping_add(i)) != 1 {
            return false;
        }
    }
    true
}

#[test]
fn each_block_of_a_tree_of_300_leaves_is_read_once(rt: HostRuntime) -> Result<(), Fail> {
    let alloc = rt.alloc();
    let mut walked = device_of(alloc, two_levels(alloc, &BNO, 300)?)?;
    let counts = counts_of(75_600, 301, 339);
    same(&rt, counted(alloc, &mut walked, BNO.kind, 2)?, counts);
    assert!(rt; were_read_once(&walked, 1, 1) && were_read_once(&walked, 40, 300));
    let mut looked_at = device_of(alloc, two_levels(alloc, &BNO, 300)?)?;
    let _ = claims_by_kind(alloc, &mut looked_at, BNO.kind, 1, 2)?;
    assert!(rt; were_read_once(&looked_at, 1, 1) && were_read_once(&looked_at, 40, 300));
    Ok(())
}
