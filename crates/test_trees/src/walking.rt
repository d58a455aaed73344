// Trees in a group of 1,048,576 blocks, the only one.
use super::same::same;
use crate::build::{BNO, device_of, two_levels};
use crate::read::read_tree;
use sblock::BlockFault;
use span_recs::{BnoKind, SpanRec};
use std::test::Fail;
use tree_walk::WalkFault;

#[test]
fn records_and_blocks_are_told_in_their_order(rt: HostRuntime) -> Result<(), Fail> {
    let alloc = rt.alloc();
    let mut device = device_of(alloc, two_levels(alloc, &BNO, 2)?)?;
    let read = read_tree::<BnoKind>(alloc, &mut device, 2)?;
    let first = SpanRec { start: 2, count: 1 };
    let last = SpanRec {
        start: 1008,
        count: 1,
    };
    same(&rt, read.blocks.as_slice(), [1, 40, 41].as_slice());
    assert_eq!(rt; read.recs.len(), 504);
    same(&rt, [read.recs[0], read.recs[503]], [first, last]);
    Ok(())
}

#[test]
fn levels_that_no_tree_has_are_a_fault_of_the_root(rt: HostRuntime) -> Result<(), Fail> {
    let alloc = rt.alloc();
    let fault = WalkFault::Bad {
        block: 1,
        fault: BlockFault::Level,
    };
    for levels in [0, 1, 3, 10] {
        let mut device = device_of(alloc, two_levels(alloc, &BNO, 2)?)?;
        let answer = read_tree::<BnoKind>(alloc, &mut device, levels).err();
        same(&rt, answer, Some(fault));
    }
    Ok(())
}
