ghost use Rattle.std.specs.Prelude.{◌<◌};
ghost use Rattle.fork_change.specs.Lists.{AllFit};

use super::same::same;
use dinode_core::Mapping;
use fork_change::{ForkChange, take};
use std::alloc::Global;
use std::process::Abort;

const WHOLE: Mapping = Mapping {
    offset: 5,
    block: 40,
    count: 3,
    unwritten: false,
};

const FIRST: Mapping = Mapping {
    offset: 5,
    block: 40,
    count: 1,
    unwritten: false,
};

const MIDDLE: Mapping = Mapping {
    offset: 6,
    block: 41,
    count: 1,
    unwritten: false,
};

const LAST: Mapping = Mapping {
    offset: 7,
    block: 42,
    count: 1,
    unwritten: false,
};

// Expects this answer where a piece is taken out of a list in so much room.
fn expect_take(
    rt: &impl Abort,
    alloc: Global,
    list: &mut Vec<Mapping>,
    offset: u64,
    count: u32,
    room: u32,
    answer: Result<Mapping, ForkChange>,
)
    requires list { AllFit list.old.items }
    requires some { 0 < count }
    ensures { AllFit list.new.items }
{
    same(rt, take(alloc, list, offset, count, room), answer);
}

#[test]
fn a_piece_leaves_what_lies_beside_it(rt: HostRuntime) {
    let alloc = rt.alloc();
    let mut list = Vec::from_slice(alloc, &[WHOLE]).expect(&rt, "memory is there");
    expect_take(&rt, alloc, &mut list, 8, 1, 21, Err(ForkChange::Hole));
    expect_take(&rt, alloc, &mut list, 4, 1, 21, Err(ForkChange::Hole));
    expect_take(&rt, alloc, &mut list, 6, 1, 1, Err(ForkChange::Full(2)));
    same(&rt, list.as_slice(), [WHOLE].as_slice());
    expect_take(&rt, alloc, &mut list, 6, 1, 2, Ok(MIDDLE));
    same(&rt, list.as_slice(), [FIRST, LAST].as_slice());
    expect_take(&rt, alloc, &mut list, 7, 1024, 2, Ok(LAST));
    same(&rt, list.as_slice(), [FIRST].as_slice());
}
