ghost use Rattle.fork_change.specs.Lists.{AllFit, Fits};

use super::same::same;
use crate::maps::{expect_list, new_list, two_groups, unwritten, written};
use dinode_core::Mapping;
use fork_change::{ForkChange, add, take};
use std::alloc::Global;
use std::process::Abort;

// The greatest offset: a mapping of one block there ends at 2^54.
const GREATEST: u64 = 18_014_398_509_481_983;

// Expects this answer where a mapping is added to a list in so much room.
fn expect_add(
    rt: &impl Abort,
    alloc: Global,
    list: &mut Vec<Mapping>,
    m: Mapping,
    room: u32,
    answer: Result<(), ForkChange>,
)
    requires list { AllFit list.old.items }
    requires fits { Fits m }
    ensures { AllFit list.new.items }
{
    let found = add(alloc, &two_groups(), list, &m, room);
    same(rt, found, answer);
}

#[test]
fn a_mapping_is_joined_on_both_sides(rt: HostRuntime) {
    let alloc = rt.alloc();
    let mut list = new_list(&rt, alloc, &[written(0, 100, 5), written(8, 108, 4)]);
    let between = written(5, 105, 3);
    expect_add(&rt, alloc, &mut list, between, 0, Err(ForkChange::Full(1)));
    expect_add(&rt, alloc, &mut list, between, 1, Ok(()));
    expect_list(&rt, &list, &[written(0, 100, 12)]);
}

#[test]
fn mappings_of_two_groups_stay_two(rt: HostRuntime) {
    let alloc = rt.alloc();
    let lower = written(0, 4_194_299, 5);
    let upper = written(5, 4_194_304, 3);
    let mut list = new_list(&rt, alloc, &[lower]);
    expect_add(&rt, alloc, &mut list, upper, 1, Err(ForkChange::Full(2)));
    expect_list(&rt, &list, &[lower]);
    expect_add(&rt, alloc, &mut list, upper, 2, Ok(()));
    expect_list(&rt, &list, &[lower, upper]);
}

#[test]
fn written_and_unwritten_blocks_stay_two(rt: HostRuntime) {
    let alloc = rt.alloc();
    let before = written(0, 100, 5);
    let mut list = new_list(&rt, alloc, &[before, unwritten(8, 108, 4)]);
    expect_add(&rt, alloc, &mut list, unwritten(5, 105, 3), 2, Ok(()));
    expect_list(&rt, &list, &[before, unwritten(5, 105, 7)]);
}

#[test]
fn one_mapping_has_room_for_2097151_blocks(rt: HostRuntime) {
    let alloc = rt.alloc();
    let last = written(2_097_150, 2_097_150, 1);
    let over = written(2_097_151, 2_097_151, 1);
    let longest = written(0, 0, 2_097_151);
    let mut list = new_list(&rt, alloc, &[written(0, 0, 2_097_150)]);
    expect_add(&rt, alloc, &mut list, last, 1, Ok(()));
    expect_list(&rt, &list, &[longest]);
    expect_add(&rt, alloc, &mut list, over, 2, Ok(()));
    expect_list(&rt, &list, &[longest, over]);
}

#[test]
fn a_mapped_offset_is_occupied(rt: HostRuntime) {
    let alloc = rt.alloc();
    let mapped = written(5, 40, 3);
    let over_end = written(7, 60, 2);
    let over_start = written(4, 60, 2);
    let around = written(0, 60, 9);
    let mut list = new_list(&rt, alloc, &[mapped]);
    expect_add(
        &rt,
        alloc,
        &mut list,
        over_end,
        9,
        Err(ForkChange::Occupied),
    );
    expect_add(
        &rt,
        alloc,
        &mut list,
        over_start,
        9,
        Err(ForkChange::Occupied),
    );
    expect_add(&rt, alloc, &mut list, around, 0, Err(ForkChange::Occupied));
    expect_list(&rt, &list, &[mapped]);
}

#[test]
fn a_mapping_beside_another_needs_room(rt: HostRuntime) {
    let alloc = rt.alloc();
    let mapped = written(5, 40, 3);
    let behind = written(8, 60, 1);
    let before = written(4, 60, 1);
    let mut list = new_list(&rt, alloc, &[mapped]);
    expect_add(&rt, alloc, &mut list, behind, 1, Err(ForkChange::Full(2)));
    expect_add(&rt, alloc, &mut list, before, 2, Ok(()));
    expect_add(&rt, alloc, &mut list, behind, 2, Err(ForkChange::Full(3)));
    expect_list(&rt, &list, &[before, mapped]);
}

#[test]
fn the_greatest_offset_is_mapped_and_taken(rt: HostRuntime) {
    let alloc = rt.alloc();
    let greatest = written(GREATEST, 100, 1);
    let before = written(18_014_398_509_481_982, 99, 1);
    let mut list = new_list(&rt, alloc, &[greatest]);
    expect_add(
        &rt,
        alloc,
        &mut list,
        greatest,
        2,
        Err(ForkChange::Occupied),
    );
    expect_add(&rt, alloc, &mut list, before, 1, Ok(()));
    let taken = take(alloc, &mut list, GREATEST, 1, 1);
    same(&rt, taken, Ok(greatest));
    expect_list(&rt, &list, &[before]);
}

#[test]
fn a_mapping_is_joined_with_one_neighbour(rt: HostRuntime) {
    let alloc = rt.alloc();
    let mut list = new_list(&rt, alloc, &[written(5, 40, 3)]);
    let elsewhere = written(9, 45, 2);
    expect_add(&rt, alloc, &mut list, written(8, 43, 1), 1, Ok(()));
    expect_add(&rt, alloc, &mut list, written(4, 39, 1), 1, Ok(()));
    expect_list(&rt, &list, &[written(4, 39, 5)]);
    expect_add(&rt, alloc, &mut list, elsewhere, 2, Ok(()));
    expect_list(&rt, &list, &[written(4, 39, 5), elsewhere]);
}

#[test]
fn the_first_mapping_needs_room(rt: HostRuntime) {
    let alloc = rt.alloc();
    let longest = written(18_014_398_507_384_833, 0, 2_097_151);
    let mut list = Vec::new(alloc);
    expect_add(&rt, alloc, &mut list, longest, 0, Err(ForkChange::Full(1)));
    expect_add(&rt, alloc, &mut list, longest, 1, Ok(()));
    expect_list(&rt, &list, &[longest]);
}
