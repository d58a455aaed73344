ghost use Rattle.std.specs.Prelude.{◌<◌};
ghost use Rattle.fork_change.specs.Lists.{AllFit};

use super::same::same;
use crate::maps::{expect_list, new_list, two_groups, unwritten, written};
use dinode_core::Mapping;
use fork_change::{ForkChange, convert};
use std::alloc::Global;
use std::process::Abort;

// Expects this answer where a piece of a list is made written in so much room.
fn expect_convert(
    rt: &impl Abort,
    alloc: Global,
    list: &mut Vec<Mapping>,
    offset: u64,
    count: u32,
    room: u32,
    answer: Result<Mapping, ForkChange>,
)
    requires list { AllFit list.old.items }
    requires some { 0 < count }
    ensures { AllFit list.new.items }
{
    let found = convert(alloc, &two_groups(), list, offset, count, room);
    same(rt, found, answer);
}

#[test]
fn a_whole_mapping_is_made_written(rt: HostRuntime) {
    let alloc = rt.alloc();
    let whole = unwritten(0, 40, 6);
    let mut list = new_list(&rt, alloc, &[whole]);
    expect_convert(&rt, alloc, &mut list, 6, 1, 9, Err(ForkChange::Hole));
    expect_convert(&rt, alloc, &mut list, 0, 1024, 1, Ok(whole));
    expect_list(&rt, &list, &[written(0, 40, 6)]);
}

#[test]
fn the_front_of_a_mapping_is_made_written(rt: HostRuntime) {
    let alloc = rt.alloc();
    let front = unwritten(0, 40, 2);
    let mut list = new_list(&rt, alloc, &[unwritten(0, 40, 6)]);
    expect_convert(&rt, alloc, &mut list, 0, 2, 1, Err(ForkChange::Full(2)));
    expect_convert(&rt, alloc, &mut list, 0, 2, 2, Ok(front));
    expect_list(&rt, &list, &[written(0, 40, 2), unwritten(2, 42, 4)]);
}

#[test]
fn the_middle_of_a_mapping_is_made_written(rt: HostRuntime) {
    let alloc = rt.alloc();
    let whole = unwritten(0, 40, 6);
    let middle = unwritten(2, 42, 2);
    let parts = [unwritten(0, 40, 2), written(2, 42, 2), unwritten(4, 44, 2)];
    let mut list = new_list(&rt, alloc, &[whole]);
    expect_convert(&rt, alloc, &mut list, 2, 2, 2, Err(ForkChange::Full(3)));
    expect_list(&rt, &list, &[whole]);
    expect_convert(&rt, alloc, &mut list, 2, 2, 3, Ok(middle));
    expect_list(&rt, &list, &parts);
}

#[test]
fn the_end_of_a_mapping_is_made_written(rt: HostRuntime) {
    let alloc = rt.alloc();
    let end = unwritten(1, 41, 1);
    let mut list = new_list(&rt, alloc, &[unwritten(0, 40, 2)]);
    expect_convert(&rt, alloc, &mut list, 1, 5, 2, Ok(end));
    expect_list(&rt, &list, &[unwritten(0, 40, 1), written(1, 41, 1)]);
}

#[test]
fn what_is_made_written_is_joined(rt: HostRuntime) {
    let alloc = rt.alloc();
    let between = unwritten(2, 42, 3);
    let parts = [written(0, 40, 2), between, written(5, 45, 1)];
    let mut list = new_list(&rt, alloc, &parts);
    expect_convert(&rt, alloc, &mut list, 2, 3, 1, Ok(between));
    expect_list(&rt, &list, &[written(0, 40, 6)]);
}

#[test]
fn a_written_piece_changes_nothing(rt: HostRuntime) {
    let alloc = rt.alloc();
    let whole = written(0, 40, 6);
    let mut list = new_list(&rt, alloc, &[whole]);
    expect_convert(&rt, alloc, &mut list, 2, 2, 1, Ok(written(2, 42, 2)));
    expect_list(&rt, &list, &[whole]);
}

#[test]
fn the_greatest_offset_is_made_written(rt: HostRuntime) {
    let alloc = rt.alloc();
    let first = 18_014_398_509_481_982;
    let last = 18_014_398_509_481_983;
    let end = unwritten(last, 41, 1);
    let mut list = new_list(&rt, alloc, &[unwritten(first, 40, 2)]);
    expect_convert(&rt, alloc, &mut list, last, 1, 2, Ok(end));
    expect_list(&rt, &list, &[unwritten(first, 40, 1), written(last, 41, 1)]);
}

#[test]
fn what_is_made_written_stays_in_its_group(rt: HostRuntime) {
    let alloc = rt.alloc();
    let lower = written(0, 4_194_299, 5);
    let upper = unwritten(5, 4_194_304, 3);
    let mut list = new_list(&rt, alloc, &[lower, upper]);
    expect_convert(&rt, alloc, &mut list, 5, 3, 2, Ok(upper));
    expect_list(&rt, &list, &[lower, written(5, 4_194_304, 3)]);
}
