// Lists that are written into an inode.
ghost use Rattle.fork_change.specs.Lists.{AllFit};

use super::same::{same, same_in_row};
use crate::maps::{expect_list, two_groups, unwritten, written};
use dinode_core::{Core3, Fork, Format, Mapping, fork_format, inline_fork};
use fork_change::{ForkChange, put_list};
use std::alloc::Global;
use std::process::Abort;

// A file in extents format whose data fork has so many units of 8 bytes, or all 336 bytes for 0.
fn file(forkoff: u8, flags2: u64) -> Core3 {
    Core3 {
        mode: 0x81a4,
        format: 2,
        uid: 7,
        nlink: 1,
        big_nextents: 0,
        nblocks: 0,
        nextents: 0,
        anextents: 0,
        forkoff,
        aformat: 2,
        flags: 0,
        next_unlinked: u32::MAX,
        changecount: 0,
        lsn: 0,
        flags2,
        ino: 195,
        uuid: [0; 16],
        literal: [0; 336],
    }
}

// Writes the list into the inode.
fn put(core: &mut Core3, list: &[Mapping]) -> Result<(), ForkChange>
    requires { AllFit list.now }
{
    if core.forkoff >= 42 || fork_format(core, Fork::Data) != Some(Format::Extents) {
        return Err(ForkChange::Hole);
    }
    put_list(core, list)
}

// A file without attributes, with this list written into it.
fn file_with(rt: &impl Abort, flags2: u64, list: &[Mapping]) -> Core3
    requires { AllFit list.now }
{
    let mut core = file(0, flags2);
    same(rt, put(&mut core, list), Ok(()));
    core
}

fn expect_bytes(rt: &impl Abort, bytes: &[u8], rows: &[(usize, u8)]) {
    for row in rows {
        same_in_row(rt, row.0, bytes.get(row.0).copied(), Some(row.1));
    }
}

#[test]
fn a_list_stands_packed_in_its_inode(rt: HostRuntime) {
    let core = file_with(&rt, 0, &[written(0, 40, 1), unwritten(1, 50, 2)]);
    same(&rt, core.nextents, 2);
    let rows = [
        (0, 0),
        (12, 0x05),
        (15, 0x01),
        (16, 0x80),
        (22, 0x02),
        (28, 0x06),
        (29, 0x40),
        (31, 0x02),
        (32, 0),
    ];
    expect_bytes(&rt, &core.literal, &rows);
}

fn expect_read(rt: &impl Abort, alloc: Global, core: &Core3, list: &[Mapping]) {
    match inline_fork(alloc, core, Fork::Data, &two_groups()) {
        Ok(read) => expect_list(rt, &read, list),
        Err(fault) => same(rt, Some(fault), None),
    }
}

#[test]
fn a_list_is_read_back(rt: HostRuntime) {
    let list = [written(0, 40, 1), unwritten(1, 50, 2)];
    let core = file_with(&rt, 16, &list);
    same(&rt, core.big_nextents, 2);
    expect_read(&rt, rt.alloc(), &core, &list);
}

#[test]
fn a_list_needs_room_in_its_fork(rt: HostRuntime) {
    let list = [written(0, 40, 1), unwritten(1, 50, 2)];
    let mut none = file(1, 0);
    same(&rt, put(&mut none, &list), Err(ForkChange::Full(2)));
    let mut one = file(3, 0);
    same(&rt, put(&mut one, &list), Err(ForkChange::Full(2)));
    same(&rt, one, file(3, 0));
    let mut two = file(4, 0);
    same(&rt, put(&mut two, &list), Ok(()));
    same(&rt, put(&mut two, &[]), Ok(()));
    same(&rt, two.nextents, 0);
}
