ghost use Rattle.std.specs.Prelude.{◌≡◌, ◌&&◌, nat_le, nat_lt};
ghost use Rattle.redo_area.specs.Table.{places, rises};

use super::same::same;
use blk_device::{Device, FuseDevice, MemDevice, Region, Unsynced};
use byte_fields::{Block, put_u32, put_u64};
use redo_area::{BatchFault, RedoFault, close_gate, install, open_gate, prepare, recover, waiting};
use std::alloc::{AllocError, Global};
use std::process::Abort;

const IMAGE: u64 = 200;

const REDO: u64 = 162;

fn filled(byte: u8) -> Block {
    Block {
        bytes: [byte; 4096],
    }
}

// So many blocks from block 20 on, none of them zeros.
fn batch_of(alloc: Global, count: u8) -> Result<Vec<(u64, Block)>, AllocError> {
    let mut batch = Vec::new(alloc);
    for i in 0..count {
        batch.push((u64::from(i) + 20, filled(i.saturating_add(1))))?;
    }
    Ok(batch)
}

fn new_batch(rt: &impl Abort, alloc: Global, count: u8) -> Vec<(u64, Block)> {
    batch_of(alloc, count).expect(rt, "memory is there")
}

// Whether a number comes at its place: not below the least, and below the size.
fn is_placed(number: u64, least: u64, size: u64) -> bool
    ensures { result ≡ (nat_le least number && nat_lt number size) }
{
    number >= least && number < size
}

fn does_rise(batch: &[(u64, Block)], size: u64) -> bool
    ensures { result ≡ rises 0 size (places batch.now) }
{
    let mut rest = batch;
    let mut least = 0;
    while let Some(((number, _), later)) = rest.split_first() {
        if !is_placed(*number, least, size) {
            return false;
        }
        least = *number + 1;
        rest = later;
    }
    true
}

// Whether a commit of the batch was done.
fn commit<D: Device>(dev: &mut D, batch: &[(u64, Block)]) -> bool {
    if dev.size(Region::Redo) < REDO || batch.is_empty() {
        return false;
    }
    if !does_rise(batch, dev.size(Region::Image)) {
        return false;
    }
    prepare(dev, batch).is_ok()
        && open_gate(dev).is_ok()
        && install(dev, batch).is_ok()
        && close_gate(dev).is_ok()
}

fn holds(dev: &mut MemDevice, region: Region, at: u64, wanted: &Block) -> bool {
    let mut block = filled(255);
    at < dev.size(region) && dev.read(region, at, &mut block).is_ok() && block == *wanted
}

// Whether the image has these blocks, or zeros in their places.
fn has_batch(dev: &mut MemDevice, batch: &[(u64, Block)], is_new: bool) -> bool {
    for (at, block) in batch {
        let wanted = if is_new { *block } else { Block::zeroed() };
        if !holds(dev, Region::Image, *at, &wanted) {
            return false;
        }
    }
    true
}

// Whether a recovery leaves all of the batch, or none of it where that may be, and nothing waits.
fn is_recovered(dev: &mut MemDevice, batch: &[(u64, Block)], is_done: bool) -> bool {
    if recover(dev).is_err() || waiting(dev) != Ok(false) {
        return false;
    }
    has_batch(dev, batch, true) || (!is_done && has_batch(dev, batch, false))
}

fn new_device(alloc: Global) -> MemDevice {
    MemDevice::new(alloc, IMAGE, REDO, Vec::new(alloc))
}

// Whether a crash that leaves this of a stopped commit leaves all or nothing.
fn is_whole(
    alloc: Global,
    stopped: &MemDevice,
    batch: &[(u64, Block)],
    is_done: bool,
    choices: &[Unsynced],
) -> Result<bool, AllocError> {
    let mut left = stopped.crash_by(alloc, choices)?;
    Ok(is_recovered(&mut left, batch, is_done))
}

// The same of a commit that stops after so many calls, with unsynced writes absent, present, torn
// and mixed.
fn does_stop_whole(alloc: Global, batch: &[(u64, Block)], calls: u64) -> Result<bool, AllocError> {
    let mut fuse = FuseDevice::new(new_device(alloc), calls);
    let is_done = commit(&mut fuse, batch);
    let stopped = fuse.into_inner();
    let mixed = [Unsynced::Present, Unsynced::Torn, Unsynced::Absent];
    Ok(
        !stopped.has_lost_doubt()
            && is_whole(alloc, &stopped, batch, is_done, &[Unsynced::Absent])?
            && is_whole(alloc, &stopped, batch, is_done, &[Unsynced::Present])?
            && is_whole(alloc, &stopped, batch, is_done, &[Unsynced::Torn])?
            && is_whole(alloc, &stopped, batch, is_done, &mixed)?,
    )
}

// The same of each stop from one number of calls to another.
fn do_stop_whole(rt: &impl Abort, alloc: Global, count: u8, from: u64, to: u64) -> bool {
    let batch = new_batch(rt, alloc, count);
    for calls in from..to {
        if !does_stop_whole(alloc, &batch, calls).expect(rt, "memory is there") {
            return false;
        }
    }
    true
}

#[test]
fn a_stopped_commit_leaves_all_of_it_or_nothing(rt: HostRuntime) {
    let alloc = rt.alloc();
    assert!(rt; do_stop_whole(&rt, alloc, 1, 0, 10));
    assert!(rt; do_stop_whole(&rt, alloc, 2, 0, 12));
    assert!(rt; do_stop_whole(&rt, alloc, 160, 0, 328));
}

// A commit makes one call for the table and each copy, block and gate, and four syncs.
fn does_commit_in(rt: &impl Abort, alloc: Global, count: u8, calls: u64) -> bool {
    let mut fuse = FuseDevice::new(new_device(alloc), calls);
    commit(&mut fuse, &new_batch(rt, alloc, count))
}

#[test]
fn a_commit_makes_two_calls_a_block_and_seven(rt: HostRuntime) {
    let alloc = rt.alloc();
    assert!(rt; does_commit_in(&rt, alloc, 1, 9) && !does_commit_in(&rt, alloc, 1, 8));
    assert!(rt; does_commit_in(&rt, alloc, 160, 327) && !does_commit_in(&rt, alloc, 160, 326));
}

// A device on which the batch waits, and none of it is written yet.
fn waiting_device(alloc: Global, batch: &[(u64, Block)]) -> Result<MemDevice, AllocError> {
    let mut fuse = FuseDevice::new(new_device(alloc), batch.len() as u64 + 4);
    commit(&mut fuse, batch);
    fuse.into_inner().crash_by(alloc, &[])
}

// Whether a recovery that stops after so many calls, and a crash then, leave the batch to the next.
fn is_kept(
    alloc: Global,
    batch: &[(u64, Block)],
    calls: u64,
    choices: &[Unsynced],
) -> Result<bool, AllocError> {
    let mut fuse = FuseDevice::new(waiting_device(alloc, batch)?, calls);
    let is_stopped = recover(&mut fuse) == Err(RedoFault::Failed);
    let mut left = fuse.into_inner().crash_by(alloc, choices)?;
    Ok(is_stopped && is_recovered(&mut left, batch, true))
}

// Whether each recovery that stops before its end leaves the batch to the next, with unsynced writes
// absent, present and torn.
fn is_always_kept(alloc: Global, batch: &[(u64, Block)]) -> Result<bool, AllocError> {
    for calls in 0u64..11 {
        if !is_kept(alloc, batch, calls, &[Unsynced::Absent])?
            || !is_kept(alloc, batch, calls, &[Unsynced::Present])?
            || !is_kept(alloc, batch, calls, &[Unsynced::Torn])?
        {
            return Ok(false);
        }
    }
    Ok(true)
}

#[test]
fn a_stopped_recovery_keeps_the_batch(rt: HostRuntime) {
    let alloc = rt.alloc();
    let batch = new_batch(&rt, alloc, 2);
    assert!(rt; is_always_kept(alloc, &batch).expect(&rt, "memory is there"));
    let device = waiting_device(alloc, &batch).expect(&rt, "memory is there");
    let mut whole = FuseDevice::new(device, 11);
    same(&rt, recover(&mut whole), Ok(true));
}

fn write_redo(dev: &mut MemDevice, at: u64, block: &Block) -> bool {
    at < dev.size(Region::Redo) && dev.write(Region::Redo, at, block).is_ok()
}

// What a recovery answers to this gate, and this table of two numbers.
fn answer_to(
    alloc: Global,
    gate: u8,
    size: u64,
    count: u32,
    numbers: [u64; 2],
) -> Result<bool, RedoFault> {
    let mut dev = new_device(alloc);
    let mut table = Block::zeroed();
    put_u64(&mut table.bytes, 0, size);
    put_u32(&mut table.bytes, 8, count);
    put_u64(&mut table.bytes, 16, numbers[0]);
    put_u64(&mut table.bytes, 24, numbers[1]);
    write_redo(&mut dev, 0, &filled(gate));
    write_redo(&mut dev, 1, &table);
    recover(&mut dev)
}

#[test]
fn a_table_is_judged_behind_an_open_gate(rt: HostRuntime) {
    let alloc = rt.alloc();
    same(&rt, answer_to(alloc, 7, 1, 0, [9, 9]), Ok(false));
    same(
        &rt,
        answer_to(alloc, 1, 1, 0, [9, 9]),
        Err(RedoFault::Count),
    );
    same(
        &rt,
        answer_to(alloc, 1, 1, 161, [9, 9]),
        Err(RedoFault::Count),
    );
    same(
        &rt,
        answer_to(alloc, 1, 199, 2, [9, 9]),
        Err(RedoFault::Size),
    );
    same(
        &rt,
        answer_to(alloc, 1, 200, 2, [9, 9]),
        Err(RedoFault::Place),
    );
    same(
        &rt,
        answer_to(alloc, 1, 200, 2, [9, 8]),
        Err(RedoFault::Place),
    );
    same(
        &rt,
        answer_to(alloc, 1, 200, 2, [9, 200]),
        Err(RedoFault::Place),
    );
    same(&rt, answer_to(alloc, 1, 200, 2, [9, 199]), Ok(true));
    same(&rt, answer_to(alloc, 1, 200, 1, [9, 9]), Ok(true));
}

#[test]
fn a_redo_region_of_161_blocks_is_short(rt: HostRuntime) {
    let alloc = rt.alloc();
    let mut dev = MemDevice::new(alloc, IMAGE, 161, Vec::new(alloc));
    same(&rt, recover(&mut dev), Err(RedoFault::Short));
    same(&rt, waiting(&mut dev), Err(RedoFault::Short));
}

#[test]
fn a_batch_of_161_blocks_is_refused(rt: HostRuntime) {
    let alloc = rt.alloc();
    let batch = new_batch(&rt, alloc, 161);
    let mut dev = new_device(alloc);
    if batch.is_empty()
        || dev.size(Region::Redo) < 162
        || !does_rise(&batch, dev.size(Region::Image))
    {
        panic!(rt; "no batch");
    }
    same(
        &rt,
        prepare(&mut dev, &batch),
        Err(BatchFault::TooMany(161)),
    );
    assert!(rt; holds(&mut dev, Region::Redo, 1, &Block::zeroed()));
    assert!(rt; holds(&mut dev, Region::Redo, 2, &Block::zeroed()));
}

// What stands in the redo region after a batch of two blocks was prepared.
#[test]
fn table_and_copies_stand_behind_the_gate(rt: HostRuntime) {
    let alloc = rt.alloc();
    let batch = new_batch(&rt, alloc, 2);
    let mut fuse = FuseDevice::new(new_device(alloc), 4);
    commit(&mut fuse, &batch);
    let mut dev = fuse.into_inner();
    let mut table = Block::zeroed();
    table.bytes[7] = 200;
    table.bytes[11] = 2;
    table.bytes[23] = 20;
    table.bytes[31] = 21;
    assert!(rt; holds(&mut dev, Region::Redo, 1, &table));
    assert!(rt; holds(&mut dev, Region::Redo, 2, &filled(1)));
    assert!(rt; holds(&mut dev, Region::Redo, 3, &filled(2)));
    same(&rt, waiting(&mut dev), Ok(false));
}
