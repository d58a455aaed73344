ghost use Rattle.std.specs.Prelude.{◌≡◌, ◌+◌, ◌*◌, ◌-◌, ◌<◌, ◌≤◌, ◌∷◌, ◌&&◌, ◌||◌, ℕ, nat_le, nat_lt, length, true, false, Some, None, Ok, Err, IfOk, IfErr, IfSome, OnOk};
ghost use Rattle.blk_device.specs.Causes.{HasCause};
ghost use Rattle.blk_device.specs.Contents.{Contents};
ghost use Rattle.blk_device.specs.Reading.{OnlyRead};
ghost use Rattle.blk_device.specs.declared.device.Region.TheVariants.{Image};
ghost use Rattle.geom.specs.Places.{layout};
ghost use Rattle.dinode_core.specs.ForkTree.{numrecs};
ghost use Rattle.fork_read.specs.Told.{ComesOn, FindsBlock, GoesOn, Pays, ReadsFirst, SeeksOn, Spends, StepsOn, StopsWalk};
ghost use Rattle.std.specs.List.{slice_get, list_all};
ghost use Rattle.fork_read.specs.Answers.{AllLow, end_before, first_level, given_of, IfRead, MayLeave, is_failed, IsLow, IsOutside, last_clears, may_stop, stuck_at};

use crate::block::is_sound_at;
use crate::fault::ReadFault;
use crate::seen::{Seen, note_block, skipped_at, take_leaf};
use crate::tasks::{Table, Task, push_entries};
use blk_device::{Device, Region};
use byte_fields::{Block, Steps, get_u16};
use dinode_core::{Core3, Mapping};
use geom::Geometry;
use std::collections::VecDeque;
use std::sync::ledger::Ledger;

// The most blocks of a btree that are read until a piece ends.
const MOST_BLOCKS: usize = 100;

// With so many blocks a piece ends at the next leaf's end.
const MANY_BLOCKS: usize = 90;

// The most blocks that are read behind a place where no piece can begin.
const MOST_BEHIND: usize = 28;

// With more mappings of its own a piece ends, since with one leaf more it could have more than 512.
const ENOUGH: usize = 261;

/// Where a walk ended: at a bad block, at its end, before a subtree with which the next piece begins,
/// before one where no piece can begin, or at its end behind such a one.
#[derive(Clone, Copy, Drop)]
pub enum Stop {
    Bad,
    Whole,
    Left(Task),
    Long(Task),
    Fallen,
}

// Reads a block of the image from the device itself.
fn load<D: Device, L: Ledger>(
    dev: &mut D,
    at: u64,
    steps: &mut Steps<L>,
) -> Result<Block, ReadFault>
    requires { at < D.blocks dev.old Image }
    ensures told { IfOk result (λ block. (c : Contents) → D.content dev.old ≡ Some c → block.bytes ≡ c Image at) }
    ensures failed { IfErr result (λ fault. fault ≡ ReadFault.Failed) }
    ensures reading { OnlyRead D.Device dev.old dev.new steps.old steps.new }
    ensures cause { HasCause is_failed (D.faults dev.old) (D.faults dev.new) result }
    ensures one { steps.new.reads ≡ steps.old.reads + 1 }
{
    let mut block = Block::zeroed();
    steps.block_read();
    dev.read(Region::Image, at, &mut block)?;
    Ok(block)
}

/// Reads the block of a subtree and tests it in its place; none where it isn't sound.
pub fn open_task<D: Device, L: Ledger>(
    dev: &mut D,
    geo: &Geometry,
    core: &Core3,
    from: u64,
    task: &Task,
    seen: &Seen,
    steps: &mut Steps<L>,
) -> Result<Option<Block>, ReadFault>
    requires room { geo.now.dblocks ≤ D.blocks dev.old Image }
    requires low { task.now.level < 9 }
    ensures found { FindsBlock (layout geo.now) (D.content dev.old) core.now from task.now seen.now result }
    ensures most { IfOk result (λ found. IfSome found (λ block. numrecs block.bytes ≤ 251)) }
    ensures some { IfOk result (λ found. IfSome found (λ block. 1 ≤ numrecs block.bytes)) }
    ensures outside { IfErr result IsOutside }
    ensures reading { OnlyRead D.Device dev.old dev.new steps.old steps.new }
    ensures cause { HasCause is_failed (D.faults dev.old) (D.faults dev.new) result }
    ensures few { steps.new.reads ≤ steps.old.reads + 1 }
{
    let Some(place) = geo.split_fs_block(task.block) else {
        return Ok(None);
    };
    let at = geo.device_block(place.0, place.1);
    let block = load(dev, at, steps)?;
    if !is_sound_at(&block, geo, core, seen, task, from, place) {
        return Ok(None);
    }
    Ok(Some(block))
}

// Reads a subtree's block: a leaf's mappings are taken in, a node's subtrees are put in front of those
// that are left. Whether the block is sound is answered.
fn read_task<D: Device, L: Ledger>(
    dev: &mut D,
    geo: &Geometry,
    core: &Core3,
    from: u64,
    task: &Task,
    seen: &mut Seen,
    tasks: &mut VecDeque<Task>,
    steps: &mut Steps<L>,
) -> Result<bool, ReadFault>
    requires room { geo.now.dblocks ≤ D.blocks dev.old Image }
    requires low { task.now.level < 9 }
    requires all_low { AllLow tasks.old.items }
    ensures read { ReadsFirst (layout geo.now) (D.content dev.old) core.now from task.now tasks.old.items seen.old result tasks.new.items seen.new }
    ensures step { StepsOn (layout geo.now) (D.content dev.old) core.now from task.now tasks.old.items seen.old result tasks.new.items seen.new }
    ensures low { OnOk result (AllLow tasks.new.items) }
    ensures stays { OnOk result (0 < task.now.level → seen.new.mappings.items ≡ seen.old.mappings.items) }
    ensures falls { IfOk result (λ read. IfRead read (0 < task.now.level → first_level tasks.new.items < task.now.level)) }
    ensures outside { IfErr result IsOutside }
    ensures grows { OnOk result ((o : ℕ) → given_of o seen.new.mappings.items ≤ given_of o seen.old.mappings.items + 251) }
    ensures reading { OnlyRead D.Device dev.old dev.new steps.old steps.new }
    ensures cause { HasCause is_failed (D.faults dev.old) (D.faults dev.new) result }
    ensures few { steps.new.reads ≤ steps.old.reads + 1 }
{
    let found = open_task(dev, geo, core, from, task, seen, steps)?;
    let Some(block) = found else {
        return Ok(false);
    };
    let skipped = skipped_at(seen, task, from);
    note_block(seen, task, from, &block)?;
    if task.level == 0 {
        take_leaf(seen, &block)?;
        return Ok(true);
    }
    let table = Table {
        keys: 72,
        pointers: 72 + 8 * 251,
        count: get_u16(&block.bytes, 6) as usize,
    };
    push_entries(&block.bytes, &table, task.level - 1, skipped, tasks)?;
    Ok(true)
}

// Whether no subtree begins before this offset.
fn are_behind(tasks: &VecDeque<Task>, key: u64) -> bool
    ensures { result ≡ list_all (λ t. nat_le key t.key) tasks.now.items }
{
    tasks.iter().all(|t| key <= t.key)
}

// Whether the last mapping is one of this piece, and ends before this offset.
fn does_last_clear(mappings: &[Mapping], from: u64, key: u64) -> bool
    ensures { result ≡ last_clears from key (slice_get mappings.now (length mappings.now - 1)) }
{
    match mappings.last() {
        None => false,
        Some(m) => from <= m.offset && m.offset < key && u64::from(m.count) <= key - m.offset,
    }
}

// Whether a piece may end before this subtree.
#[tactic(auto, unfolding(crate::specs::Answers::may_stop))]
fn may_stop_at(seen: &Seen, tasks: &VecDeque<Task>, task: &Task, from: u64) -> bool
    ensures { result ≡ may_stop from seen.now.mappings.items task.now tasks.now.items }
{
    does_last_clear(seen.mappings.as_slice(), from, task.key) && are_behind(tasks, task.key)
}

// Ends a piece before this subtree, where it may end there.
fn end_at(seen: &Seen, tasks: &VecDeque<Task>, task: Task, from: u64) -> Stop
    ensures { result ≡ end_before from seen.now.mappings.items task tasks.now.items }
{
    // The next subtree's key is enough: its block begins there, or it is bad and this mapping was the last.
    if may_stop_at(seen, tasks, &task, from) {
        Stop::Left(task)
    } else {
        Stop::Long(task)
    }
}

// How many mappings begin at the offset or behind it.
fn given_in(mappings: &[Mapping], from: u64) -> usize
    ensures { result ≡ given_of from mappings.now }
{
    mappings
        .iter()
        .copied()
        .filter(|m| from <= m.offset)
        .count()
}

// Whether a piece ends at a leaf's end, after so many blocks and with these mappings.
fn has_enough(seen: &Seen, from: u64, is_border: bool, blocks: usize) -> bool
    ensures { result ≡ (is_border && (nat_le 90 blocks || nat_lt 261 (given_of from seen.now.mappings.items))) }
{
    is_border && (MANY_BLOCKS <= blocks || given_in(seen.mappings.as_slice(), from) > ENOUGH)
}

// Walks on until a piece has enough, and ends there where it may.
fn walk_on<D: Device, L: Ledger>(
    dev: &mut D,
    geo: &Geometry,
    core: &Core3,
    from: u64,
    seen: &mut Seen,
    tasks: &mut VecDeque<Task>,
    steps: &mut Steps<L>,
) -> Result<Stop, ReadFault>
    requires room { geo.now.dblocks ≤ D.blocks dev.old Image }
    requires low { AllLow tasks.old.items }
    requires fresh { given_of from seen.old.mappings.items ≤ 261 }
    ensures stopped { StopsWalk (layout geo.now) (D.content dev.old) core.now from tasks.old.items seen.old result tasks.new.items seen.new }
    ensures reached { GoesOn (layout geo.now) (D.content dev.old) core.now from tasks.old.items seen.old result tasks.new.items seen.new }
    ensures spent { Spends (layout geo.now) (D.content dev.old) core.now from tasks.old.items seen.old steps.old.reads steps.new.reads }
    ensures paid { Pays (layout geo.now) (D.content dev.old) core.now from tasks.old.items seen.old steps.old.reads steps.new.reads result tasks.new.items seen.new }
    ensures leaves { IfOk result (MayLeave from seen.new.mappings.items tasks.new.items) }
    ensures low { IfOk result (IsLow tasks.new.items) }
    ensures outside { IfErr result IsOutside }
    ensures reading { OnlyRead D.Device dev.old dev.new steps.old steps.new }
    ensures cause { HasCause is_failed (D.faults dev.old) (D.faults dev.new) result }
    ensures few { steps.new.reads ≤ steps.old.reads + 100 }
{
    let mut is_border = false;
    for i in 0..MOST_BLOCKS {
        let Some(task) = tasks.pop_front() else {
            return Ok(Stop::Whole);
        };
        if has_enough(seen, from, is_border, i) {
            return Ok(end_at(seen, tasks, task, from));
        }
        is_border = task.level == 0;
        let read = read_task(dev, geo, core, from, &task, seen, tasks, steps)?;
        if !read {
            return Ok(Stop::Bad);
        }
    }
    // No way down has more than nine blocks, so that a leaf's end came before.
    unreachable!()
}

// Walks on from a subtree where no piece can begin, to find the fault that lies behind.
fn walk_behind<D: Device, L: Ledger>(
    dev: &mut D,
    geo: &Geometry,
    core: &Core3,
    from: u64,
    first: Task,
    seen: &mut Seen,
    tasks: &mut VecDeque<Task>,
    steps: &mut Steps<L>,
) -> Result<Stop, ReadFault>
    requires room { geo.now.dblocks ≤ D.blocks dev.old Image }
    requires first { first.level < 9 }
    requires low { AllLow tasks.old.items }
    ensures stopped { StopsWalk (layout geo.now) (D.content dev.old) core.now from (first ∷ tasks.old.items) seen.old result tasks.new.items seen.new }
    ensures reached { SeeksOn (layout geo.now) (D.content dev.old) core.now from (first ∷ tasks.old.items) seen.old result tasks.new.items seen.new }
    ensures spent { Spends (layout geo.now) (D.content dev.old) core.now from (first ∷ tasks.old.items) seen.old steps.old.reads steps.new.reads }
    ensures paid { Pays (layout geo.now) (D.content dev.old) core.now from (first ∷ tasks.old.items) seen.old steps.old.reads steps.new.reads result tasks.new.items seen.new }
    ensures leaves { IfOk result (MayLeave from seen.new.mappings.items tasks.new.items) }
    ensures outside { IfErr result IsOutside }
    ensures reading { OnlyRead D.Device dev.old dev.new steps.old steps.new }
    ensures cause { HasCause is_failed (D.faults dev.old) (D.faults dev.new) result }
    ensures few { steps.new.reads ≤ steps.old.reads + 28 }
{
    let mut task = first;
    // No piece can begin here, so the fork has a fault; the first may lie behind any number of blocks.
    for i in 0..MOST_BEHIND {
        let _read = i;
        let read = read_task(dev, geo, core, from, &task, seen, tasks, steps)?;
        if !read {
            return Ok(Stop::Bad);
        }
        match tasks.pop_front() {
            None => return Ok(Stop::Fallen),
            Some(next) => task = next,
        }
    }
    Ok(Stop::Long(task))
}

// The subtree where no piece can begin.
fn stuck_at(stop: &Stop) -> Option<Task>
    ensures { result ≡ stuck_at stop.now }
{
    match stop {
        Stop::Long(task) => Some(*task),
        Stop::Bad | Stop::Whole | Stop::Left(_) | Stop::Fallen => None,
    }
}

/// Walks on, until a piece may end, or the fork's fault is found.
pub fn walk_piece<D: Device, L: Ledger>(
    dev: &mut D,
    geo: &Geometry,
    core: &Core3,
    from: u64,
    seen: &mut Seen,
    tasks: &mut VecDeque<Task>,
    steps: &mut Steps<L>,
) -> Result<Stop, ReadFault>
    requires room { geo.now.dblocks ≤ D.blocks dev.old Image }
    requires low { AllLow tasks.old.items }
    requires fresh { given_of from seen.old.mappings.items ≤ 261 }
    ensures stopped { StopsWalk (layout geo.now) (D.content dev.old) core.now from tasks.old.items seen.old result tasks.new.items seen.new }
    ensures reached { ComesOn (layout geo.now) (D.content dev.old) core.now from tasks.old.items seen.old result tasks.new.items seen.new }
    ensures spent { Spends (layout geo.now) (D.content dev.old) core.now from tasks.old.items seen.old steps.old.reads steps.new.reads }
    ensures paid { Pays (layout geo.now) (D.content dev.old) core.now from tasks.old.items seen.old steps.old.reads steps.new.reads result tasks.new.items seen.new }
    ensures leaves { IfOk result (MayLeave from seen.new.mappings.items tasks.new.items) }
    ensures outside { IfErr result IsOutside }
    ensures reading { OnlyRead D.Device dev.old dev.new steps.old steps.new }
    ensures cause { HasCause is_failed (D.faults dev.old) (D.faults dev.new) result }
    ensures few { steps.new.reads ≤ steps.old.reads + 128 }
{
    let stop = walk_on(dev, geo, core, from, seen, tasks, steps)?;
    match stuck_at(&stop) {
        None => Ok(stop),
        Some(task) => walk_behind(dev, geo, core, from, task, seen, tasks, steps),
    }
}
