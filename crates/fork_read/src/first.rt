ghost use Rattle.std.specs.Prelude.{◌≡◌, ◌+◌, ◌-◌, ◌*◌, ◌/◌, ◌<◌, ◌≤◌, is_some, length, true, Some, None, IfOk, IfErr, OnOk};
ghost use Rattle.blk_cache.specs.Cache.{AgreesTold};
ghost use Rattle.blk_device.specs.Causes.{HasCause};
ghost use Rattle.blk_device.specs.Contents.{Contents};
ghost use Rattle.blk_device.specs.Reading.{OnlyRead};
ghost use Rattle.blk_device.specs.declared.device.Region.TheVariants.{Image};
ghost use Rattle.byte_fields.specs.Fields.{field};
ghost use Rattle.geom.specs.Layout.{split_of};
ghost use Rattle.geom.specs.Places.{layout};
ghost use Rattle.dinode_core.specs.ForkTree.{is_tree, numrecs};
ghost use Rattle.dinode_core.specs.Inline.{form_fault, root_keys, root_level};
ghost use Rattle.fork_read.specs.Answers.{IsOutside, is_failed};
ghost use Rattle.fork_read.specs.First.{IsFirst, IsFirstOf, IsShown, entries_in, most_met, most_of, way_of};
ghost use Rattle.fork_read.specs.Pieces.{CachesInode};
ghost use Rattle.fork_read.specs.Told.{CountsBelow, WalksBelow};
ghost use Rattle.fork_read.specs.Walk.{entry_of, taken_in, trail_of};

use crate::fault::ReadFault;
use crate::inode::load_core;
use crate::judge::judge;
use crate::piece::root_room;
use crate::seen::{Seen, fresh_seen, note_block, take_leaf};
use crate::tasks::{Table, Task};
use crate::walk::{Stop, open_task};
use blk_cache::BlkCache;
use blk_device::Device;
use byte_fields::{Block, Steps, get_u16, get_u64};
use dinode_core::{Core3, Fork, ForkError, ForkFault, fork_area, inline_fork, is_in_btree};
use geom::Geometry;
use std::alloc::Global;
use std::sync::ledger::Ledger;

// The subtree of this number of a node or of a root.
fn entry_at(bytes: &[u8], table: &Table, level: u8, i: usize) -> Task
    requires inside { i < table.now.count }
    requires keys { table.now.keys + 8 * table.now.count ≤ length bytes.now }
    requires small { table.now.pointers + 8 * table.now.count ≤ length bytes.now }
    ensures { result ≡ record { level = level; key = field 8 bytes.now (table.now.keys + 8 * i); block = field 8 bytes.now (table.now.pointers + 8 * i) } }
{
    Task {
        level,
        key: get_u64(bytes, table.keys + 8 * i),
        block: get_u64(bytes, table.pointers + 8 * i),
    }
}

// Where the keys and the pointers of a node's block stand.
fn node_table(block: &Block) -> Table
    ensures { result ≡ record { keys = 72; pointers = 72 + 8 * 251; count = numrecs block.now.bytes } }
{
    Table {
        keys: 72,
        pointers: 72 + 8 * 251,
        count: get_u16(&block.bytes, 6) as usize,
    }
}

// Where those of a root stand, which has room for so many keys.
fn root_table(area: &[u8], room: usize) -> Table
    requires long { 4 + 16 * room ≤ length area.now }
    ensures { result ≡ record { keys = 4; pointers = 4 + 8 * room; count = root_keys area.now } }
{
    Table {
        keys: 4,
        pointers: 4 + 8 * room,
        count: get_u16(area, 2) as usize,
    }
}

// The level of a root.
fn level_in(area: &[u8]) -> u8
    requires high { root_level area.now ≤ 9 }
    requires long { 2 ≤ length area.now }
    ensures { result ≡ root_level area.now }
{
    get_u16(area, 0) as u8
}

// The level of what lies directly below a root.
fn top_in(area: &[u8]) -> u8
    requires low { 1 ≤ root_level area.now }
    requires high { root_level area.now ≤ 9 }
    requires long { 2 ≤ length area.now }
    ensures { result ≡ root_level area.now - 1 }
{
    level_in(area) - 1
}

// Takes a sound block in, and the mappings of a leaf.
fn take_block(seen: &mut Seen, task: &Task, block: &Block) -> Result<(), ReadFault>
    requires low { task.now.level < 9 }
    requires most { numrecs block.now.bytes ≤ 251 }
    ensures taken { OnOk result (trail_of seen.new ≡ taken_in 0 task.now.level (entry_of task.now) block.now.bytes (trail_of seen.old)) }
    ensures memory { IfErr result (λ error. error ≡ ReadFault.Memory) }
{
    note_block(seen, task, 0, block)?;
    if task.level > 0 {
        return Ok(());
    }
    take_leaf(seen, block)?;
    Ok(())
}

// Walks these subtrees of a level to their end, one after the other, each block before what lies
// below it. Whether no block is bad is answered.
fn walk_entries<D: Device, L: Ledger>(
    dev: &mut D,
    geo: &Geometry,
    core: &Core3,
    bytes: &[u8],
    table: &Table,
    level: u8,
    seen: &mut Seen,
    steps: &mut Steps<L>,
) -> Result<bool, ReadFault>
    requires room { geo.now.dblocks ≤ D.blocks dev.old Image }
    requires low { level < 9 }
    requires keys { table.now.keys + 8 * table.now.count ≤ length bytes.now }
    requires small { table.now.pointers + 8 * table.now.count ≤ length bytes.now }
    ensures walked { WalksBelow (layout geo.now) (D.content dev.old) core.now level (entries_in table.now bytes.now) seen.old result seen.new }
    ensures each { CountsBelow (layout geo.now) (D.content dev.old) core.now level (entries_in table.now bytes.now) seen.old steps.old.reads steps.new.reads }
    ensures outside { IfErr result IsOutside }
    ensures reading { OnlyRead D.Device dev.old dev.new steps.old steps.new }
    ensures cause { HasCause is_failed (D.faults dev.old) (D.faults dev.new) result }
{
    for i in 0..table.count {
        let task = entry_at(bytes, table, level, i);
        let found = open_task(dev, geo, core, 0, &task, seen, steps)?;
        let Some(block) = found else {
            return Ok(false);
        };
        take_block(seen, &task, &block)?;
        if level == 0 {
            continue;
        }
        let below = node_table(&block);
        let whole = walk_entries(dev, geo, core, &block.bytes, &below, level - 1, seen, steps)?;
        if !whole {
            return Ok(false);
        }
    }
    Ok(true)
}

// How a walk of a whole btree ended.
fn stop_of(whole: bool) -> Stop
    ensures { result ≡ way_of whole }
{
    if whole { Stop::Whole } else { Stop::Bad }
}

// The first fault of a fork in btree format.
fn tree_fault<D: Device, L: Ledger>(
    alloc: Global,
    dev: &mut D,
    geo: &Geometry,
    core: &Core3,
    fork: Fork,
    steps: &mut Steps<L>,
) -> Result<Option<ForkFault>, ReadFault>
    requires form { form_fault core.now fork ≡ None }
    requires tree { is_tree core.now fork ≡ true }
    requires room { geo.now.dblocks ≤ D.blocks dev.old Image }
    ensures exact { (c : Contents) → D.content dev.old ≡ Some c → IsFirstOf (layout geo.now) (c Image) core.now fork result }
    ensures outside { IfErr result IsOutside }
    ensures each { (c : Contents) → D.content dev.old ≡ Some c → steps.new.reads ≤ steps.old.reads + most_met (layout geo.now) (c Image) core.now fork }
    ensures reading { OnlyRead D.Device dev.old dev.new steps.old steps.new }
    ensures cause { HasCause is_failed (D.faults dev.old) (D.faults dev.new) result }
{
    let mut seen = fresh_seen(alloc);
    let area = fork_area(core, fork);
    let room = root_room(core, fork);
    let table = root_table(area, room);
    let level = level_in(area);
    let top = top_in(area);
    let whole = walk_entries(dev, geo, core, area, &table, top, &mut seen, steps)?;
    Ok(judge(geo, fork, level, &seen, &stop_of(whole)))
}

// The fault that an inode itself shows of its fork.
fn shown(error: ForkError) -> Result<Option<ForkFault>, ReadFault>
    ensures shown { IsShown error result }
    ensures outside { IfErr result IsOutside }
{
    match error {
        ForkError::Fault(fault) => Ok(Some(fault)),
        ForkError::Memory => Err(ReadFault::Memory),
    }
}

/// The first fault of a fork of this core, the number of its mappings aside, or none where it is
/// good. Its btree is walked to the end, or to the first bad block: each of its blocks is read once,
/// from the device itself, however many there are, and its mappings are kept until then.
/// (XFS Algorithms and Data Structures, "Data Fork" and "Long Format B+trees".)
pub fn first_fault_of_core<D: Device, L: Ledger>(
    alloc: Global,
    dev: &mut D,
    geo: &Geometry,
    core: &Core3,
    fork: Fork,
    steps: &mut Steps<L>,
) -> Result<Option<ForkFault>, ReadFault>
    requires { geo.now.dblocks ≤ D.blocks dev.old Image }
    ensures exact { (c : Contents) → D.content dev.old ≡ Some c → IsFirstOf (layout geo.now) (c Image) core.now fork result }
    ensures outside { IfErr result IsOutside }
    ensures each { (c : Contents) → D.content dev.old ≡ Some c → steps.new.reads ≤ steps.old.reads + most_met (layout geo.now) (c Image) core.now fork }
    ensures reading { OnlyRead D.Device dev.old dev.new steps.old steps.new }
    ensures cause { HasCause is_failed (D.faults dev.old) (D.faults dev.new) result }
{
    match inline_fork(alloc, core, fork, geo) {
        Ok(_) => {}
        Err(error) => return shown(error),
    }
    if is_in_btree(core, fork) {
        return tree_fault(alloc, dev, geo, core, fork, steps);
    }
    Ok(None)
}

/// The first fault of a fork, the number of a btree's mappings aside, or none where it is good: what a
/// caller asks to whom `fork_piece` has refused a piece. The core's first fault is refused. Beside the
/// inode's block, through the cache, each block of the fork's btree is read once, without a bound.
/// (XFS Algorithms and Data Structures, "Data Fork" and "Long Format B+trees".)
pub fn first_fault<D: Device, L: Ledger>(
    alloc: Global,
    dev: &mut D,
    cache: &mut BlkCache,
    geo: &Geometry,
    ino: u64,
    fork: Fork,
    steps: &mut Steps<L>,
) -> Result<Option<ForkFault>, ReadFault>
    requires place { is_some (split_of (layout geo.now) (ino / 8)) ≡ true }
    requires room { geo.now.dblocks ≤ D.blocks dev.old Image }
    requires agreed { AgreesTold cache.old (D.content dev.old) }
    ensures exact { (c : Contents) → D.content dev.old ≡ Some c → IsFirst (layout geo.now) (c Image) ino fork result }
    ensures each { (c : Contents) → D.content dev.old ≡ Some c → steps.new.reads ≤ steps.old.reads + most_of (layout geo.now) (c Image) ino fork }
    ensures reading { OnlyRead D.Device dev.old dev.new steps.old steps.new }
    ensures cause { HasCause is_failed (D.faults dev.old) (D.faults dev.new) result }
    ensures agrees { AgreesTold cache.new (D.content dev.new) }
    ensures cached { CachesInode (layout geo.now) ino cache.old cache.new }
{
    let core = load_core(dev, cache, geo, ino, steps)?;
    first_fault_of_core(alloc, dev, geo, &core, fork, steps)
}
