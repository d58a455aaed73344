ghost use Rattle.std.specs.Prelude.{◌≡◌, ◌+◌, ◌-◌, ◌*◌, ◌/◌, ◌≤◌, ◌++◌, is_some, length, true, Some, None, IfErr, IfOk, OnOk};
ghost use Rattle.blk_cache.specs.Cache.{AgreesTold};
ghost use Rattle.blk_device.specs.Causes.{HasCause};
ghost use Rattle.blk_device.specs.Contents.{Contents};
ghost use Rattle.blk_device.specs.Reading.{OnlyRead};
ghost use Rattle.blk_device.specs.declared.device.Region.TheVariants.{Image};
ghost use Rattle.geom.specs.Layout.{split_of};
ghost use Rattle.geom.specs.Places.{layout};
ghost use Rattle.dinode_core.specs.ForkTree.{entries, is_tree};
ghost use Rattle.dinode_core.specs.Inline.{form_fault, key_room, root_keys, root_level};
ghost use Rattle.dinode_core.specs.Shape.{size_of};
ghost use Rattle.fork_read.specs.Answers.{is_failed};
ghost use Rattle.fork_read.specs.Pieces.{AreInRange, CachesInode, IsAnswer, IsForkAnswer, IsSized, IsTreeAnswer};
ghost use Rattle.fork_read.specs.Told.{PaysInode, PaysPiece, SpendsInode, SpendsPiece};
ghost use Rattle.fork_read.specs.Walk.{pruned, tasks_of};

use crate::fault::{ForkPiece, ReadFault};
use crate::inode::load_core;
use crate::judge::{answer, piece_of};
use crate::seen::fresh_seen;
use crate::tasks::{Table, Task, push_entries};
use crate::walk::walk_piece;
use blk_cache::BlkCache;
use blk_device::Device;
use byte_fields::{Steps, get_u16};
use dinode_core::{Core3, Fork, fork_area, fork_size, inline_fork, is_in_btree};
use geom::Geometry;
use std::alloc::Global;
use std::collections::VecDeque;
use std::sync::ledger::Ledger;

/// How many keys a btree's root has room for.
pub fn root_room(core: &Core3, fork: Fork) -> usize
    requires { 8 ≤ size_of core.now fork }
    ensures { result ≡ key_room (size_of core.now fork) }
{
    (fork_size(core, fork) - 4) / 16
}

// The level of a btree's root in these bytes, whose subtrees are put in front of those that are left.
fn push_root(
    area: &[u8],
    room: usize,
    from: u64,
    tasks: &mut VecDeque<Task>,
) -> Result<u8, ReadFault>
    requires low { 1 ≤ root_level area.now }
    requires high { root_level area.now ≤ 9 }
    requires keys { root_keys area.now ≤ room }
    requires long { 4 + 16 * room ≤ length area.now }
    ensures pushed { OnOk result (tasks.new.items ≡ tasks_of (root_level area.now - 1) (pruned from (entries (root_keys area.now) 4 (4 + 8 * room) area.now)) ++ tasks.old.items) }
    ensures level { IfOk result (λ level. level ≡ root_level area.now) }
    ensures memory { IfErr result (λ error. error ≡ ReadFault.Memory) }
{
    let level = get_u16(area, 0) as u8;
    let table = Table {
        keys: 4,
        pointers: 4 + 8 * room,
        count: get_u16(area, 2) as usize,
    };
    push_entries(area, &table, level - 1, from, tasks)?;
    Ok(level)
}

// The piece of a fork in btree format.
fn tree_piece<D: Device, L: Ledger>(
    alloc: Global,
    dev: &mut D,
    geo: &Geometry,
    core: &Core3,
    fork: Fork,
    from: u64,
    steps: &mut Steps<L>,
) -> Result<ForkPiece, ReadFault>
    requires form { form_fault core.now fork ≡ None }
    requires tree { is_tree core.now fork ≡ true }
    requires room { geo.now.dblocks ≤ D.blocks dev.old Image }
    ensures exact { (c : Contents) → D.content dev.old ≡ Some c → IsTreeAnswer (layout geo.now) (c Image) core.now fork from result }
    ensures size { IfOk result (IsSized from) }
    ensures range { IfOk result (AreInRange (layout geo.now) fork) }
    ensures reading { OnlyRead D.Device dev.old dev.new steps.old steps.new }
    ensures cause { HasCause is_failed (D.faults dev.old) (D.faults dev.new) result }
    ensures few { steps.new.reads ≤ steps.old.reads + 128 }
    ensures spent { SpendsPiece (layout geo.now) (D.content dev.old) core.now fork from steps.old.reads steps.new.reads }
    ensures paid { PaysPiece (D.content dev.old) core.now fork from result steps.old.reads steps.new.reads }
{
    let mut tasks = VecDeque::new(alloc);
    let mut seen = fresh_seen(alloc);
    let area = fork_area(core, fork);
    let room = root_room(core, fork);
    let level = push_root(area, room, from, &mut tasks)?;
    let stop = walk_piece(dev, geo, core, from, &mut seen, &mut tasks, steps)?;
    answer(alloc, geo, fork, level, from, &seen, &stop)
}

/// The next mappings of a fork of this core, which was read before: what `fork_piece` answers of an
/// inode with such a core. Its blocks come from the device itself, at most 128: its own, and the way
/// down to them. (XFS Algorithms and Data Structures, "Data Fork" and "Long Format B+trees".)
pub fn piece_of_core<D: Device, L: Ledger>(
    alloc: Global,
    dev: &mut D,
    geo: &Geometry,
    core: &Core3,
    fork: Fork,
    from: u64,
    steps: &mut Steps<L>,
) -> Result<ForkPiece, ReadFault>
    requires { geo.now.dblocks ≤ D.blocks dev.old Image }
    ensures exact { (c : Contents) → D.content dev.old ≡ Some c → IsForkAnswer (layout geo.now) (c Image) core.now fork from result }
    ensures size { IfOk result (IsSized from) }
    ensures range { IfOk result (AreInRange (layout geo.now) fork) }
    ensures reading { OnlyRead D.Device dev.old dev.new steps.old steps.new }
    ensures cause { HasCause is_failed (D.faults dev.old) (D.faults dev.new) result }
    ensures few { steps.new.reads ≤ steps.old.reads + 128 }
    ensures spent { SpendsPiece (layout geo.now) (D.content dev.old) core.now fork from steps.old.reads steps.new.reads }
    ensures paid { PaysPiece (D.content dev.old) core.now fork from result steps.old.reads steps.new.reads }
{
    let mappings = inline_fork(alloc, core, fork, geo)?;
    if is_in_btree(core, fork) {
        return tree_piece(alloc, dev, geo, core, fork, from, steps);
    }
    piece_of(alloc, mappings.as_slice(), &[], from, None)
}

/// The mappings of a fork that begin at the offset `from` or behind it, at most 512, and the blocks of
/// its btree whose first mapping is one of them. `next` is where the first one begins that is left. The
/// first fault of what was met is refused, the core's before the fork's; the number of a btree's mappings
/// is left to the caller (XFS Algorithms and Data Structures, "Long Format B+trees").
pub fn fork_piece<D: Device, L: Ledger>(
    alloc: Global,
    dev: &mut D,
    cache: &mut BlkCache,
    geo: &Geometry,
    ino: u64,
    fork: Fork,
    from: u64,
    steps: &mut Steps<L>,
) -> Result<ForkPiece, ReadFault>
    requires place { is_some (split_of (layout geo.now) (ino / 8)) ≡ true }
    requires room { geo.now.dblocks ≤ D.blocks dev.old Image }
    requires agreed { AgreesTold cache.old (D.content dev.old) }
    ensures exact { (c : Contents) → D.content dev.old ≡ Some c → IsAnswer (layout geo.now) (c Image) ino fork from result }
    ensures size { IfOk result (IsSized from) }
    ensures range { IfOk result (AreInRange (layout geo.now) fork) }
    ensures reading { OnlyRead D.Device dev.old dev.new steps.old steps.new }
    ensures cause { HasCause is_failed (D.faults dev.old) (D.faults dev.new) result }
    ensures agrees { AgreesTold cache.new (D.content dev.new) }
    ensures cached { CachesInode (layout geo.now) ino cache.old cache.new }
    ensures few { steps.new.reads ≤ steps.old.reads + 129 }
    ensures spent { SpendsInode (layout geo.now) (D.content dev.old) ino fork from steps.old.reads steps.new.reads }
    ensures paid { PaysInode (layout geo.now) (D.content dev.old) ino fork from result steps.old.reads steps.new.reads }
{
    let core = load_core(dev, cache, geo, ino, steps)?;
    piece_of_core(alloc, dev, geo, &core, fork, from, steps)
}
