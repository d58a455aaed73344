ghost use Rattle.std.specs.Prelude.{◌≡◌, ◌≤◌, ◌+◌, ◌<◌, ◌^◌, IfErr, IfOk, IfSome, OnErr, OnOk, false, length, true, None, Some};
ghost use Rattle.blk_cache.specs.Cache.{AgreesTold};
ghost use Rattle.blk_device.specs.Causes.{HasCause};
ghost use Rattle.blk_device.specs.Contents.{Contents};
ghost use Rattle.blk_device.specs.Reading.{OnlyRead};
ghost use Rattle.blk_device.specs.declared.device.Region.TheVariants.{Image};
ghost use Rattle.dinode_core.specs.ForkTree.{is_tree};
ghost use Rattle.dinode_core.specs.Shape.{count_of};
ghost use Rattle.fork_read.specs.Pieces.{AreInRange, IsSized};
ghost use Rattle.geom.specs.Places.{layout};
ghost use Rattle.inode_scan.specs.Cursor.{AllInoTrees};
ghost use Rattle.intent_drain.specs.Drains.{holds_of};
ghost use Rattle.rmap_recs.specs.Owners.{is_inode};
ghost use Rattle.shadow_rmap.specs.Kept.{KeepsTuples};
ghost use Rattle.core_scan.specs.Calls.{EndsAt, IsAt, IsHalted, IsRefused, Stays, is_stop_failed, is_stuck_failed};
ghost use Rattle.core_scan.specs.Moves.{Advances, Begins, Delivers, KeepsAll, Places, Scans};
ghost use Rattle.core_scan.specs.Equation.{core_at};

use crate::deliver::give_piece;
use crate::held::Held;
use blk_cache::BlkCache;
use blk_device::Device;
use byte_fields::Steps;
use dinode_core::{Core3, Fork, ForkFault, is_in_btree, mapping_count};
use fork_read::{ForkPiece, ReadFault, piece_of_core};
use fs_change::piece_gives;
use geom::Geometry;
use inode_scan::Cursor;
use intent_drain::Drain;
use rmap_recs::Memory;
use shadow_rmap::Shadow;
use std::alloc::Global;
use std::sync::ledger::Ledger;
use tree_blocks::{TreeAt, WalkFault};

/// A scan of all inodes for the shadow of one group: the greatest number that it has passed, the inode
/// that it holds, and who owns what of the group as far as it has come
/// (XFS Online Fsck Design, "Live Inode Scans").
#[derive(Drop)]
pub struct Scan {
    pub group: u32,
    pub cursor: u64,
    pub held: Option<Held>,
    pub shadow: Shadow,
}

/// Where a scan has come to: an inode that it holds, or the end of all
/// (XFS Online Fsck Design, "Live Inode Scans").
#[derive(Clone, Copy, Debug, PartialEq, Eq)]
pub enum Moved {
    At(u64),
    End,
}

/// Why a scan doesn't move: a chain holds the inode, or an inode btree can't be read.
#[derive(Clone, Copy, Debug, PartialEq, Eq)]
pub enum Stuck {
    Busy(u64),
    Walk(WalkFault),
}

impl From<WalkFault> for Stuck {
    ghost use Rattle.core_scan.specs.declared.scan.Stuck.TheVariants.{Walk};

    ghost from_gives = { λ fault e. e ≡ Walk fault };

    fn from(fault: WalkFault) -> Self {
        Stuck::Walk(fault)
    }
}

/// A scan that begins.
pub fn begin(alloc: Global, group: u32) -> Result<Scan, Memory>
    ensures begins { IfOk result (λ s. Begins group s) }
    ensures group { IfOk result (λ s. s.group ≡ group) }
    ensures own { IfOk result (λ s. s.shadow.group ≡ group) }
    ensures free { IfOk result (λ s. s.held ≡ None) }
{
    let shadow = Shadow::new(alloc, group)?;
    Ok(Scan {
        group,
        cursor: 0,
        held: None,
        shadow,
    })
}

// The hold of an inode of which nothing was given.
fn fresh_held(ino: u64) -> Held
    ensures { result ≡ record { ino = ino; uid = 0; fork = Fork.Data; next = 0; own = 0; given = 0 } }
{
    Held {
        ino,
        uid: 0,
        fork: Fork::Data,
        next: 0,
        own: 0,
        given: 0,
    }
}

// Moves on to the inode that was found, which the scan holds from now on unless a chain does.
fn place(scan: &mut Scan, found: Option<u64>, drain: &Drain) -> Result<Moved, Stuck>
    requires above { IfSome found (λ ino. scan.old.cursor < ino) }
    requires free { scan.old.held ≡ None }
    ensures moved { OnOk result (Places scan.old found drain.now scan.new) }
    ensures at { IfOk result (λ moved. IsAt moved scan.new) }
    ensures stays { Stays scan.old scan.new }
    ensures kept { OnErr result (scan.new ≡ scan.old) }
    ensures clear { IfErr result (λ stuck. is_stuck_failed stuck ≡ false) }
{
    let at = scan.cursor;
    prove!(at <= u64::MAX);
    let Some(ino) = found else {
        scan.cursor = u64::MAX;
        return Ok(Moved::End);
    };
    if drain.holder(ino).is_some() {
        return Err(Stuck::Busy(ino));
    }
    scan.cursor = ino - 1;
    scan.held = Some(fresh_held(ino));
    Ok(Moved::At(ino))
}

/// Moves the scan on to the next allocated inode, by the inode btrees of all groups, and holds it; an
/// inode that a chain holds isn't passed. While an inode is held, nothing moves.
/// (XFS Online Fsck Design, "Live Inode Scans".)
pub fn advance<D: Device, L: Ledger>(
    scan: &mut Scan,
    dev: &mut D,
    cache: &mut BlkCache,
    geo: &Geometry,
    trees: &[TreeAt],
    drain: &Drain,
    steps: &mut Steps<L>,
) -> Result<Moved, Stuck>
    requires trees { AllInoTrees geo.now.agcount trees.now }
    requires room { geo.now.dblocks ≤ D.blocks dev.old Image }
    requires agreed { AgreesTold cache.old (D.content dev.old) }
    ensures moved { Advances (layout geo.now) (D.content dev.old) trees.now drain.now scan.old result scan.new }
    ensures at { IfOk result (λ moved. IsAt moved scan.new) }
    ensures stays { Stays scan.old scan.new }
    ensures kept { OnErr result (scan.new ≡ scan.old) }
    ensures reading { OnlyRead D.Device dev.old dev.new steps.old steps.new }
    ensures cause { HasCause is_stuck_failed (D.faults dev.old) (D.faults dev.new) result }
    ensures agrees { AgreesTold cache.new (D.content dev.new) }
{
    if let Some(held) = &scan.held {
        return Ok(Moved::At(held.ino));
    }
    let cursor = Cursor { at: scan.cursor };
    let found = cursor.next_inode::<D, L>(dev, cache, geo, trees, steps)?;
    place(scan, found, drain)
}

// Whether the last piece of a btree shows another number of mappings than the core says.
fn is_number_wrong(core: &Core3, held: &Held, piece: &ForkPiece) -> bool
    requires few { held.now.own ≤ 2 ^ 100 }
    ensures tree { result ≡ true → is_tree core.now held.now.fork ≡ true }
    ensures right { result ≡ false → piece.now.next ≡ None → is_tree core.now held.now.fork ≡ true → held.now.own + length piece.now.mappings.items ≡ count_of core.now held.now.fork }
{
    piece.next.is_none()
        && is_in_btree(core, held.fork)
        && held.own + piece.mappings.len() as u128 != u128::from(mapping_count(core, held.fork))
}

// Delivers a piece of the inode that is held, and answers whether all was given.
fn deliver(scan: &mut Scan, geo: &Geometry, held: &Held, core: &Core3, piece: &ForkPiece) -> bool
    requires held { scan.old.held ≡ Some held.now }
    requires few { held.now.own ≤ 2 ^ 100 }
    requires fewer { held.now.given ≤ 2 ^ 100 }
    requires range { AreInRange (layout geo.now) held.now.fork piece.now }
    requires inode { is_inode held.now.ino ≡ true }
    requires number { piece.now.next ≡ None → is_tree core.now held.now.fork ≡ true → held.now.own + length piece.now.mappings.items ≡ count_of core.now held.now.fork }
    requires room { length piece.now.mappings.items + length piece.now.tree_blocks.items ≤ scan.old.shadow.room }
    ensures delivered { Delivers (layout geo.now) core.now held.now piece.now scan.old scan.new }
    ensures ends { EndsAt held.now result scan.old scan.new }
    ensures group { scan.new.group ≡ scan.old.group }
    ensures own { scan.new.shadow.group ≡ scan.old.shadow.group }
{
    piece_gives();
    give_piece(&mut scan.shadow, geo, held.fork, held.ino, piece);
    let mappings = piece.mappings.as_slice();
    let count = mappings.len() as u128;
    let given = held.given + count;
    if let Some(next) = piece.next {
        scan.held = Some(Held {
            ino: held.ino,
            uid: held.uid,
            fork: held.fork,
            next,
            own: held.own + count,
            given,
        });
        return false;
    }
    match held.fork {
        Fork::Data => {
            scan.held = Some(Held {
                ino: held.ino,
                uid: held.uid,
                fork: Fork::Attr,
                next: 0,
                own: 0,
                given,
            });
            false
        }
        Fork::Attr => {
            scan.cursor = held.ino;
            scan.held = None;
            true
        }
    }
}

/// Why a piece isn't delivered: the core or the fork has a fault, the device failed, or there was no memory.
#[derive(Clone, Copy, Debug, PartialEq, Eq)]
pub enum Stop {
    Read(ReadFault),
    Memory,
}

impl From<ReadFault> for Stop {
    ghost use Rattle.core_scan.specs.declared.scan.Stop.TheVariants.{Read};

    ghost from_gives = { λ fault e. e ≡ Read fault };

    fn from(fault: ReadFault) -> Self {
        Stop::Read(fault)
    }
}

impl From<Memory> for Stop {
    ghost use Rattle.core_scan.specs.declared.scan.Stop.TheVariants.{Memory as NoMemory};

    ghost from_gives = { λ _ e. e ≡ NoMemory };

    fn from(_: Memory) -> Self {
        Stop::Memory
    }
}

// Takes room for a piece of at most 512 mappings.
fn make_room(scan: &mut Scan, piece: &ForkPiece) -> Result<(), Stop>
    requires few { length piece.now.mappings.items ≤ 512 }
    ensures room { OnOk result (length piece.now.mappings.items + length piece.now.tree_blocks.items ≤ scan.new.shadow.room) }
    ensures kept { KeepsAll scan.old scan.new }
    ensures held { scan.new.held ≡ scan.old.held }
    ensures cursor { scan.new.cursor ≡ scan.old.cursor }
    ensures group { scan.new.group ≡ scan.old.group }
    ensures own { scan.new.shadow.group ≡ scan.old.shadow.group }
    ensures memory { IfErr result (λ stop. stop ≡ Stop.Memory) }
{
    let blocks = piece.tree_blocks.as_slice();
    let mappings = piece.mappings.as_slice();
    if blocks.len() > 128 {
        return Err(Stop::Memory);
    }
    let most = mappings.len() as u32 + blocks.len() as u32;
    scan.shadow.room(most)?;
    Ok(())
}

/// Delivers the next piece of the inode that the scan holds to the shadow, of its data fork before its
/// attribute fork, and answers whether all was given. A fault of the core or of a fork is told, and then
/// nothing was delivered. (XFS Online Fsck Design, "Live Inode Scans".)
pub fn scan_piece<D: Device, L: Ledger>(
    scan: &mut Scan,
    held: &Held,
    core: &Core3,
    alloc: Global,
    dev: &mut D,
    geo: &Geometry,
    steps: &mut Steps<L>,
) -> Result<bool, Stop>
    requires held { scan.old.held ≡ Some held.now }
    requires few { held.now.own ≤ 2 ^ 100 }
    requires fewer { held.now.given ≤ 2 ^ 100 }
    requires inode { is_inode held.now.ino ≡ true }
    requires core { IfSome (D.content dev.old) (λ c. core.now ≡ core_at (layout geo.now) (c Image) held.now.ino) }
    requires room { geo.now.dblocks ≤ D.blocks dev.old Image }
    ensures kept { Scans (layout geo.now) (D.content dev.old) scan.old scan.new }
    ensures ends { IfOk result (λ done. EndsAt held.now done scan.old scan.new) }
    ensures halted { OnErr result (IsHalted scan.old scan.new) }
    ensures group { scan.new.group ≡ scan.old.group }
    ensures own { scan.new.shadow.group ≡ scan.old.shadow.group }
    ensures refused { IfErr result (λ stop. (c : Contents) → D.content dev.old ≡ Some c
        → IsRefused (layout geo.now) (c Image) core.now held.now.fork held.now.next stop) }
    ensures reading { OnlyRead D.Device dev.old dev.new steps.old steps.new }
    ensures cause { HasCause is_stop_failed (D.faults dev.old) (D.faults dev.new) result }
{
    let piece = piece_of_core(alloc, dev, geo, core, held.fork, held.next, steps)?;
    if is_number_wrong(core, held, &piece) {
        return Err(Stop::Read(ReadFault::Fork(ForkFault::Count)));
    }
    make_room(scan, &piece)?;
    Ok(deliver(scan, geo, held, core, &piece))
}
