// The new blocks, staged on the reserve.
ghost use Rattle.std.specs.Prelude.{◌≡◌, ℕ, Bool, ◌+◌, ◌*◌, ◌<◌, ◌≤◌, ◌-◌, ◌^◌, true, drop, length, min, slice_index, take, All, IfErr, IfOk, IfSome, OnErr, OnOk, false};
ghost use Rattle.blk_cache.specs.Cache.{Agrees, AgreesTold};
ghost use Rattle.blk_device.specs.Causes.{HasCause, any_error};
ghost use Rattle.blk_device.specs.Contents.{Becomes, Contents, Doubts, InDoubt, map_told, put};
ghost use Rattle.blk_device.specs.Crash.{Elapses, Follows, IsDurable};
ghost use Rattle.blk_device.specs.Reading.{Keeps};
ghost use Rattle.blk_device.specs.declared.device.Region.{Region};
ghost use Rattle.blk_device.specs.declared.device.Region.TheVariants.{Image};
ghost use Rattle.bulk_load.specs.Loaded.{IsLoaded};
ghost use Rattle.bulk_load.specs.Shapes.{IsShape};
ghost use Rattle.geom.specs.Layout.{device_block_of, group_len_of};
ghost use Rattle.geom.specs.Places.{layout};
ghost use Rattle.inode_pass.specs.Stops.{is_failed};
ghost use Rattle.sblock.specs.Blocks.{IsRising};
ghost use Rattle.core_units.specs.TreesFit.{AreLoadable};
ghost use Rattle.core_units.specs.Staged.{AreOut, HasTree, HaveTrees, IsAt, IsFirstStaged, IsInFirst, IsInSecond, IsKept, IsPiece, IsSecondStaged, IsStaged, IsUnder, KeepsBytes, LieOn, NoneKept, behind_first as behind_first_of, behind_second as behind_second_of, frame_at, is_synced, with_blocks};
ghost use Rattle.unit_plan.specs.Need.{IsTreeOf};

use crate::Lists;
use blk_cache::BlkCache;
use blk_device::{Device, DeviceFailed, Region};
use bulk_load::{Shape, load_piece, shape};
use byte_fields::{Block, Steps};
use geom::Geometry;
use ino_recs::{FinoKind, InoKind};
use inode_pass::PassStop;
use rmap_recs::RmapKind;
use sblock::{Frame, RecKind};
use span_recs::{BnoKind, CntKind, RefcKind};
use std::alloc::Global;
use std::sync::ledger::Ledger;
use tree_defs::Site;

/// How far the new blocks are staged: of the first btree, or of the second.
#[derive(Clone, Copy, Debug, PartialEq, Eq)]
pub enum Staging {
    First(u64),
    Second(u64),
    Synced,
}

// Writes a block of the group whose first block is this one of the device.
fn write_one<D: Device>(
    dev: &mut D,
    first: u64,
    block: u32,
    bytes: &Block,
) -> Result<(), DeviceFailed>
    requires first { first < 2 ^ 61 }
    requires inside { first + block < D.blocks dev.old Image }
    ensures written { OnOk result (D.content dev.new ≡ map_told (put Image (first + block) bytes.now.bytes) (D.content dev.old)) }
    ensures doubt { Doubts Image (first + block) (D.content dev.old) (D.content dev.new) }
    ensures crash { Follows (InDoubt Image (first + block)) (D.may_hold_now dev.old) (D.may_hold_now dev.new) }
    ensures time { Elapses (D.clock dev.old) (D.clock dev.new) (D.may_have_held_since dev.old) (D.may_have_held_since dev.new) (D.may_hold_now dev.new) }
    ensures sizes { D.blocks dev.new ≡ D.blocks dev.old }
    ensures cause { HasCause any_error (D.faults dev.old) (D.faults dev.new) result }
    ensures reads { D.reads dev.new ≡ D.reads dev.old }
{
    dev.write(Region::Image, first + u64::from(block), bytes)
}

// Lets the cache know of it.
fn note_one(cache: &mut BlkCache, first: u64, block: u32, bytes: &Block)
    requires { first < 2 ^ 61 }
    ensures { (c : Contents) → Agrees cache.old c → Agrees cache.new (put Image (first + block) bytes.now.bytes c) }
{
    cache.note_written(first + u64::from(block), bytes);
}

// Writes the blocks, and lets the cache know.
fn write_all<D: Device>(
    dev: &mut D,
    cache: &mut BlkCache,
    first: u64,
    placed: &[(u32, Block)],
) -> Result<(), PassStop>
    requires first { first < 2 ^ 61 }
    requires inside { LieOn first (D.blocks dev.old Image) placed.now }
    ensures written { OnOk result (D.content dev.new ≡ map_told (with_blocks first placed.now) (D.content dev.old)) }
    ensures moments { (keep : Region → ℕ → Bool) → AreOut first keep placed.now → Keeps D.Device (IsKept keep) dev.old dev.new }
    ensures kept { (keep : Region → ℕ → Bool) → AreOut first keep placed.now → Becomes (D.content dev.old) (D.content dev.new) (KeepsBytes keep) }
    ensures agrees { (c : Contents) → Agrees cache.old c → OnOk result (Agrees cache.new (with_blocks first placed.now c)) }
    ensures only { IfErr result (λ stop. stop ≡ PassStop.Failed) }
    ensures sizes { D.blocks dev.new ≡ D.blocks dev.old }
    ensures cause { HasCause is_failed (D.faults dev.old) (D.faults dev.new) result }
    ensures reads { D.reads dev.new ≡ D.reads dev.old }
{
    let mut rest = placed;
    while let Some(((block, bytes), later)) = rest.split_first() {
        write_one(dev, first, *block, bytes)?;
        note_one(cache, first, *block, bytes);
        rest = later;
    }
    Ok(())
}

// What a btree of so many records looks like, for which these are enough blocks.
fn shape_in<K: RecKind>(records: usize, reserve: &[u32]) -> Shape
    requires { HasTree K.form.kind records (length reserve.now) }
    ensures shaped { IsShape K.form.kind records result.levels result.blocks }
    ensures enough { result.blocks ≤ length reserve.now }
{
    shape(records as u64, K::kind())
}

// Loads the next blocks of a btree, without memory none.
fn load<K: RecKind, L: Ledger>(
    alloc: Global,
    list: &[K::Rec],
    shape: &Shape,
    frame: &Frame,
    claimed: &[u32],
    from: u64,
    placed: &mut Vec<(u32, Block)>,
    steps: &mut Steps<L>,
) -> Result<u64, PassStop>
    requires rising { IsRising K.form list.now }
    requires ends { All (λ r. K.form.has_end r ≡ true) list.now }
    requires shaped { IsShape K.form.kind (length list.now) shape.now.levels shape.now.blocks }
    requires claimed { length claimed.now ≡ shape.now.blocks }
    requires places { (k : ℕ) → k < length claimed.now → 8 * (frame.now.first + slice_index claimed.now k) < 2 ^ 64 }
    requires begins { from < shape.now.blocks }
    ensures next { IfOk result (λ next. next ≡ from + min (shape.now.blocks - from) 64) }
    ensures loaded { IfOk result (λ next.
        IsLoaded K.form list.now claimed.now frame.now from next placed.old.items placed.new.items) }
    ensures memory { IfErr result (λ stop. stop ≡ PassStop.Memory) }
{
    match load_piece::<K, L>(alloc, list, shape, frame, claimed, from, placed, steps) {
        Ok(next) => Ok(next),
        Err(_) => Err(PassStop::Memory),
    }
}

// The first blocks of a reserve.
fn front(reserve: &[u32], blocks: u64) -> &[u32]
    requires { blocks ≤ length reserve.now }
    ensures { result.now ≡ take blocks reserve.now }
{
    &reserve[..blocks as usize]
}

// Stages the next blocks of a btree on the first blocks of these, and answers the number of the next
// one, if some are left.
fn stage_tree<K: RecKind, D: Device, L: Ledger>(
    alloc: Global,
    dev: &mut D,
    cache: &mut BlkCache,
    geo: &Geometry,
    g: u32,
    lsn: u64,
    list: &[K::Rec],
    reserve: &[u32],
    from: u64,
    steps: &mut Steps<L>,
) -> Result<Option<u64>, PassStop>
    requires group { g < geo.now.agcount }
    requires room { geo.now.dblocks ≤ D.blocks dev.old Image }
    requires agreed { AgreesTold cache.old (D.content dev.old) }
    requires inside { All (λ b. b < group_len_of (layout geo.now) g) reserve.now }
    requires rising { IsRising K.form list.now }
    requires ends { All (λ r. K.form.has_end r ≡ true) list.now }
    requires enough { HasTree K.form.kind (length list.now) (length reserve.now) }
    requires begins { IsUnder K.form.kind (length list.now) from }
    ensures staged { IfOk result (λ next. IsStaged K.form list.now reserve.now (frame_at (layout geo.now) g lsn) from next (D.content dev.old) (D.content dev.new)) }
    ensures next { IfOk result (λ next. IfSome next (IsUnder K.form.kind (length list.now))) }
    ensures moments { (keep : Region → ℕ → Bool) → NoneKept (device_block_of (layout geo.now) g 0) keep reserve.now → Keeps D.Device (IsKept keep) dev.old dev.new }
    ensures kept { (keep : Region → ℕ → Bool) → NoneKept (device_block_of (layout geo.now) g 0) keep reserve.now → Becomes (D.content dev.old) (D.content dev.new) (KeepsBytes keep) }
    ensures agrees { OnOk result (AgreesTold cache.new (D.content dev.new)) }
    ensures calm { IfErr result (λ stop. is_failed stop ≡ false → AgreesTold cache.new (D.content dev.new)) }
    ensures sizes { D.blocks dev.new ≡ D.blocks dev.old }
    ensures cause { HasCause is_failed (D.faults dev.old) (D.faults dev.new) result }
    ensures reads { D.reads dev.new ≡ D.reads dev.old }
{
    let shape = shape_in::<K>(list.len(), reserve);
    let claimed = front(reserve, shape.blocks);
    let site = Site::of_group(geo, g);
    let uuid = site.uuid;
    let frame = Frame {
        group: g,
        first: site.first,
        uuid,
        lsn,
    };
    let mut placed = Vec::new(alloc);
    let next = load::<K, L>(
        alloc,
        list,
        &shape,
        &frame,
        claimed,
        from,
        &mut placed,
        steps,
    )?;
    write_all(dev, cache, site.first, placed.as_slice())?;
    if next < shape.blocks {
        Ok(Some(next))
    } else {
        Ok(None)
    }
}

// The blocks behind those of a btree of so many records.
fn behind<K: RecKind>(records: usize, reserve: &[u32]) -> &[u32]
    requires { HasTree K.form.kind records (length reserve.now) }
    ensures { (blocks : ℕ) × IsTreeOf K.form.kind records blocks × (result.now ≡ drop blocks reserve.now) }
{
    let blocks = shape_in::<K>(records, reserve).blocks;
    &reserve[blocks as usize..]
}

// Stages the next blocks of the unit's first btree.
fn stage_first<D: Device, L: Ledger>(
    alloc: Global,
    dev: &mut D,
    cache: &mut BlkCache,
    geo: &Geometry,
    g: u32,
    lsn: u64,
    lists: &Lists,
    reserve: &[u32],
    from: u64,
    steps: &mut Steps<L>,
) -> Result<Option<u64>, PassStop>
    requires group { g < geo.now.agcount }
    requires room { geo.now.dblocks ≤ D.blocks dev.old Image }
    requires agreed { AgreesTold cache.old (D.content dev.old) }
    requires inside { All (λ b. b < group_len_of (layout geo.now) g) reserve.now }
    requires loadable { AreLoadable lists.now }
    requires enough { HaveTrees lists.now (length reserve.now) }
    requires begins { IsInFirst lists.now from }
    ensures staged { IfOk result (λ next. IsFirstStaged lists.now reserve.now (frame_at (layout geo.now) g lsn) from next (D.content dev.old) (D.content dev.new)) }
    ensures next { IfOk result (λ next. IfSome next (IsInFirst lists.now)) }
    ensures moments { (keep : Region → ℕ → Bool) → NoneKept (device_block_of (layout geo.now) g 0) keep reserve.now → Keeps D.Device (IsKept keep) dev.old dev.new }
    ensures kept { (keep : Region → ℕ → Bool) → NoneKept (device_block_of (layout geo.now) g 0) keep reserve.now → Becomes (D.content dev.old) (D.content dev.new) (KeepsBytes keep) }
    ensures agrees { OnOk result (AgreesTold cache.new (D.content dev.new)) }
    ensures calm { IfErr result (λ stop. is_failed stop ≡ false → AgreesTold cache.new (D.content dev.new)) }
    ensures sizes { D.blocks dev.new ≡ D.blocks dev.old }
    ensures cause { HasCause is_failed (D.faults dev.old) (D.faults dev.new) result }
    ensures reads { D.reads dev.new ≡ D.reads dev.old }
{
    match lists {
        Lists::Inode { ino, .. } => {
            stage_tree::<InoKind, D, L>(
                alloc,
                dev,
                cache,
                geo,
                g,
                lsn,
                ino.as_slice(),
                reserve,
                from,
                steps,
            )
        }
        Lists::Rmap { rmap } => {
            stage_tree::<RmapKind, D, L>(
                alloc,
                dev,
                cache,
                geo,
                g,
                lsn,
                rmap.as_slice(),
                reserve,
                from,
                steps,
            )
        }
        Lists::Free { bno, .. } => {
            stage_tree::<BnoKind, D, L>(
                alloc,
                dev,
                cache,
                geo,
                g,
                lsn,
                bno.as_slice(),
                reserve,
                from,
                steps,
            )
        }
        Lists::Refc { refc } => {
            stage_tree::<RefcKind, D, L>(
                alloc,
                dev,
                cache,
                geo,
                g,
                lsn,
                refc.as_slice(),
                reserve,
                from,
                steps,
            )
        }
    }
}

// Those of its second, behind the first one's in the reserve.
fn stage_second<D: Device, L: Ledger>(
    alloc: Global,
    dev: &mut D,
    cache: &mut BlkCache,
    geo: &Geometry,
    g: u32,
    lsn: u64,
    lists: &Lists,
    reserve: &[u32],
    from: u64,
    steps: &mut Steps<L>,
) -> Result<Option<u64>, PassStop>
    requires group { g < geo.now.agcount }
    requires room { geo.now.dblocks ≤ D.blocks dev.old Image }
    requires agreed { AgreesTold cache.old (D.content dev.old) }
    requires inside { All (λ b. b < group_len_of (layout geo.now) g) reserve.now }
    requires loadable { AreLoadable lists.now }
    requires enough { HaveTrees lists.now (length reserve.now) }
    requires begins { IsInSecond lists.now from }
    ensures staged { IfOk result (λ next. IsSecondStaged lists.now reserve.now (frame_at (layout geo.now) g lsn) from next (D.content dev.old) (D.content dev.new)) }
    ensures next { IfOk result (λ next. IfSome next (IsInSecond lists.now)) }
    ensures moments { (keep : Region → ℕ → Bool) → NoneKept (device_block_of (layout geo.now) g 0) keep reserve.now → Keeps D.Device (IsKept keep) dev.old dev.new }
    ensures kept { (keep : Region → ℕ → Bool) → NoneKept (device_block_of (layout geo.now) g 0) keep reserve.now → Becomes (D.content dev.old) (D.content dev.new) (KeepsBytes keep) }
    ensures agrees { OnOk result (AgreesTold cache.new (D.content dev.new)) }
    ensures calm { IfErr result (λ stop. is_failed stop ≡ false → AgreesTold cache.new (D.content dev.new)) }
    ensures sizes { D.blocks dev.new ≡ D.blocks dev.old }
    ensures cause { HasCause is_failed (D.faults dev.old) (D.faults dev.new) result }
    ensures reads { D.reads dev.new ≡ D.reads dev.old }
{
    match lists {
        Lists::Inode { ino, fino } => {
            let inos = ino.as_slice();
            let free_inos = fino.as_slice();
            let after_inos = behind::<InoKind>(inos.len(), reserve);
            stage_tree::<FinoKind, D, L>(
                alloc, dev, cache, geo, g, lsn, free_inos, after_inos, from, steps,
            )
        }
        Lists::Free { bno, cnt } => {
            let starts = bno.as_slice();
            let counts = cnt.as_slice();
            let after_starts = behind::<BnoKind>(starts.len(), reserve);
            stage_tree::<CntKind, D, L>(
                alloc,
                dev,
                cache,
                geo,
                g,
                lsn,
                counts,
                after_starts,
                from,
                steps,
            )
        }
        _ => Ok(None),
    }
}

// Where the staging stands behind a piece of the first btree, or of the second.
fn behind_first(lists: &Lists, next: Option<u64>) -> Staging
    ensures { result ≡ behind_first_of lists.now next }
{
    match next {
        Some(next) => Staging::First(next),
        None => match lists {
            Lists::Inode { .. } | Lists::Free { .. } => Staging::Second(0),
            Lists::Rmap { .. } | Lists::Refc { .. } => Staging::Synced,
        },
    }
}

fn behind_second(next: Option<u64>) -> Staging
    ensures { result ≡ behind_second_of next }
{
    match next {
        Some(next) => Staging::Second(next),
        None => Staging::Synced,
    }
}

// Stages the next blocks, and answers where the staging stands then.
fn stage_next<D: Device, L: Ledger>(
    alloc: Global,
    dev: &mut D,
    cache: &mut BlkCache,
    geo: &Geometry,
    g: u32,
    lsn: u64,
    lists: &Lists,
    reserve: &[u32],
    at: Staging,
    steps: &mut Steps<L>,
) -> Result<Staging, PassStop>
    requires group { g < geo.now.agcount }
    requires room { geo.now.dblocks ≤ D.blocks dev.old Image }
    requires agreed { AgreesTold cache.old (D.content dev.old) }
    requires inside { All (λ b. b < group_len_of (layout geo.now) g) reserve.now }
    requires loadable { AreLoadable lists.now }
    requires enough { HaveTrees lists.now (length reserve.now) }
    requires at { IsAt lists.now at }
    ensures staged { IfOk result (λ now. IsPiece lists.now reserve.now (frame_at (layout geo.now) g lsn) at now (D.content dev.old) (D.content dev.new)) }
    ensures at { IfOk result (IsAt lists.now) }
    ensures moments { (keep : Region → ℕ → Bool) → NoneKept (device_block_of (layout geo.now) g 0) keep reserve.now → Keeps D.Device (IsKept keep) dev.old dev.new }
    ensures kept { (keep : Region → ℕ → Bool) → NoneKept (device_block_of (layout geo.now) g 0) keep reserve.now → Becomes (D.content dev.old) (D.content dev.new) (KeepsBytes keep) }
    ensures agrees { OnOk result (AgreesTold cache.new (D.content dev.new)) }
    ensures calm { IfErr result (λ stop. is_failed stop ≡ false → AgreesTold cache.new (D.content dev.new)) }
    ensures sizes { D.blocks dev.new ≡ D.blocks dev.old }
    ensures cause { HasCause is_failed (D.faults dev.old) (D.faults dev.new) result }
    ensures reads { D.reads dev.new ≡ D.reads dev.old }
{
    match at {
        Staging::First(from) => {
            let next = stage_first(alloc, dev, cache, geo, g, lsn, lists, reserve, from, steps)?;
            Ok(behind_first(lists, next))
        }
        Staging::Second(from) => {
            let next = stage_second(alloc, dev, cache, geo, g, lsn, lists, reserve, from, steps)?;
            Ok(behind_second(next))
        }
        Staging::Synced => Ok(Staging::Synced),
    }
}

/// Writes at most 64 of the new blocks on the reserve; the last call syncs. Answers whether all are
/// there.
pub(crate) fn stage_lists<D: Device, L: Ledger>(
    alloc: Global,
    dev: &mut D,
    cache: &mut BlkCache,
    geo: &Geometry,
    g: u32,
    lsn: u64,
    lists: &Lists,
    reserve: &[u32],
    at: &mut Staging,
    steps: &mut Steps<L>,
) -> Result<bool, PassStop>
    requires group { g < geo.now.agcount }
    requires room { geo.now.dblocks ≤ D.blocks dev.old Image }
    requires agreed { AgreesTold cache.old (D.content dev.old) }
    requires inside { All (λ b. b < group_len_of (layout geo.now) g) reserve.now }
    requires loadable { AreLoadable lists.now }
    requires enough { HaveTrees lists.now (length reserve.now) }
    requires at { IsAt lists.now at.old }
    ensures staged { OnOk result (IsPiece lists.now reserve.now (frame_at (layout geo.now) g lsn) at.old at.new (D.content dev.old) (D.content dev.new)) }
    ensures done { IfOk result (λ is_done. is_done ≡ is_synced at.new) }
    ensures durable { IfOk result (λ is_done. is_done ≡ true → IsDurable Image (D.content dev.new) (D.may_hold_now dev.new)) }
    ensures at { IsAt lists.now at.new }
    ensures untold { OnErr result (at.new ≡ at.old) }
    ensures moments { (keep : Region → ℕ → Bool) → NoneKept (device_block_of (layout geo.now) g 0) keep reserve.now → Keeps D.Device (IsKept keep) dev.old dev.new }
    ensures kept { (keep : Region → ℕ → Bool) → NoneKept (device_block_of (layout geo.now) g 0) keep reserve.now → Becomes (D.content dev.old) (D.content dev.new) (KeepsBytes keep) }
    ensures agrees { OnOk result (AgreesTold cache.new (D.content dev.new)) }
    ensures calm { IfErr result (λ stop. is_failed stop ≡ false → AgreesTold cache.new (D.content dev.new)) }
    ensures sizes { D.blocks dev.new ≡ D.blocks dev.old }
    ensures cause { HasCause is_failed (D.faults dev.old) (D.faults dev.new) result }
    ensures reads { D.reads dev.new ≡ D.reads dev.old }
{
    let next = stage_next(alloc, dev, cache, geo, g, lsn, lists, reserve, *at, steps)?;
    if let Staging::Synced = next {
        dev.sync(Region::Image)?;
        *at = next;
        return Ok(true);
    }
    *at = next;
    Ok(false)
}
