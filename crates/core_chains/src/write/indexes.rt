// The edits of one index each, over a store.
ghost use Rattle.std.specs.Prelude.{◌≡◌, ◌<◌, ℕ, IfSome, OnOk};
ghost use Rattle.blk_device.specs.Causes.{HasCause};
ghost use Rattle.core_edit.specs.One.{Fits};
ghost use Rattle.core_edit.specs.Open.{LiesBelow, is_device};
ghost use Rattle.core_edit.specs.Ready.{IsReady};
ghost use Rattle.geom.specs.Layout.{Layout};
ghost use Rattle.geom.specs.Places.{layout};
ghost use Rattle.list_edit.specs.declared.edits.Edit.TheVariants.{Insert as IsInsert, Remove as IsRemove};
ghost use Rattle.core_edit.specs.Opened.{EditsStore, IsOpen};

use blk_device::Device;
use byte_fields::Steps;
use core_edit::{EditHeads, SpaceKinds, SpaceLeft, Stop, Store};
use fs_model::{AnyRec, Cause};
use geom::Geometry;
use ino_recs::{FinoKind, InoKind, InoRec};
use rmap_recs::{RmapKind, RmapRec};
use sblock::RecKind;
use span_recs::{BnoKind, SpanRec};
use std::alloc::Global;
use std::sync::ledger::Ledger;
use tree_defs::Site;

/// An edit of reverse mappings: a run gets its owner, it is taken from it, or it gets this owner, or
/// flag, in place of the one that it had (XFS Algorithms and Data Structures, "Reverse-Mapping B+tree").
#[derive(Clone, Copy, Debug, PartialEq, Eq)]
pub enum RmapEdit {
    Add(RmapRec),
    Cut(RmapRec),
    Turn { gone: RmapRec, run: RmapRec },
}

/// The two inode btrees of a group: that of all chunks, and that of those in which an inode is free
/// (XFS Algorithms and Data Structures, "Inode B+trees").
#[derive(Clone, Copy, Debug, PartialEq, Eq)]
pub enum InoTree {
    Ino,
    Fino,
}

/// An edit of an inode btree: a chunk's record is put in, is taken out, or takes the place of another
/// (XFS Algorithms and Data Structures, "Inode B+trees").
#[derive(Clone, Copy, Debug, PartialEq, Eq)]
pub enum ChunkEdit {
    Put(InoRec),
    Cut(InoRec),
    Turn { gone: InoRec, rec: InoRec },
}

/// Begins the edit of a group that has these heads; the block of an inode is joined, where one is given.
pub(crate) fn begin_at<D: Device, L: Ledger>(
    store: &mut Store<D>,
    heads: &EditHeads,
    g: u32,
    inode: Option<u64>,
    steps: &mut Steps<L>,
) -> Result<(), Stop>
    requires ready { IsReady D.Device store.old }
    requires group { g < store.old.geo.agcount }
    requires inode { LiesBelow store.old.geo.dblocks inode }
    ensures opened { OnOk result (IsOpen D.Device g store.new) }
    ensures edits { EditsStore D.Device store.old store.new steps.old steps.new }
    ensures cause { HasCause is_device (D.faults store.old.dev) (D.faults store.new.dev) result }
{
    store.edit.open(
        &mut store.dev,
        &mut store.cache,
        &store.geo,
        g,
        heads,
        inode,
        steps,
    )
}

// Why an index was left, where it was; a failure and memory stay what they are.
fn left_of(answer: Result<(), Stop>) -> Result<Option<Cause>, Stop>
    ensures { (before now : ℕ) → HasCause is_device before now answer → HasCause is_device before now result }
{
    match answer {
        Ok(()) => Ok(None),
        Err(stop) => match stop {
            Stop::Left { kind: _, cause } => Ok(Some(cause)),
            Stop::Failed => Err(Stop::Failed),
            Stop::Memory => Err(Stop::Memory),
        },
    }
}

// Where the records by start can't be read, neither index of free space is edited: both are left for
// what was met there.
fn space_left_of(answer: Result<SpaceLeft, Stop>) -> Result<SpaceLeft, Stop>
    ensures { (before now : ℕ) → HasCause is_device before now answer → HasCause is_device before now result }
{
    match answer {
        Ok(left) => Ok(left),
        Err(stop) => match stop {
            Stop::Left { kind: _, cause } => Ok(SpaceLeft {
                bno: Some(cause),
                cnt: Some(cause),
            }),
            Stop::Failed => Err(Stop::Failed),
            Stop::Memory => Err(Stop::Memory),
        },
    }
}

// Gives a run its owner.
fn add_owner<D: Device, L: Ledger>(
    alloc: Global,
    store: &mut Store<D>,
    g: u32,
    run: &RmapRec,
    steps: &mut Steps<L>,
) -> Result<Option<Cause>, Stop>
    requires ready { IsReady D.Device store.old }
    requires group { g < store.old.geo.agcount }
    requires opened { IsOpen D.Device g store.old }
    ensures opened { IsOpen D.Device g store.new }
    ensures edits { EditsStore D.Device store.old store.new steps.old steps.new }
    ensures cause { HasCause is_device (D.faults store.old.dev) (D.faults store.new.dev) result }
{
    let site = Site::of_group(&store.geo, g);
    // Never, where what a chain owes lies in its group.
    if !RmapKind::is_in_range(run, &site.bounds) {
        return Err(Stop::Memory);
    }
    left_of(
        store.edit.rmap_add(
            alloc,
            &mut store.dev,
            &mut store.cache,
            &store.geo,
            run,
            steps,
        ),
    )
}

// Takes a run's owner from it.
fn cut_owner<D: Device, L: Ledger>(
    alloc: Global,
    store: &mut Store<D>,
    g: u32,
    run: &RmapRec,
    steps: &mut Steps<L>,
) -> Result<Option<Cause>, Stop>
    requires ready { IsReady D.Device store.old }
    requires group { g < store.old.geo.agcount }
    requires opened { IsOpen D.Device g store.old }
    ensures opened { IsOpen D.Device g store.new }
    ensures edits { EditsStore D.Device store.old store.new steps.old steps.new }
    ensures cause { HasCause is_device (D.faults store.old.dev) (D.faults store.new.dev) result }
{
    let site = Site::of_group(&store.geo, g);
    // Never, where what a chain owes lies in its group.
    if !RmapKind::is_in_range(run, &site.bounds) {
        return Err(Stop::Memory);
    }
    left_of(
        store.edit.rmap_cut(
            alloc,
            &mut store.dev,
            &mut store.cache,
            &store.geo,
            run,
            steps,
        ),
    )
}

// Turns a run's owner, or its flag.
fn turn_owner<D: Device, L: Ledger>(
    alloc: Global,
    store: &mut Store<D>,
    g: u32,
    gone: &RmapRec,
    run: &RmapRec,
    steps: &mut Steps<L>,
) -> Result<Option<Cause>, Stop>
    requires ready { IsReady D.Device store.old }
    requires group { g < store.old.geo.agcount }
    requires opened { IsOpen D.Device g store.old }
    ensures opened { IsOpen D.Device g store.new }
    ensures edits { EditsStore D.Device store.old store.new steps.old steps.new }
    ensures cause { HasCause is_device (D.faults store.old.dev) (D.faults store.new.dev) result }
{
    let site = Site::of_group(&store.geo, g);
    // Never, where what a chain owes lies in its group.
    if !RmapKind::is_in_range(gone, &site.bounds) {
        return Err(Stop::Memory);
    }
    if !RmapKind::is_in_range(run, &site.bounds) {
        return Err(Stop::Memory);
    }
    left_of(
        store.edit.rmap_turn(
            alloc,
            &mut store.dev,
            &mut store.cache,
            &store.geo,
            gone,
            run,
            steps,
        ),
    )
}

/// Edits reverse mappings, or leaves them for a cause. A run that can't stand there is answered with
/// Memory.
pub(crate) fn rmap_at<D: Device, L: Ledger>(
    alloc: Global,
    store: &mut Store<D>,
    g: u32,
    edit: &RmapEdit,
    steps: &mut Steps<L>,
) -> Result<Option<Cause>, Stop>
    requires ready { IsReady D.Device store.old }
    requires group { g < store.old.geo.agcount }
    requires opened { IsOpen D.Device g store.old }
    ensures opened { IsOpen D.Device g store.new }
    ensures edits { EditsStore D.Device store.old store.new steps.old steps.new }
    ensures cause { HasCause is_device (D.faults store.old.dev) (D.faults store.new.dev) result }
{
    match edit {
        RmapEdit::Add(run) => add_owner(alloc, store, g, run, steps),
        RmapEdit::Cut(run) => cut_owner(alloc, store, g, run, steps),
        RmapEdit::Turn { gone, run } => turn_owner(alloc, store, g, gone, run, steps),
    }
}

// Raises the count of a stretch.
fn count_more<D: Device, L: Ledger>(
    alloc: Global,
    store: &mut Store<D>,
    g: u32,
    run: &SpanRec,
    steps: &mut Steps<L>,
) -> Result<Option<Cause>, Stop>
    requires ready { IsReady D.Device store.old }
    requires group { g < store.old.geo.agcount }
    requires opened { IsOpen D.Device g store.old }
    ensures opened { IsOpen D.Device g store.new }
    ensures edits { EditsStore D.Device store.old store.new steps.old steps.new }
    ensures cause { HasCause is_device (D.faults store.old.dev) (D.faults store.new.dev) result }
{
    let end = u64::from(run.start) + u64::from(run.count);
    // Never, where what a chain owes lies in its group, behind its heads.
    if run.start == 0 || run.count == 0 || end > u64::from(store.geo.group_len(g)) {
        return Err(Stop::Memory);
    }
    left_of(
        store.edit.refc_up(
            alloc,
            &mut store.dev,
            &mut store.cache,
            &store.geo,
            run.start,
            run.count,
            steps,
        ),
    )
}

// Lowers the count of a stretch.
fn count_less<D: Device, L: Ledger>(
    alloc: Global,
    store: &mut Store<D>,
    g: u32,
    run: &SpanRec,
    steps: &mut Steps<L>,
) -> Result<Option<Cause>, Stop>
    requires ready { IsReady D.Device store.old }
    requires group { g < store.old.geo.agcount }
    requires opened { IsOpen D.Device g store.old }
    ensures opened { IsOpen D.Device g store.new }
    ensures edits { EditsStore D.Device store.old store.new steps.old steps.new }
    ensures cause { HasCause is_device (D.faults store.old.dev) (D.faults store.new.dev) result }
{
    let end = u64::from(run.start) + u64::from(run.count);
    // Never, where what a chain owes lies in its group, behind its heads.
    if run.start == 0 || run.count == 0 || end > u64::from(store.geo.group_len(g)) {
        return Err(Stop::Memory);
    }
    left_of(
        store.edit.refc_down(
            alloc,
            &mut store.dev,
            &mut store.cache,
            &store.geo,
            run.start,
            run.count,
            steps,
        ),
    )
}

/// Raises or lowers the count of a stretch that has one count, or leaves reference counts for a cause. A
/// run that can't be counted there is answered with Memory.
pub(crate) fn refc_at<D: Device, L: Ledger>(
    alloc: Global,
    store: &mut Store<D>,
    g: u32,
    run: &SpanRec,
    more: bool,
    steps: &mut Steps<L>,
) -> Result<Option<Cause>, Stop>
    requires ready { IsReady D.Device store.old }
    requires group { g < store.old.geo.agcount }
    requires opened { IsOpen D.Device g store.old }
    ensures opened { IsOpen D.Device g store.new }
    ensures edits { EditsStore D.Device store.old store.new steps.old steps.new }
    ensures cause { HasCause is_device (D.faults store.old.dev) (D.faults store.new.dev) result }
{
    if more {
        return count_more(alloc, store, g, run, steps);
    }
    count_less(alloc, store, g, run, steps)
}

/// Takes a run out of the indexes of free space that are asked for, or leaves them for a cause. A run that
/// can't stand there is answered with Memory.
pub(crate) fn take_at<D: Device, L: Ledger>(
    alloc: Global,
    store: &mut Store<D>,
    g: u32,
    kinds: SpaceKinds,
    run: &SpanRec,
    steps: &mut Steps<L>,
) -> Result<SpaceLeft, Stop>
    requires ready { IsReady D.Device store.old }
    requires group { g < store.old.geo.agcount }
    requires opened { IsOpen D.Device g store.old }
    ensures opened { IsOpen D.Device g store.new }
    ensures edits { EditsStore D.Device store.old store.new steps.old steps.new }
    ensures cause { HasCause is_device (D.faults store.old.dev) (D.faults store.new.dev) result }
{
    let end = u64::from(run.start) + u64::from(run.count);
    // Never: a free run lies in the group.
    if run.count == 0 || end > u64::from(store.geo.group_len(g)) {
        return Err(Stop::Memory);
    }
    space_left_of(
        store.edit.take_run(
            alloc,
            &mut store.dev,
            &mut store.cache,
            &store.geo,
            kinds,
            run,
            steps,
        ),
    )
}

/// Gives a run to the indexes of free space that are asked for, or leaves them for a cause. A run that
/// can't stand there is answered with Memory.
pub(crate) fn give_at<D: Device, L: Ledger>(
    alloc: Global,
    store: &mut Store<D>,
    g: u32,
    kinds: SpaceKinds,
    run: &SpanRec,
    steps: &mut Steps<L>,
) -> Result<SpaceLeft, Stop>
    requires ready { IsReady D.Device store.old }
    requires group { g < store.old.geo.agcount }
    requires opened { IsOpen D.Device g store.old }
    ensures opened { IsOpen D.Device g store.new }
    ensures edits { EditsStore D.Device store.old store.new steps.old steps.new }
    ensures cause { HasCause is_device (D.faults store.old.dev) (D.faults store.new.dev) result }
{
    let site = Site::of_group(&store.geo, g);
    // Never, where a chain frees blocks of the group alone, without its block 0.
    if !BnoKind::is_in_range(run, &site.bounds) {
        return Err(Stop::Memory);
    }
    space_left_of(
        store.edit.give_run(
            alloc,
            &mut store.dev,
            &mut store.cache,
            &store.geo,
            kinds,
            run,
            steps,
        ),
    )
}

// A chunk's record as one of this tree.
fn chunk_of(tree: InoTree, rec: &InoRec) -> AnyRec
    ensures goes { (at : Layout) (g : ℕ) → Fits at g IsRemove result }
{
    match tree {
        InoTree::Ino => AnyRec::Ino(*rec),
        InoTree::Fino => AnyRec::Fino(*rec),
    }
}

// The same, where it can stand in this group's tree.
fn fit_chunk(geo: &Geometry, g: u32, tree: InoTree, rec: &InoRec) -> Option<AnyRec>
    requires group { g < geo.now.agcount }
    ensures fits { IfSome result (Fits (layout geo.now) g IsInsert) }
{
    match tree {
        InoTree::Ino => fit_ino(geo, g, rec),
        InoTree::Fino => fit_fino(geo, g, rec),
    }
}

fn fit_ino(geo: &Geometry, g: u32, rec: &InoRec) -> Option<AnyRec>
    requires group { g < geo.now.agcount }
    ensures fits { IfSome result (Fits (layout geo.now) g IsInsert) }
{
    let site = Site::of_group(geo, g);
    if !InoKind::is_in_range(rec, &site.bounds) {
        return None;
    }
    if !InoKind::is_supported(rec) {
        return None;
    }
    Some(AnyRec::Ino(*rec))
}

fn fit_fino(geo: &Geometry, g: u32, rec: &InoRec) -> Option<AnyRec>
    requires group { g < geo.now.agcount }
    ensures fits { IfSome result (Fits (layout geo.now) g IsInsert) }
{
    let site = Site::of_group(geo, g);
    if !FinoKind::is_in_range(rec, &site.bounds) {
        return None;
    }
    if !FinoKind::is_supported(rec) {
        return None;
    }
    Some(AnyRec::Fino(*rec))
}

// Puts a record into its tree.
fn put_rec<D: Device, L: Ledger>(
    alloc: Global,
    store: &mut Store<D>,
    g: u32,
    rec: AnyRec,
    steps: &mut Steps<L>,
) -> Result<Option<Cause>, Stop>
    requires ready { IsReady D.Device store.old }
    requires group { g < store.old.geo.agcount }
    requires opened { IsOpen D.Device g store.old }
    requires fits { Fits (layout store.old.geo) g IsInsert rec }
    ensures opened { IsOpen D.Device g store.new }
    ensures edits { EditsStore D.Device store.old store.new steps.old steps.new }
    ensures cause { HasCause is_device (D.faults store.old.dev) (D.faults store.new.dev) result }
{
    left_of(
        store.edit.put(
            alloc,
            &mut store.dev,
            &mut store.cache,
            &store.geo,
            rec,
            steps,
        ),
    )
}

// Takes a record out of its tree.
fn cut_rec<D: Device, L: Ledger>(
    alloc: Global,
    store: &mut Store<D>,
    g: u32,
    rec: AnyRec,
    steps: &mut Steps<L>,
) -> Result<Option<Cause>, Stop>
    requires ready { IsReady D.Device store.old }
    requires group { g < store.old.geo.agcount }
    requires opened { IsOpen D.Device g store.old }
    requires fits { Fits (layout store.old.geo) g IsRemove rec }
    ensures opened { IsOpen D.Device g store.new }
    ensures edits { EditsStore D.Device store.old store.new steps.old steps.new }
    ensures cause { HasCause is_device (D.faults store.old.dev) (D.faults store.new.dev) result }
{
    left_of(
        store.edit.cut(
            alloc,
            &mut store.dev,
            &mut store.cache,
            &store.geo,
            rec,
            steps,
        ),
    )
}

// Puts a record in the place of another.
fn turn_rec<D: Device, L: Ledger>(
    alloc: Global,
    store: &mut Store<D>,
    g: u32,
    gone: AnyRec,
    rec: AnyRec,
    steps: &mut Steps<L>,
) -> Result<Option<Cause>, Stop>
    requires ready { IsReady D.Device store.old }
    requires group { g < store.old.geo.agcount }
    requires opened { IsOpen D.Device g store.old }
    requires gone { Fits (layout store.old.geo) g IsRemove gone }
    requires fits { Fits (layout store.old.geo) g IsInsert rec }
    ensures opened { IsOpen D.Device g store.new }
    ensures edits { EditsStore D.Device store.old store.new steps.old steps.new }
    ensures cause { HasCause is_device (D.faults store.old.dev) (D.faults store.new.dev) result }
{
    left_of(
        store.edit.exchange(
            alloc,
            &mut store.dev,
            &mut store.cache,
            &store.geo,
            gone,
            rec,
            steps,
        ),
    )
}

// Puts a chunk's record into a tree.
fn put_chunk<D: Device, L: Ledger>(
    alloc: Global,
    store: &mut Store<D>,
    g: u32,
    tree: InoTree,
    rec: &InoRec,
    steps: &mut Steps<L>,
) -> Result<Option<Cause>, Stop>
    requires ready { IsReady D.Device store.old }
    requires group { g < store.old.geo.agcount }
    requires opened { IsOpen D.Device g store.old }
    ensures opened { IsOpen D.Device g store.new }
    ensures edits { EditsStore D.Device store.old store.new steps.old steps.new }
    ensures cause { HasCause is_device (D.faults store.old.dev) (D.faults store.new.dev) result }
{
    // Never None, where the record is made of one that was read, or of a run of the group.
    match fit_chunk(&store.geo, g, tree, rec) {
        Some(any) => put_rec(alloc, store, g, any, steps),
        None => Err(Stop::Memory),
    }
}

// Takes a chunk's record out of a tree.
fn cut_chunk<D: Device, L: Ledger>(
    alloc: Global,
    store: &mut Store<D>,
    g: u32,
    tree: InoTree,
    rec: &InoRec,
    steps: &mut Steps<L>,
) -> Result<Option<Cause>, Stop>
    requires ready { IsReady D.Device store.old }
    requires group { g < store.old.geo.agcount }
    requires opened { IsOpen D.Device g store.old }
    ensures opened { IsOpen D.Device g store.new }
    ensures edits { EditsStore D.Device store.old store.new steps.old steps.new }
    ensures cause { HasCause is_device (D.faults store.old.dev) (D.faults store.new.dev) result }
{
    cut_rec(alloc, store, g, chunk_of(tree, rec), steps)
}

// Puts a chunk's record in the place of another.
fn turn_chunk<D: Device, L: Ledger>(
    alloc: Global,
    store: &mut Store<D>,
    g: u32,
    tree: InoTree,
    gone: &InoRec,
    rec: &InoRec,
    steps: &mut Steps<L>,
) -> Result<Option<Cause>, Stop>
    requires ready { IsReady D.Device store.old }
    requires group { g < store.old.geo.agcount }
    requires opened { IsOpen D.Device g store.old }
    ensures opened { IsOpen D.Device g store.new }
    ensures edits { EditsStore D.Device store.old store.new steps.old steps.new }
    ensures cause { HasCause is_device (D.faults store.old.dev) (D.faults store.new.dev) result }
{
    // Never None, where the record is made of one that was read.
    match fit_chunk(&store.geo, g, tree, rec) {
        Some(any) => turn_rec(alloc, store, g, chunk_of(tree, gone), any, steps),
        None => Err(Stop::Memory),
    }
}

/// Edits an inode btree, or leaves it for a cause. A record that can't stand there is answered with Memory.
pub(crate) fn inos_at<D: Device, L: Ledger>(
    alloc: Global,
    store: &mut Store<D>,
    g: u32,
    tree: InoTree,
    edit: &ChunkEdit,
    steps: &mut Steps<L>,
) -> Result<Option<Cause>, Stop>
    requires ready { IsReady D.Device store.old }
    requires group { g < store.old.geo.agcount }
    requires opened { IsOpen D.Device g store.old }
    ensures opened { IsOpen D.Device g store.new }
    ensures edits { EditsStore D.Device store.old store.new steps.old steps.new }
    ensures cause { HasCause is_device (D.faults store.old.dev) (D.faults store.new.dev) result }
{
    match edit {
        ChunkEdit::Put(rec) => put_chunk(alloc, store, g, tree, rec, steps),
        ChunkEdit::Cut(rec) => cut_chunk(alloc, store, g, tree, rec, steps),
        ChunkEdit::Turn { gone, rec } => turn_chunk(alloc, store, g, tree, gone, rec, steps),
    }
}
