// The edits of one index each, over a store, and the commit.
ghost use Rattle.std.specs.Prelude.{◌≡◌, ◌<◌, ℕ, OnOk, IfErr};
ghost use Rattle.std.specs.List.{slice_get};
ghost use Rattle.ag_headers.specs.Ring.{entries};
ghost use Rattle.byte_fields.specs.Steps.{StepCount};
ghost use Rattle.blk_device.specs.Causes.{HasCause};
ghost use Rattle.core_edit.specs.Open.{is_device};
ghost use Rattle.core_edit.specs.declared.stop.Stop.TheVariants as stops;
ghost use Rattle.core_edit.specs.Ready.{HasRoom, IsReady, KeepsStore};
ghost use Rattle.core_edit.specs.Opened.{EditsStore, IsOpen};

use crate::place::EditPlace;
use crate::{SpaceKinds, SpaceLeft, Stop, Store};
use blk_device::Device;
use byte_fields::Steps;
use fs_model::Cause;
use rmap_recs::{RmapKind, RmapRec};
use sblock::RecKind;
use span_recs::{BnoKind, SpanRec};
use std::alloc::Global;
use std::sync::ledger::Ledger;
use tree_defs::Site;

/// Begins the edit of the place's group.
pub fn begin<D: Device, L: Ledger>(
    store: &mut Store<D>,
    place: &EditPlace,
    steps: &mut Steps<L>,
) -> Result<(), Stop>
    requires ready { IsReady D.Device store.old }
    requires group { place.now.group < store.old.geo.agcount }
    ensures opened { OnOk result (IsOpen D.Device place.now.group store.new) }
    ensures heads { OnOk result (store.new.edit.heads ≡ place.now.heads) }
    ensures edits { EditsStore D.Device store.old store.new steps.old steps.new }
    ensures cause { HasCause is_device (D.faults store.old.dev) (D.faults store.new.dev) result }
{
    store.edit.open(
        &mut store.dev,
        &mut store.cache,
        &store.geo,
        place.group,
        &place.heads,
        None,
        steps,
    )
}

/// Takes the first block off the free list; None exactly where that is empty.
pub(crate) fn take_listed<D: Device>(store: &mut Store<D>, g: u32) -> Option<u32>
    requires ready { IsReady D.Device store.old }
    requires opened { IsOpen D.Device g store.old }
    ensures first { result ≡ slice_get (entries store.old.edit.heads.list) 0 }
    ensures opened { IsOpen D.Device g store.new }
    ensures edits { (steps : StepCount) → EditsStore D.Device store.old store.new steps steps }
    ensures calm { store.new.dev ≡ store.old.dev }
{
    store.edit.take_block()
}

// Why an index was left, where it was; a failure and memory stay what they are.
fn left_of(answer: Result<(), Stop>) -> Result<Option<Cause>, Stop>
    ensures { (before now : ℕ) → HasCause is_device before now answer → HasCause is_device before now result }
{
    match answer {
        Ok(()) => Ok(None),
        Err(stop) => match stop {
            Stop::Left { kind: _, cause } => Ok(Some(cause)),
            Stop::Failed => Err(Stop::Failed),
            Stop::Memory => Err(Stop::Memory),
        },
    }
}

// Where the records by start can't be read, neither index of free space is edited: both are left for
// what was met there.
fn space_left_of(answer: Result<SpaceLeft, Stop>) -> Result<SpaceLeft, Stop>
    ensures { (before now : ℕ) → HasCause is_device before now answer → HasCause is_device before now result }
{
    match answer {
        Ok(left) => Ok(left),
        Err(stop) => match stop {
            Stop::Left { kind: _, cause } => Ok(SpaceLeft {
                bno: Some(cause),
                cnt: Some(cause),
            }),
            Stop::Failed => Err(Stop::Failed),
            Stop::Memory => Err(Stop::Memory),
        },
    }
}

/// Gives a run its owner in reverse mappings, or leaves these for a cause. A run that can't stand there
/// is answered with Memory.
pub(crate) fn add_owner<D: Device, L: Ledger>(
    alloc: Global,
    store: &mut Store<D>,
    g: u32,
    run: &RmapRec,
    steps: &mut Steps<L>,
) -> Result<Option<Cause>, Stop>
    requires ready { IsReady D.Device store.old }
    requires group { g < store.old.geo.agcount }
    requires opened { IsOpen D.Device g store.old }
    ensures opened { IsOpen D.Device g store.new }
    ensures edits { EditsStore D.Device store.old store.new steps.old steps.new }
    ensures cause { HasCause is_device (D.faults store.old.dev) (D.faults store.new.dev) result }
{
    let site = Site::of_group(&store.geo, g);
    // Never, where the run lies in the group: the choice of the block tells so.
    if !RmapKind::is_in_range(run, &site.bounds) {
        return Err(Stop::Memory);
    }
    left_of(
        store.edit.rmap_add(
            alloc,
            &mut store.dev,
            &mut store.cache,
            &store.geo,
            run,
            steps,
        ),
    )
}

/// Takes a run's owner from it in reverse mappings, or leaves these for a cause. A run that can't stand
/// there is answered with Memory.
pub(crate) fn cut_owner<D: Device, L: Ledger>(
    alloc: Global,
    store: &mut Store<D>,
    g: u32,
    run: &RmapRec,
    steps: &mut Steps<L>,
) -> Result<Option<Cause>, Stop>
    requires ready { IsReady D.Device store.old }
    requires group { g < store.old.geo.agcount }
    requires opened { IsOpen D.Device g store.old }
    ensures opened { IsOpen D.Device g store.new }
    ensures edits { EditsStore D.Device store.old store.new steps.old steps.new }
    ensures cause { HasCause is_device (D.faults store.old.dev) (D.faults store.new.dev) result }
{
    let site = Site::of_group(&store.geo, g);
    // Never, where limbo has blocks of the group alone, with owners of a unit.
    if !RmapKind::is_in_range(run, &site.bounds) {
        return Err(Stop::Memory);
    }
    left_of(
        store.edit.rmap_cut(
            alloc,
            &mut store.dev,
            &mut store.cache,
            &store.geo,
            run,
            steps,
        ),
    )
}

/// Turns a block's owner in reverse mappings, which `turn` names before and after, or leaves these for a
/// cause. A run that can't stand there is answered with Memory.
pub(crate) fn turn_owner<D: Device, L: Ledger>(
    alloc: Global,
    store: &mut Store<D>,
    g: u32,
    turn: &Turn,
    steps: &mut Steps<L>,
) -> Result<Option<Cause>, Stop>
    requires ready { IsReady D.Device store.old }
    requires group { g < store.old.geo.agcount }
    requires opened { IsOpen D.Device g store.old }
    ensures opened { IsOpen D.Device g store.new }
    ensures edits { EditsStore D.Device store.old store.new steps.old steps.new }
    ensures cause { HasCause is_device (D.faults store.old.dev) (D.faults store.new.dev) result }
{
    let site = Site::of_group(&store.geo, g);
    // Never, where the free list has blocks of the group alone, as one that was decoded has.
    if !RmapKind::is_in_range(&turn.old, &site.bounds) {
        return Err(Stop::Memory);
    }
    if !RmapKind::is_in_range(&turn.new, &site.bounds) {
        return Err(Stop::Memory);
    }
    left_of(
        store.edit.rmap_turn(
            alloc,
            &mut store.dev,
            &mut store.cache,
            &store.geo,
            &turn.old,
            &turn.new,
            steps,
        ),
    )
}

/// A run with the owner that it had, and the same with the one that it gets.
#[derive(Clone, Copy)]
pub(crate) struct Turn {
    pub old: RmapRec,
    pub new: RmapRec,
}

/// Takes a run out of the indexes of free space that are asked for, or leaves them for a cause. A run that
/// can't stand there is answered with Memory.
pub(crate) fn take_space<D: Device, L: Ledger>(
    alloc: Global,
    store: &mut Store<D>,
    place: &EditPlace,
    run: &SpanRec,
    steps: &mut Steps<L>,
) -> Result<SpaceLeft, Stop>
    requires ready { IsReady D.Device store.old }
    requires group { place.now.group < store.old.geo.agcount }
    requires opened { IsOpen D.Device place.now.group store.old }
    ensures opened { IsOpen D.Device place.now.group store.new }
    ensures edits { EditsStore D.Device store.old store.new steps.old steps.new }
    ensures cause { HasCause is_device (D.faults store.old.dev) (D.faults store.new.dev) result }
{
    let end = u64::from(run.start) + u64::from(run.count);
    // Never: a spare block lies in the group.
    if run.count == 0 || end > u64::from(store.geo.group_len(place.group)) {
        return Err(Stop::Memory);
    }
    let kinds = SpaceKinds {
        bno: !place.sick.bno,
        cnt: !place.sick.cnt,
    };
    space_left_of(
        store.edit.take_run(
            alloc,
            &mut store.dev,
            &mut store.cache,
            &store.geo,
            kinds,
            run,
            steps,
        ),
    )
}

/// Gives a run to both indexes of free space, or leaves them for a cause. A run that can't stand there is
/// answered with Memory.
pub(crate) fn give_space<D: Device, L: Ledger>(
    alloc: Global,
    store: &mut Store<D>,
    g: u32,
    run: &SpanRec,
    steps: &mut Steps<L>,
) -> Result<SpaceLeft, Stop>
    requires ready { IsReady D.Device store.old }
    requires group { g < store.old.geo.agcount }
    requires opened { IsOpen D.Device g store.old }
    ensures opened { IsOpen D.Device g store.new }
    ensures edits { EditsStore D.Device store.old store.new steps.old steps.new }
    ensures cause { HasCause is_device (D.faults store.old.dev) (D.faults store.new.dev) result }
{
    let site = Site::of_group(&store.geo, g);
    // Never, where limbo has blocks of the group alone, without its block 0.
    if !BnoKind::is_in_range(run, &site.bounds) {
        return Err(Stop::Memory);
    }
    let kinds = SpaceKinds {
        bno: true,
        cnt: true,
    };
    space_left_of(
        store.edit.give_run(
            alloc,
            &mut store.dev,
            &mut store.cache,
            &store.geo,
            kinds,
            run,
            steps,
        ),
    )
}

/// Writes what was edited, as one commit: all of it or, where the device fails or a crash comes, perhaps
/// nothing. Failed is the only answer beside Ok; the store may then be asked no more, but its device and
/// its sizes stay.
pub fn commit<D: Device, L: Ledger>(
    store: &mut Store<D>,
    g: u32,
    steps: &mut Steps<L>,
) -> Result<(), Stop>
    requires ready { IsReady D.Device store.old }
    requires group { g < store.old.geo.agcount }
    requires opened { IsOpen D.Device g store.old }
    ensures ready { OnOk result (IsReady D.Device store.new) }
    ensures room { HasRoom D.Device store.new }
    ensures keeps { KeepsStore D.Device store.old store.new }
    ensures kind { IfErr result (λ stop. stop ≡ stops.Failed) }
    ensures cause { HasCause is_device (D.faults store.old.dev) (D.faults store.new.dev) result }
{
    store
        .edit
        .close(&mut store.dev, &mut store.cache, &store.geo, steps)
}
