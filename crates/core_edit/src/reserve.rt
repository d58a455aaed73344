// A block that is reserved for a rebuild.
ghost use Rattle.std.specs.Prelude.{◌≡◌, ◌<◌, option_map, IfOk, OnOk};
ghost use Rattle.std.specs.List.{slice_get};
ghost use Rattle.ag_headers.specs.Ring.{entries};
ghost use Rattle.blk_device.specs.Causes.{HasCause};
ghost use Rattle.core_edit.specs.Open.{is_device};
ghost use Rattle.core_edit.specs.Ready.{IsReady, KeepsStore};
ghost use Rattle.core_edit.specs.Opened.{EditsStore, IsOpen};

use crate::edits::{Turn, add_owner, begin, take_listed, take_space, turn_owner};
use crate::place::{EditPlace, IndexesLeft, Reserved, Spare};
use crate::{SpaceLeft, Stop, Store};
use blk_device::Device;
use block_reap::unit_owner;
use byte_fields::Steps;
use fs_model::{Cause, Unit};
use rmap_recs::{Owner, RmapRec};
use span_recs::SpanRec;
use std::alloc::Global;
use std::sync::ledger::Ledger;

// A block with an owner that isn't a file.
fn one_block(block: u32, owner: Owner) -> RmapRec {
    RmapRec {
        start: block,
        count: 1,
        owner: owner.number(),
        word: 0,
    }
}

// Whether reverse mappings note what a unit reserves: not while they are rebuilt, and not where they are
// sick.
fn does_rmap_note(place: &EditPlace) -> bool {
    match place.unit {
        Unit::Rmap => false,
        Unit::Inode | Unit::Free | Unit::Refc => !place.sick.rmap,
    }
}

// A block of the free list gets the unit's owner in reverse mappings, where these note it and that isn't
// the group.
fn follow_listed<D: Device, L: Ledger>(
    alloc: Global,
    store: &mut Store<D>,
    place: &EditPlace,
    block: u32,
    steps: &mut Steps<L>,
) -> Result<Option<Cause>, Stop>
    requires ready { IsReady D.Device store.old }
    requires group { place.now.group < store.old.geo.agcount }
    requires opened { IsOpen D.Device place.now.group store.old }
    ensures opened { IsOpen D.Device place.now.group store.new }
    ensures edits { EditsStore D.Device store.old store.new steps.old steps.new }
    ensures cause { HasCause is_device (D.faults store.old.dev) (D.faults store.new.dev) result }
{
    let turn = Turn {
        old: one_block(block, Owner::Ag),
        new: one_block(block, unit_owner(place.unit)),
    };
    if !does_rmap_note(place) || turn.old.owner == turn.new.owner {
        return Ok(None);
    }
    turn_owner(alloc, store, place.group, &turn, steps)
}

/// Opens an edit of the group and takes the free list's first block for the unit; None exactly where the
/// list is empty. Reverse mappings turn the block's owner from the group to the unit's, but not in an
/// Rmap unit, where they are sick, or where both are the same. Where they meet a fault they are left
/// (XFS Online Fsck Design, "Reserving New B+Tree Blocks").
pub fn reserve_listed<D: Device, L: Ledger>(
    alloc: Global,
    store: &mut Store<D>,
    place: &EditPlace,
    steps: &mut Steps<L>,
) -> Result<Option<Reserved>, Stop>
    requires ready { IsReady D.Device store.old }
    requires group { place.now.group < store.old.geo.agcount }
    ensures first { IfOk result (λ reserved. option_map (λ r. r.block) reserved ≡ slice_get (entries place.now.heads.list) 0) }
    ensures ready { IsReady D.Device store.new }
    ensures keeps { KeepsStore D.Device store.old store.new }
    ensures opened { OnOk result (IsOpen D.Device place.now.group store.new) }
    ensures edits { EditsStore D.Device store.old store.new steps.old steps.new }
    ensures cause { HasCause is_device (D.faults store.old.dev) (D.faults store.new.dev) result }
{
    begin(store, place, steps)?;
    let Some(block) = take_listed(store, place.group) else {
        return Ok(None);
    };
    let rmap = follow_listed(alloc, store, place, block, steps)?;
    Ok(Some(Reserved {
        block,
        left: IndexesLeft {
            bno: None,
            cnt: None,
            rmap,
        },
    }))
}

// The block leaves Bno and Cnt, but not where these are rebuilt.
fn leave_space<D: Device, L: Ledger>(
    alloc: Global,
    store: &mut Store<D>,
    place: &EditPlace,
    block: u32,
    steps: &mut Steps<L>,
) -> Result<SpaceLeft, Stop>
    requires ready { IsReady D.Device store.old }
    requires group { place.now.group < store.old.geo.agcount }
    requires opened { IsOpen D.Device place.now.group store.old }
    ensures opened { IsOpen D.Device place.now.group store.new }
    ensures edits { EditsStore D.Device store.old store.new steps.old steps.new }
    ensures cause { HasCause is_device (D.faults store.old.dev) (D.faults store.new.dev) result }
{
    match place.unit {
        Unit::Free => Ok(SpaceLeft {
            bno: None,
            cnt: None,
        }),
        Unit::Inode | Unit::Rmap | Unit::Refc => {
            let run = SpanRec {
                start: block,
                count: 1,
            };
            take_space(alloc, store, place, &run, steps)
        }
    }
}

// A spare block gets the unit's owner in reverse mappings, where these note it.
fn gain_owner<D: Device, L: Ledger>(
    alloc: Global,
    store: &mut Store<D>,
    place: &EditPlace,
    block: u32,
    steps: &mut Steps<L>,
) -> Result<Option<Cause>, Stop>
    requires ready { IsReady D.Device store.old }
    requires group { place.now.group < store.old.geo.agcount }
    requires opened { IsOpen D.Device place.now.group store.old }
    ensures opened { IsOpen D.Device place.now.group store.new }
    ensures edits { EditsStore D.Device store.old store.new steps.old steps.new }
    ensures cause { HasCause is_device (D.faults store.old.dev) (D.faults store.new.dev) result }
{
    if !does_rmap_note(place) {
        return Ok(None);
    }
    let run = one_block(block, unit_owner(place.unit));
    add_owner(alloc, store, place.group, &run, steps)
}

// Why no index would note a spare block: reverse mappings are left, and free space, where it is edited
// for the unit, is left too.
fn unnoted(unit: Unit, bno: Option<Cause>, rmap: Option<Cause>) -> Option<Cause> {
    match unit {
        Unit::Free => rmap,
        Unit::Inode | Unit::Refc => { if bno.is_some() { rmap } else { None } }
        Unit::Rmap => None,
    }
}

/// Opens an edit of the group and takes a spare block for the unit: it leaves both indexes of free space,
/// but in a Free unit, and gets the unit's owner in reverse mappings, but in an Rmap unit or where they
/// are sick. An index that meets a fault is left. Where none would note the block, nothing is changed:
/// in a Free unit where reverse mappings are left, in an Inode or Refc unit where Bno is too
/// (XFS Online Fsck Design, "Reserving New B+Tree Blocks").
pub fn reserve_spare<D: Device, L: Ledger>(
    alloc: Global,
    store: &mut Store<D>,
    place: &EditPlace,
    block: u32,
    steps: &mut Steps<L>,
) -> Result<Spare, Stop>
    requires ready { IsReady D.Device store.old }
    requires group { place.now.group < store.old.geo.agcount }
    ensures ready { IsReady D.Device store.new }
    ensures keeps { KeepsStore D.Device store.old store.new }
    ensures opened { OnOk result (IsOpen D.Device place.now.group store.new) }
    ensures edits { EditsStore D.Device store.old store.new steps.old steps.new }
    ensures cause { HasCause is_device (D.faults store.old.dev) (D.faults store.new.dev) result }
{
    begin(store, place, steps)?;
    let space = leave_space(alloc, store, place, block, steps)?;
    let rmap = gain_owner(alloc, store, place, block, steps)?;
    match unnoted(place.unit, space.bno, rmap) {
        Some(cause) => {
            begin(store, place, steps)?;
            Ok(Spare::Unnoted(cause))
        }
        None => Ok(Spare::Noted(IndexesLeft {
            bno: space.bno,
            cnt: space.cnt,
            rmap,
        })),
    }
}
