// A run that is reaped from limbo.
ghost use Rattle.std.specs.Prelude.{◌≡◌, ◌<◌, IfOk, OnOk};
ghost use Rattle.blk_device.specs.Causes.{HasCause};
ghost use Rattle.core_edit.specs.Open.{is_device};
ghost use Rattle.core_edit.specs.Ready.{IsReady, KeepsStore};
ghost use Rattle.core_edit.specs.Opened.{EditsStore, IsOpen};
ghost use Rattle.core_edit.specs.Owned.{IsAloneIn, IsOwned, WhereFreed};

use crate::edits::{begin, cut_owner, give_space};
use crate::owners::{Owners, owners_over};
use crate::place::{EditPlace, IndexesLeft, Reap};
use crate::{SpaceLeft, Stop, Store};
use blk_device::Device;
use block_reap::LimboRun;
use byte_fields::Steps;
use fs_model::Cause;
use rmap_recs::RmapRec;
use span_recs::SpanRec;
use std::alloc::Global;
use std::sync::ledger::Ledger;

// The run goes to both indexes of free space, but where one is sick, or where another owner has a block
// of it.
fn free_run<D: Device, L: Ledger>(
    alloc: Global,
    store: &mut Store<D>,
    place: &EditPlace,
    run: &LimboRun,
    steps: &mut Steps<L>,
) -> Result<SpaceLeft, Stop>
    requires ready { IsReady D.Device store.old }
    requires group { place.now.group < store.old.geo.agcount }
    requires opened { IsOpen D.Device place.now.group store.old }
    ensures opened { IsOpen D.Device place.now.group store.new }
    ensures edits { EditsStore D.Device store.old store.new steps.old steps.new }
    ensures cause { HasCause is_device (D.faults store.old.dev) (D.faults store.new.dev) result }
{
    if place.sick.bno || place.sick.cnt {
        return Ok(SpaceLeft {
            bno: None,
            cnt: None,
        });
    }
    let span = SpanRec {
        start: run.start,
        count: run.count,
    };
    give_space(alloc, store, place.group, &span, steps)
}

// The run's owner leaves it in reverse mappings.
fn cut_run<D: Device, L: Ledger>(
    alloc: Global,
    store: &mut Store<D>,
    place: &EditPlace,
    run: &LimboRun,
    steps: &mut Steps<L>,
) -> Result<Option<Cause>, Stop>
    requires ready { IsReady D.Device store.old }
    requires group { place.now.group < store.old.geo.agcount }
    requires opened { IsOpen D.Device place.now.group store.old }
    ensures opened { IsOpen D.Device place.now.group store.new }
    ensures edits { EditsStore D.Device store.old store.new steps.old steps.new }
    ensures cause { HasCause is_device (D.faults store.old.dev) (D.faults store.new.dev) result }
{
    let mapping = RmapRec {
        start: run.start,
        count: run.count,
        owner: run.owner,
        word: 0,
    };
    cut_owner(alloc, store, place.group, &mapping, steps)
}

// Its owner leaves a run that another one has a block of, too: nothing is freed.
fn reap_owned<D: Device, L: Ledger>(
    alloc: Global,
    store: &mut Store<D>,
    place: &EditPlace,
    run: &LimboRun,
    steps: &mut Steps<L>,
) -> Result<Reap, Stop>
    requires ready { IsReady D.Device store.old }
    requires group { place.now.group < store.old.geo.agcount }
    requires opened { IsOpen D.Device place.now.group store.old }
    ensures opened { IsOpen D.Device place.now.group store.new }
    ensures edits { EditsStore D.Device store.old store.new steps.old steps.new }
    ensures cause { HasCause is_device (D.faults store.old.dev) (D.faults store.new.dev) result }
    ensures owned { IfOk result IsOwned }
{
    let rmap = cut_run(alloc, store, place, run, steps)?;
    Ok(Reap::Done {
        left: IndexesLeft {
            bno: None,
            cnt: None,
            rmap,
        },
        is_owned: true,
    })
}

// Its owner leaves a run that nobody else has, and it is freed.
fn reap_alone<D: Device, L: Ledger>(
    alloc: Global,
    store: &mut Store<D>,
    place: &EditPlace,
    run: &LimboRun,
    steps: &mut Steps<L>,
) -> Result<Reap, Stop>
    requires ready { IsReady D.Device store.old }
    requires group { place.now.group < store.old.geo.agcount }
    requires opened { IsOpen D.Device place.now.group store.old }
    ensures opened { OnOk result (IsOpen D.Device place.now.group store.new) }
    ensures edits { EditsStore D.Device store.old store.new steps.old steps.new }
    ensures cause { HasCause is_device (D.faults store.old.dev) (D.faults store.new.dev) result }
{
    let rmap = cut_run(alloc, store, place, run, steps)?;
    let space = free_run(alloc, store, place, run, steps)?;
    Ok(Reap::Done {
        left: IndexesLeft {
            bno: space.bno,
            cnt: space.cnt,
            rmap,
        },
        is_owned: false,
    })
}

/// Opens an edit of the group and reaps a run of one owner from limbo, where reverse mappings are good:
/// the owner leaves it there, also where a fault leaves them, and the run goes to both indexes of free
/// space, but not where one of them is sick or another owner has a block of it. A bad block that is met
/// while owners are asked is the answer, and then nothing is changed. Where the answer is that no other
/// owner was found, no record of reverse mappings gives a block of the run to one
/// (XFS Online Fsck Design, "Reaping After Repairing Ondisk Metadata").
pub fn reap_run<D: Device, L: Ledger>(
    alloc: Global,
    store: &mut Store<D>,
    place: &EditPlace,
    run: &LimboRun,
    steps: &mut Steps<L>,
) -> Result<Reap, Stop>
    requires ready { IsReady D.Device store.old }
    requires group { place.now.group < store.old.geo.agcount }
    ensures ready { IsReady D.Device store.new }
    ensures keeps { KeepsStore D.Device store.old store.new }
    ensures opened { OnOk result (IsOpen D.Device place.now.group store.new) }
    ensures edits { EditsStore D.Device store.old store.new steps.old steps.new }
    ensures cause { HasCause is_device (D.faults store.old.dev) (D.faults store.new.dev) result }
    ensures alone { IfOk result (WhereFreed (IsAloneIn D.Device store.old place.now run.now)) }
{
    begin(store, place, steps)?;
    match owners_over(store, place, run, steps)? {
        Owners::Met(cause) => Ok(Reap::Met(cause)),
        Owners::Other => reap_owned(alloc, store, place, run, steps),
        Owners::Alone => reap_alone(alloc, store, place, run, steps),
    }
}
