// The calls on the device that these events make: each alone, and with its fault noted.
ghost use Rattle.std.specs.Prelude.{◌≡◌, ◌<◌, OnOk};
ghost use Rattle.blk_device.specs.Causes.{any_error};
ghost use Rattle.blk_device.specs.Crash.{IsDurable};
ghost use Rattle.blk_device.specs.declared.device.Region.TheVariants.{Image};
ghost use Rattle.core_parts.specs.Common.Asks.{Answers, IsUsable};
ghost use Rattle.core_edit.specs.Open.{is_device};
ghost use Rattle.core_parts.specs.Keeps.{IsAsked, failed_by};
ghost use Rattle.core_edit.specs.Opened.{IsOpen};

use blk_device::{Device, DeviceFailed, Region};
use block_reap::LimboRun;
use byte_fields::Steps;
use core_calls::ScrubFault;
use core_edit::{EditPlace, Reap, Stop, commit, open_edit, reap_run};
use core_parts::Desk;
use core_parts::common::stop_by;
use std::alloc::Global;
use std::sync::ledger::Ledger;

// Whether the device stopped a call.
fn is_failed(stop: &Stop) -> bool
    ensures { result ≡ is_device stop.now }
{
    matches!(stop, Stop::Failed)
}

// Begins an edit of the place's group.
#[tactic(auto, using(crate::proofs::CallLemmas::edits_asked, crate::proofs::CallLemmas::usable_ready))]
fn call_open<D: Device, L: Ledger>(
    desk: &mut Desk<D>,
    place: &EditPlace,
    steps: &mut Steps<L>,
) -> Result<(), Stop>
    requires usable { IsUsable D.Device desk.old }
    requires group { place.now.group < desk.old.store.geo.agcount }
    ensures asked { IsAsked D.Device (failed_by is_device result) desk.old desk.new }
    ensures opened { OnOk result (IsOpen D.Device place.now.group desk.new.store) }
{
    open_edit(&mut desk.store, place, steps)
}

// Writes what was edited.
#[tactic(auto, using(crate::proofs::CallLemmas::commit_asked, crate::proofs::CallLemmas::usable_ready))]
fn call_commit<D: Device, L: Ledger>(
    desk: &mut Desk<D>,
    g: u32,
    steps: &mut Steps<L>,
) -> Result<(), Stop>
    requires usable { IsUsable D.Device desk.old }
    requires group { g < desk.old.store.geo.agcount }
    requires opened { IsOpen D.Device g desk.old.store }
    ensures asked { IsAsked D.Device (failed_by is_device result) desk.old desk.new }
{
    commit(&mut desk.store, g, steps)
}

// Begins an edit of the place's group, and reaps a run.
#[tactic(auto, using(crate::proofs::CallLemmas::edits_asked, crate::proofs::CallLemmas::usable_ready))]
fn call_reap<D: Device, L: Ledger>(
    alloc: Global,
    desk: &mut Desk<D>,
    place: &EditPlace,
    run: &LimboRun,
    steps: &mut Steps<L>,
) -> Result<Reap, Stop>
    requires usable { IsUsable D.Device desk.old }
    requires group { place.now.group < desk.old.store.geo.agcount }
    ensures asked { IsAsked D.Device (failed_by is_device result) desk.old desk.new }
    ensures opened { OnOk result (IsOpen D.Device place.now.group desk.new.store) }
{
    reap_run(alloc, &mut desk.store, place, run, steps)
}

// Makes the image durable.
#[tactic(auto, using(crate::proofs::CallLemmas::sync_asked, crate::proofs::CallLemmas::sync_durable))]
fn call_sync<D: Device>(desk: &mut Desk<D>) -> Result<(), DeviceFailed>
    requires usable { IsUsable D.Device desk.old }
    ensures asked { IsAsked D.Device (failed_by any_error result) desk.old desk.new }
    ensures durable { OnOk result (IsDurable Image (D.content desk.new.store.dev) (D.may_hold_now desk.new.store.dev)) }
{
    desk.store.dev.sync(Region::Image)
}

/// Begins an edit of the place's group.
#[tactic(auto, using(crate::proofs::CallLemmas::asked_answers, crate::proofs::CallLemmas::stopped_answers))]
pub(crate) fn open_at<D: Device, L: Ledger>(
    desk: &mut Desk<D>,
    place: &EditPlace,
    steps: &mut Steps<L>,
) -> Result<(), ScrubFault>
    requires usable { IsUsable D.Device desk.old }
    requires group { place.now.group < desk.old.store.geo.agcount }
    ensures answers { Answers D.Device desk.old desk.new result }
    ensures book { OnOk result (desk.new.book ≡ desk.old.book) }
    ensures opened { OnOk result (IsOpen D.Device place.now.group desk.new.store) }
    ensures items { desk.new.book.journal.items ≡ desk.old.book.journal.items }
{
    match call_open(desk, place, steps) {
        Ok(()) => Ok(()),
        Err(stop) => Err(stop_by(desk, is_failed(&stop))),
    }
}

/// Writes what was edited, as one commit.
#[tactic(auto, using(crate::proofs::CallLemmas::asked_answers, crate::proofs::CallLemmas::stopped_answers))]
pub(crate) fn commit_at<D: Device, L: Ledger>(
    desk: &mut Desk<D>,
    g: u32,
    steps: &mut Steps<L>,
) -> Result<(), ScrubFault>
    requires usable { IsUsable D.Device desk.old }
    requires group { g < desk.old.store.geo.agcount }
    requires opened { IsOpen D.Device g desk.old.store }
    ensures answers { Answers D.Device desk.old desk.new result }
    ensures book { OnOk result (desk.new.book ≡ desk.old.book) }
    ensures items { desk.new.book.journal.items ≡ desk.old.book.journal.items }
{
    match call_commit(desk, g, steps) {
        Ok(()) => Ok(()),
        Err(stop) => Err(stop_by(desk, is_failed(&stop))),
    }
}

/// Begins an edit of the place's group, and reaps a run.
#[tactic(auto, using(crate::proofs::CallLemmas::asked_answers, crate::proofs::CallLemmas::stopped_answers))]
pub(crate) fn reap_at<D: Device, L: Ledger>(
    alloc: Global,
    desk: &mut Desk<D>,
    place: &EditPlace,
    run: &LimboRun,
    steps: &mut Steps<L>,
) -> Result<Reap, ScrubFault>
    requires usable { IsUsable D.Device desk.old }
    requires group { place.now.group < desk.old.store.geo.agcount }
    ensures answers { Answers D.Device desk.old desk.new result }
    ensures book { OnOk result (desk.new.book ≡ desk.old.book) }
    ensures opened { OnOk result (IsOpen D.Device place.now.group desk.new.store) }
    ensures items { desk.new.book.journal.items ≡ desk.old.book.journal.items }
{
    match call_reap(alloc, desk, place, run, steps) {
        Ok(reap) => Ok(reap),
        Err(stop) => Err(stop_by(desk, is_failed(&stop))),
    }
}

/// Makes the image durable.
#[tactic(auto, using(crate::proofs::CallLemmas::asked_answers, crate::proofs::CallLemmas::stopped_answers))]
pub(crate) fn sync_at<D: Device>(desk: &mut Desk<D>) -> Result<(), ScrubFault>
    requires usable { IsUsable D.Device desk.old }
    ensures answers { Answers D.Device desk.old desk.new result }
    ensures drain { OnOk result (desk.new.drain ≡ desk.old.drain) }
    ensures items { desk.new.book.journal.items ≡ desk.old.book.journal.items }
    ensures durable { OnOk result (IsDurable Image (D.content desk.new.store.dev) (D.may_hold_now desk.new.store.dev)) }
{
    match call_sync(desk) {
        Ok(()) => Ok(()),
        Err(_) => Err(stop_by(desk, true)),
    }
}
