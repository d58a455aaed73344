// The commit of a step's edits, and marks behind its entry.
ghost use Rattle.std.specs.Prelude.{◌≡◌, ◌≤◌, ◌<◌, ◌+◌, ◌++◌, OnOk};
ghost use Rattle.std.specs.Vec.{vec_capacity, vec_len};
ghost use Rattle.core_parts.specs.Common.Asks.{IsUsable};
ghost use Rattle.core_parts.specs.Keeps.{IsSteady};
ghost use Rattle.core_parts.specs.Safe.{IsKept};
ghost use Rattle.core_chains.specs.Steps.Entries.{mark_of};
ghost use Rattle.core_chains.specs.Write.Writes.{WriteAnswers};
ghost use Rattle.core_edit.specs.Opened.{IsOpen};

use crate::write::{commit_edit, freed_room, mark_kind, settle_edit};
use blk_device::Device;
use byte_fields::Steps;
use core_calls::WriteFault;
use core_parts::{Desk, GroupKept};
use fs_model::Cause;
use sblock::Kind;
use std::sync::ledger::Ledger;

// Writes what was edited, once limbo has room for what was freed.
fn write_roomy<D: Device, L: Ledger>(
    desk: &mut Desk<D>,
    kept: &mut GroupKept,
    g: u32,
    steps: &mut Steps<L>,
) -> Result<(), WriteFault>
    requires usable { IsUsable D.Device desk.old }
    requires group { g < desk.old.store.geo.agcount }
    requires opened { IsOpen D.Device g desk.old.store }
    requires kept { IsKept kept.old }
    ensures answers { WriteAnswers D.Device desk.old desk.new result }
    ensures book { OnOk result (desk.new.book ≡ desk.old.book) }
    ensures items { desk.new.book.journal.items ≡ desk.old.book.journal.items }
    ensures kept { IsKept kept.new }
{
    match commit_edit(desk, g, steps) {
        Ok(()) => {
            settle_edit(desk, kept);
            Ok(())
        }
        Err(fault) => Err(fault),
    }
}

/// Writes what was edited, as one commit, and keeps the group so: its heads, and in limbo what was freed
/// and the free list has no room for.
pub(crate) fn write_edit<D: Device, L: Ledger>(
    desk: &mut Desk<D>,
    kept: &mut GroupKept,
    g: u32,
    steps: &mut Steps<L>,
) -> Result<(), WriteFault>
    requires usable { IsUsable D.Device desk.old }
    requires group { g < desk.old.store.geo.agcount }
    requires opened { IsOpen D.Device g desk.old.store }
    requires kept { IsKept kept.old }
    ensures answers { WriteAnswers D.Device desk.old desk.new result }
    ensures book { OnOk result (desk.new.book ≡ desk.old.book) }
    ensures items { desk.new.book.journal.items ≡ desk.old.book.journal.items }
    ensures kept { IsKept kept.new }
{
    match freed_room(desk, kept) {
        Ok(()) => write_roomy(desk, kept, g, steps),
        Err(fault) => Err(fault),
    }
}

/// Marks a btree of a group that an edit left for a cause, if it did.
#[tactic(auto, using(core_parts::proofs::common::AskLemmas::steady_self, crate::proofs::steps::SaidLemmas::none_more))]
pub(crate) fn mark_if_left<D: Device>(
    desk: &mut Desk<D>,
    kept: &mut GroupKept,
    g: u32,
    kind: Kind,
    left: Option<Cause>,
)
    requires usable { IsUsable D.Device desk.old }
    requires room { vec_len desk.old.book.journal < vec_capacity desk.old.book.journal }
    ensures usable { IsUsable D.Device desk.new }
    ensures steady { IsSteady D.Device desk.old desk.new }
    ensures few { vec_len desk.new.book.journal ≤ vec_len desk.old.book.journal + 1 }
    ensures capacity { vec_capacity desk.new.book.journal ≡ vec_capacity desk.old.book.journal }
    ensures said { desk.new.book.journal.items ≡ desk.old.book.journal.items ++ mark_of g kind left }
    ensures kept { IsKept kept.old → IsKept kept.new }
{
    match left {
        Some(cause) => mark_kind(desk, kept, g, kind, cause),
        None => {}
    }
}
