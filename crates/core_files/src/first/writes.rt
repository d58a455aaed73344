// Cores of inodes, written in one commit of their blocks alone.
ghost use Rattle.std.specs.Prelude.{◌≡◌, IfSome, OnOk};
ghost use Rattle.blk_device.specs.Causes.{any_error};
ghost use Rattle.blk_device.specs.declared.device.Region.TheVariants.{Image};
ghost use Rattle.core_parts.specs.Common.Asks.{IsUsable};
ghost use Rattle.core_parts.specs.Keeps.{IsAsked, IsSteady, failed_by};
ghost use Rattle.core_chains.specs.Write.Writes.{WriteAnswers};
ghost use Rattle.file_cores.specs.Looks.{failed_in};
ghost use Rattle.geom.specs.Places.{HasInode};
ghost use Rattle.meta_txn.specs.Joined.{AreBelow};

use blk_device::Device;
use byte_fields::Steps;
use core_calls::WriteFault;
use core_chains::chains::file_fault;
use core_chains::write::writer_stop;
use core_parts::Desk;
use dinode_core::Core3;
use file_cores::{FileStop, put_file};
use geom::InodePlace;
use meta_txn::TxnFault;
use std::sync::ledger::Ledger;

/// A core, and where its inode lies.
#[derive(Clone, Copy)]
pub struct PlacedCore {
    pub place: InodePlace,
    pub core: Core3,
}

// Lets go of what was edited.
#[tactic(auto, using(core_chains::proofs::write::CallLemmas::back_usable, core_chains::proofs::write::CallLemmas::back_steady))]
fn start_cores<D: Device>(desk: &mut Desk<D>)
    requires usable { IsUsable D.Device desk.old }
    ensures usable { IsUsable D.Device desk.new }
    ensures steady { IsSteady D.Device desk.old desk.new }
    ensures book { desk.new.book ≡ desk.old.book }
    ensures geometry { desk.new.store.geo ≡ desk.old.store.geo }
    ensures below { AreBelow (D.blocks desk.new.store.dev Image) desk.new.store.edit.txn.blocks }
{
    desk.store.edit.txn.abandon();
}

// Puts a core over that of its inode, in the transaction.
#[tactic(auto, using(crate::proofs::first::WriteLemmas::put_asked, crate::proofs::first::WriteLemmas::put_below, core_chains::proofs::chains::FindLemmas::usable_room))]
fn call_put<D: Device, L: Ledger>(
    desk: &mut Desk<D>,
    placed: &PlacedCore,
    steps: &mut Steps<L>,
) -> Result<(), FileStop>
    requires usable { IsUsable D.Device desk.old }
    requires place { HasInode desk.old.store.geo placed.now.place }
    requires below { AreBelow (D.blocks desk.old.store.dev Image) desk.old.store.edit.txn.blocks }
    ensures asked { IsAsked D.Device (failed_in result) desk.old desk.new }
    ensures below { OnOk result (AreBelow (D.blocks desk.new.store.dev Image) desk.new.store.edit.txn.blocks) }
{
    put_file(
        &mut desk.store.dev,
        &mut desk.store.cache,
        &mut desk.store.edit.txn,
        &desk.store.geo,
        placed.place,
        &placed.core,
        steps,
    )
}

// Puts a core over that of its inode.
#[tactic(auto, using(core_chains::proofs::write::CallLemmas::asked_answers, core_chains::proofs::write::CallLemmas::stopped_answers, core_parts::proofs::common::AskLemmas::asked_stopped))]
fn put_core<D: Device, L: Ledger>(
    desk: &mut Desk<D>,
    placed: &PlacedCore,
    steps: &mut Steps<L>,
) -> Result<(), WriteFault>
    requires usable { IsUsable D.Device desk.old }
    requires place { HasInode desk.old.store.geo placed.now.place }
    requires below { AreBelow (D.blocks desk.old.store.dev Image) desk.old.store.edit.txn.blocks }
    ensures answers { WriteAnswers D.Device desk.old desk.new result }
    ensures book { OnOk result (desk.new.book ≡ desk.old.book) }
    ensures items { desk.new.book.journal.items ≡ desk.old.book.journal.items }
    ensures geometry { desk.new.store.geo ≡ desk.old.store.geo }
    ensures below { OnOk result (AreBelow (D.blocks desk.new.store.dev Image) desk.new.store.edit.txn.blocks) }
{
    match call_put(desk, placed, steps) {
        Ok(()) => Ok(()),
        Err(stop) => Err(file_fault(desk, stop)),
    }
}

// Writes what the transaction has.
#[tactic(auto, using(crate::proofs::first::WriteLemmas::written_asked, core_chains::proofs::chains::FindLemmas::usable_room))]
fn call_write<D: Device, L: Ledger>(
    desk: &mut Desk<D>,
    steps: &mut Steps<L>,
) -> Result<(), TxnFault>
    requires usable { IsUsable D.Device desk.old }
    requires below { AreBelow (D.blocks desk.old.store.dev Image) desk.old.store.edit.txn.blocks }
    ensures asked { IsAsked D.Device (failed_by any_error result) desk.old desk.new }
{
    desk.store
        .edit
        .txn
        .commit(&mut desk.store.dev, &mut desk.store.cache, steps)
}

// Writes what the transaction has, as one commit.
#[tactic(auto, using(core_chains::proofs::write::CallLemmas::asked_answers, core_chains::proofs::write::CallLemmas::stopped_answers, core_parts::proofs::common::AskLemmas::asked_stopped))]
fn write_cores<D: Device, L: Ledger>(
    desk: &mut Desk<D>,
    steps: &mut Steps<L>,
) -> Result<(), WriteFault>
    requires usable { IsUsable D.Device desk.old }
    requires below { AreBelow (D.blocks desk.old.store.dev Image) desk.old.store.edit.txn.blocks }
    ensures answers { WriteAnswers D.Device desk.old desk.new result }
    ensures book { OnOk result (desk.new.book ≡ desk.old.book) }
    ensures items { desk.new.book.journal.items ≡ desk.old.book.journal.items }
    ensures geometry { desk.new.store.geo ≡ desk.old.store.geo }
{
    match call_write(desk, steps) {
        Ok(()) => Ok(()),
        Err(_) => Err(writer_stop(desk, true)),
    }
}

// Puts a core into the transaction, and writes that.
#[tactic(auto, using(core_chains::proofs::write::PartLemmas::answers_on))]
fn put_and_write<D: Device, L: Ledger>(
    desk: &mut Desk<D>,
    placed: &PlacedCore,
    steps: &mut Steps<L>,
) -> Result<(), WriteFault>
    requires usable { IsUsable D.Device desk.old }
    requires place { HasInode desk.old.store.geo placed.now.place }
    requires below { AreBelow (D.blocks desk.old.store.dev Image) desk.old.store.edit.txn.blocks }
    ensures answers { WriteAnswers D.Device desk.old desk.new result }
    ensures book { OnOk result (desk.new.book ≡ desk.old.book) }
    ensures items { desk.new.book.journal.items ≡ desk.old.book.journal.items }
    ensures geometry { desk.new.store.geo ≡ desk.old.store.geo }
{
    put_core(desk, placed, steps)?;
    write_cores(desk, steps)
}

/// Writes a core over that of its inode, in one commit of the inode's block alone
/// (XFS Algorithms and Data Structures, "On-disk Inode").
#[tactic(auto, using(crate::proofs::first::WriteLemmas::steady_answers))]
pub fn write_core<D: Device, L: Ledger>(
    desk: &mut Desk<D>,
    placed: &PlacedCore,
    steps: &mut Steps<L>,
) -> Result<(), WriteFault>
    requires usable { IsUsable D.Device desk.old }
    requires place { HasInode desk.old.store.geo placed.now.place }
    ensures answers { WriteAnswers D.Device desk.old desk.new result }
    ensures book { OnOk result (desk.new.book ≡ desk.old.book) }
    ensures items { desk.new.book.journal.items ≡ desk.old.book.journal.items }
    ensures geometry { desk.new.store.geo ≡ desk.old.store.geo }
{
    start_cores(desk);
    put_and_write(desk, placed, steps)
}

// Puts the second core, where there is one, and writes both.
#[tactic(auto, using(core_chains::proofs::write::PartLemmas::answers_on))]
fn put_second<D: Device, L: Ledger>(
    desk: &mut Desk<D>,
    second: &Option<PlacedCore>,
    steps: &mut Steps<L>,
) -> Result<(), WriteFault>
    requires usable { IsUsable D.Device desk.old }
    requires place { IfSome second.now (λ p. HasInode desk.old.store.geo p.place) }
    requires below { AreBelow (D.blocks desk.old.store.dev Image) desk.old.store.edit.txn.blocks }
    ensures answers { WriteAnswers D.Device desk.old desk.new result }
    ensures book { OnOk result (desk.new.book ≡ desk.old.book) }
    ensures items { desk.new.book.journal.items ≡ desk.old.book.journal.items }
    ensures geometry { desk.new.store.geo ≡ desk.old.store.geo }
{
    match second {
        Some(placed) => put_and_write(desk, placed, steps),
        None => write_cores(desk, steps),
    }
}

// Puts both cores into the transaction, and writes that.
#[tactic(auto, using(core_chains::proofs::write::PartLemmas::answers_on, crate::proofs::first::WriteLemmas::second_on))]
fn put_pair<D: Device, L: Ledger>(
    desk: &mut Desk<D>,
    first: &PlacedCore,
    second: &Option<PlacedCore>,
    steps: &mut Steps<L>,
) -> Result<(), WriteFault>
    requires usable { IsUsable D.Device desk.old }
    requires place { HasInode desk.old.store.geo first.now.place }
    requires other { IfSome second.now (λ p. HasInode desk.old.store.geo p.place) }
    requires below { AreBelow (D.blocks desk.old.store.dev Image) desk.old.store.edit.txn.blocks }
    ensures answers { WriteAnswers D.Device desk.old desk.new result }
    ensures book { OnOk result (desk.new.book ≡ desk.old.book) }
    ensures items { desk.new.book.journal.items ≡ desk.old.book.journal.items }
    ensures geometry { desk.new.store.geo ≡ desk.old.store.geo }
{
    put_core(desk, first, steps)?;
    put_second(desk, second, steps)
}

/// Writes one or two cores over those of their inodes, in one commit of the inodes' blocks alone
/// (XFS Algorithms and Data Structures, "On-disk Inode").
#[tactic(auto, using(crate::proofs::first::WriteLemmas::steady_answers, crate::proofs::first::WriteLemmas::second_on))]
pub fn write_pair<D: Device, L: Ledger>(
    desk: &mut Desk<D>,
    first: &PlacedCore,
    second: &Option<PlacedCore>,
    steps: &mut Steps<L>,
) -> Result<(), WriteFault>
    requires usable { IsUsable D.Device desk.old }
    requires place { HasInode desk.old.store.geo first.now.place }
    requires other { IfSome second.now (λ p. HasInode desk.old.store.geo p.place) }
    ensures answers { WriteAnswers D.Device desk.old desk.new result }
    ensures book { OnOk result (desk.new.book ≡ desk.old.book) }
    ensures items { desk.new.book.journal.items ≡ desk.old.book.journal.items }
    ensures geometry { desk.new.store.geo ≡ desk.old.store.geo }
{
    start_cores(desk);
    put_pair(desk, first, second, steps)
}
