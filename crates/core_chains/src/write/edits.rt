ghost use Rattle.std.specs.Prelude.{◌≡◌, ◌<◌, true, IfErr, OnOk};
ghost use Rattle.std.specs.Vec.{vec_capacity, vec_len};
ghost use Rattle.core_calls.specs.declared.answers.WriteFault.TheVariants as faults;
ghost use Rattle.core_parts.specs.Common.Asks.{Adds, IsUsable};
ghost use Rattle.core_parts.specs.Common.Kinds.{with_trust};
ghost use Rattle.core_edit.specs.Open.{LiesBelow};
ghost use Rattle.core_parts.specs.Keeps.{IsSteady};
ghost use Rattle.core_parts.specs.Safe.{IsKept};
ghost use Rattle.core_switch.specs.Marks.{IsLonger};
ghost use Rattle.core_chains.specs.Write.Writes.{WriteAnswers, WritesWell};
ghost use Rattle.fs_model.specs.declared.entry.Entry.TheVariants.{Marked};
ghost use Rattle.fs_model.specs.declared.unit.Trust.TheVariants.{Sick};
ghost use Rattle.core_edit.specs.Opened.{IsOpen};

use crate::write::calls::{call_begin, call_commit, is_failed};
use crate::write::stops::writer_stop;
use blk_device::Device;
use byte_fields::Steps;
use core_calls::WriteFault;
use core_parts::common::{add_entry, mark_sick};
use core_parts::{Desk, GroupKept};
use core_switch::{put_freed, room_for_freed};
use fs_model::{Cause, Entry};
use sblock::Kind;
use std::sync::ledger::Ledger;

fn lies_below(size: u64, inode: Option<u64>) -> bool
    ensures { result ≡ true → LiesBelow size inode }
{
    match inode {
        Some(at) => at < size,
        None => true,
    }
}

// Begins an edit, where the inode's block lies in the image.
#[tactic(auto, using(crate::proofs::write::CallLemmas::asked_answers, crate::proofs::write::CallLemmas::stopped_answers))]
fn begin_inside<D: Device, L: Ledger>(
    desk: &mut Desk<D>,
    kept: &GroupKept,
    g: u32,
    inode: Option<u64>,
    steps: &mut Steps<L>,
) -> Result<(), WriteFault>
    requires usable { IsUsable D.Device desk.old }
    requires group { g < desk.old.store.geo.agcount }
    requires inode { LiesBelow desk.old.store.geo.dblocks inode }
    ensures answers { WriteAnswers D.Device desk.old desk.new result }
    ensures book { OnOk result (desk.new.book ≡ desk.old.book) }
    ensures items { desk.new.book.journal.items ≡ desk.old.book.journal.items }
    ensures geometry { desk.new.store.geo ≡ desk.old.store.geo }
    ensures opened { OnOk result (IsOpen D.Device g desk.new.store) }
{
    match call_begin(desk, &kept.heads, g, inode, steps) {
        Ok(()) => Ok(()),
        Err(stop) => Err(writer_stop(desk, is_failed(&stop))),
    }
}

/// Begins an edit of a group by the heads that are kept of it: its block 0 is joined, and then the block of
/// an inode at this number of the image, where one is given; one outside of the image is answered with
/// Memory. What was open before is let go (XFS Online Fsck Design, "Eventual Consistency").
#[tactic(auto, using(core_parts::proofs::common::AskLemmas::steady_self))]
pub fn begin_edit<D: Device, L: Ledger>(
    desk: &mut Desk<D>,
    kept: &GroupKept,
    g: u32,
    inode: Option<u64>,
    steps: &mut Steps<L>,
) -> Result<(), WriteFault>
    requires usable { IsUsable D.Device desk.old }
    requires group { g < desk.old.store.geo.agcount }
    ensures answers { WriteAnswers D.Device desk.old desk.new result }
    ensures book { OnOk result (desk.new.book ≡ desk.old.book) }
    ensures items { desk.new.book.journal.items ≡ desk.old.book.journal.items }
    ensures geometry { desk.new.store.geo ≡ desk.old.store.geo }
    ensures opened { OnOk result (IsOpen D.Device g desk.new.store) }
{
    // Never: an inode that was found lies in the image.
    if !lies_below(desk.store.geo.dblocks, inode) {
        return Err(WriteFault::Memory);
    }
    begin_inside(desk, kept, g, inode, steps)
}

/// Writes what was edited, as one commit: all of it or, where the device fails or a crash comes, perhaps
/// nothing (XFS Online Fsck Design, "Eventual Consistency").
#[tactic(auto, using(crate::proofs::write::CallLemmas::asked_answers, crate::proofs::write::CallLemmas::stopped_answers))]
pub fn commit_edit<D: Device, L: Ledger>(
    desk: &mut Desk<D>,
    g: u32,
    steps: &mut Steps<L>,
) -> Result<(), WriteFault>
    requires usable { IsUsable D.Device desk.old }
    requires group { g < desk.old.store.geo.agcount }
    requires opened { IsOpen D.Device g desk.old.store }
    ensures answers { WriteAnswers D.Device desk.old desk.new result }
    ensures book { OnOk result (desk.new.book ≡ desk.old.book) }
    ensures items { desk.new.book.journal.items ≡ desk.old.book.journal.items }
    ensures geometry { desk.new.store.geo ≡ desk.old.store.geo }
{
    match call_commit(desk, g, steps) {
        Ok(()) => Ok(()),
        Err(stop) => Err(writer_stop(desk, is_failed(&stop))),
    }
}

/// Room in limbo for all blocks that the open edit freed, to be taken before the commit; Memory where there
/// is none (XFS Online Fsck Design, "Reaping After Repairing Ondisk Metadata").
pub fn freed_room<D: Device>(desk: &Desk<D>, kept: &mut GroupKept) -> Result<(), WriteFault>
    ensures limbo { kept.new.limbo.items ≡ kept.old.limbo.items }
    ensures trust { kept.new.trust ≡ kept.old.trust }
    ensures kept { IsKept kept.old → IsKept kept.new }
    ensures memory { IfErr result (λ fault. fault ≡ faults.Memory) }
    ensures reason { WritesWell desk.now result }
{
    match room_for_freed(&desk.store.edit.freed, &mut kept.limbo) {
        Ok(()) => Ok(()),
        Err(_) => Err(WriteFault::Memory),
    }
}

/// The group is kept as the commit left it: with the heads that were written, and with the blocks in limbo
/// that the edit freed beside the free list (XFS Online Fsck Design, "Eventual Consistency").
pub fn settle_edit<D: Device>(desk: &Desk<D>, kept: &mut GroupKept)
    requires kept { IsKept kept.old }
    ensures kept { IsKept kept.new }
    ensures heads { kept.new.heads ≡ desk.now.store.edit.heads }
    ensures trust { kept.new.trust ≡ kept.old.trust }
{
    kept.heads = desk.store.edit.heads;
    let _ = put_freed(&desk.store.edit.freed, &mut kept.limbo);
}

fn marked(group: u32, kind: Kind, cause: Cause) -> Entry
    ensures { result ≡ Marked group kind cause }
{
    Entry::Marked { group, kind, cause }
}

/// Marks a btree of a group, in room of the journal that is there: it is sick from now on
/// (XFS Online Fsck Design, "Eventual Consistency").
#[tactic(auto, using(core_parts::proofs::common::AskLemmas::adds_usable, core_parts::proofs::common::AskLemmas::adds_steady))]
pub fn mark_kind<D: Device>(
    desk: &mut Desk<D>,
    kept: &mut GroupKept,
    g: u32,
    kind: Kind,
    cause: Cause,
)
    requires usable { IsUsable D.Device desk.old }
    requires room { vec_len desk.old.book.journal < vec_capacity desk.old.book.journal }
    ensures usable { IsUsable D.Device desk.new }
    ensures steady { IsSteady D.Device desk.old desk.new }
    ensures added { Adds (Marked g kind cause) desk.old desk.new }
    ensures trust { kept.new.trust ≡ with_trust kept.old.trust kind Sick }
    ensures limbo { kept.new.limbo ≡ kept.old.limbo }
    ensures kept { IsKept kept.old → IsKept kept.new }
{
    mark_sick(kept, kind);
    add_entry(desk, marked(g, kind, cause));
}

/// Marks a btree of a group that an edit left for a cause, if it did
/// (XFS Online Fsck Design, "Eventual Consistency").
#[tactic(auto, using(core_parts::proofs::common::AskLemmas::steady_self))]
pub fn mark_left<D: Device>(
    desk: &mut Desk<D>,
    kept: &mut GroupKept,
    g: u32,
    kind: Kind,
    left: Option<Cause>,
)
    requires usable { IsUsable D.Device desk.old }
    requires room { vec_len desk.old.book.journal < vec_capacity desk.old.book.journal }
    ensures usable { IsUsable D.Device desk.new }
    ensures steady { IsSteady D.Device desk.old desk.new }
    ensures longer { IsLonger desk.old.book.journal desk.new.book.journal }
    ensures limbo { kept.new.limbo ≡ kept.old.limbo }
    ensures kept { IsKept kept.old → IsKept kept.new }
{
    match left {
        Some(cause) => mark_kind(desk, kept, g, kind, cause),
        None => {}
    }
}

/// The open edit goes back to its last mark: what a call joined or changed since without a mark of its own
/// is let go (XFS Online Fsck Design, "Eventual Consistency").
#[tactic(auto, using(crate::proofs::write::CallLemmas::back_usable, crate::proofs::write::CallLemmas::back_steady, crate::proofs::write::CallLemmas::back_open))]
pub fn back_to_mark<D: Device>(desk: &mut Desk<D>, g: u32)
    requires usable { IsUsable D.Device desk.old }
    requires opened { IsOpen D.Device g desk.old.store }
    ensures usable { IsUsable D.Device desk.new }
    ensures steady { IsSteady D.Device desk.old desk.new }
    ensures book { desk.new.book ≡ desk.old.book }
    ensures opened { IsOpen D.Device g desk.new.store }
{
    desk.store.edit.back();
}
