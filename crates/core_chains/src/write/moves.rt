// Blocks that came to a tree from the free list, or left it for that, change their owner in reverse mappings.
ghost use Rattle.std.specs.Prelude.{◌≡◌, ◌<◌, OnOk, length};
ghost use Rattle.ag_headers.specs.Ring.{entries};
ghost use Rattle.core_parts.specs.Common.Asks.{IsUsable};
ghost use Rattle.core_chains.specs.Write.Writes.{WriteAnswers};
ghost use Rattle.core_edit.specs.Opened.{IsOpen};

use crate::write::index_edits::edit_rmap;
use crate::write::indexes::RmapEdit;
use ag_headers::Agfl;
use blk_device::Device;
use byte_fields::Steps;
use core_calls::WriteFault;
use core_parts::Desk;
use fs_model::Cause;
use rmap_recs::{Owner, RmapRec};
use std::alloc::Global;
use std::sync::ledger::Ledger;

// The owner that blocks have, and the one that they get.
#[derive(Clone, Copy)]
struct Turning {
    from: Owner,
    to: Owner,
}

// Whether the block is in the list.
fn is_listed(list: &Agfl, block: u32) -> bool {
    for i in 0..list.len() {
        if list.entry(i) == block {
            return true;
        }
    }
    false
}

// A block with an owner that isn't a file.
fn one_block(block: u32, owner: Owner) -> RmapRec {
    RmapRec {
        start: block,
        count: 1,
        owner: owner.number(),
        word: 0,
    }
}

// A block gets another owner.
fn turn_block(block: u32, turning: Turning) -> RmapEdit {
    RmapEdit::Turn {
        gone: one_block(block, turning.from),
        run: one_block(block, turning.to),
    }
}

// A block gets another owner, unless it is in the list.
#[tactic(auto, using(core_parts::proofs::common::AskLemmas::steady_self))]
fn turn_if_gone<D: Device, L: Ledger>(
    alloc: Global,
    desk: &mut Desk<D>,
    g: u32,
    block: u32,
    list: &Agfl,
    turning: Turning,
    steps: &mut Steps<L>,
) -> Result<Option<Cause>, WriteFault>
    requires usable { IsUsable D.Device desk.old }
    requires group { g < desk.old.store.geo.agcount }
    requires opened { IsOpen D.Device g desk.old.store }
    ensures answers { WriteAnswers D.Device desk.old desk.new result }
    ensures book { OnOk result (desk.new.book ≡ desk.old.book) }
    ensures items { desk.new.book.journal.items ≡ desk.old.book.journal.items }
    ensures geometry { desk.new.store.geo ≡ desk.old.store.geo }
    ensures opened { OnOk result (IsOpen D.Device g desk.new.store) }
{
    if is_listed(list, block) {
        return Ok(None);
    }
    edit_rmap(alloc, desk, g, &turn_block(block, turning), steps)
}

// The blocks of one list that aren't in the other get another owner.
#[tactic(auto, using(core_parts::proofs::common::AskLemmas::steady_on, core_parts::proofs::common::AskLemmas::steady_self))]
fn turn_between<D: Device, L: Ledger>(
    alloc: Global,
    desk: &mut Desk<D>,
    g: u32,
    list: &Agfl,
    other: &Agfl,
    turning: Turning,
    steps: &mut Steps<L>,
) -> Result<Option<Cause>, WriteFault>
    requires usable { IsUsable D.Device desk.old }
    requires group { g < desk.old.store.geo.agcount }
    requires opened { IsOpen D.Device g desk.old.store }
    ensures answers { WriteAnswers D.Device desk.old desk.new result }
    ensures book { OnOk result (desk.new.book ≡ desk.old.book) }
    ensures items { desk.new.book.journal.items ≡ desk.old.book.journal.items }
    ensures geometry { desk.new.store.geo ≡ desk.old.store.geo }
    ensures opened { OnOk result (IsOpen D.Device g desk.new.store) }
{
    for i in 0..list.len() {
        let block = list.entry(i);
        match turn_if_gone(alloc, desk, g, block, other, turning, steps)? {
            Some(cause) => return Ok(Some(cause)),
            None => {}
        }
    }
    Ok(None)
}

/// Reverse mappings follow the edits of a tree with this owner that were made since the group's free list
/// was this one: blocks that left the tree for the list get the group as their owner, and then those that
/// came to it from there get the tree's. It is to be called before any other tree of the group is edited.
/// None: all of it is done. A cause: reverse mappings were left for it
/// (XFS Algorithms and Data Structures, "Reverse-Mapping B+tree").
#[tactic(auto, using(core_parts::proofs::common::AskLemmas::steady_on))]
pub fn follow_moves<D: Device, L: Ledger>(
    alloc: Global,
    desk: &mut Desk<D>,
    g: u32,
    owner: Owner,
    was_list: &Agfl,
    steps: &mut Steps<L>,
) -> Result<Option<Cause>, WriteFault>
    requires usable { IsUsable D.Device desk.old }
    requires group { g < desk.old.store.geo.agcount }
    requires opened { IsOpen D.Device g desk.old.store }
    ensures answers { WriteAnswers D.Device desk.old desk.new result }
    ensures book { OnOk result (desk.new.book ≡ desk.old.book) }
    ensures items { desk.new.book.journal.items ≡ desk.old.book.journal.items }
    ensures geometry { desk.new.store.geo ≡ desk.old.store.geo }
    ensures opened { OnOk result (IsOpen D.Device g desk.new.store) }
{
    let list = desk.store.edit.heads.list;
    let lost = Turning {
        from: owner,
        to: Owner::Ag,
    };
    match turn_between(alloc, desk, g, &list, was_list, lost, steps)? {
        Some(cause) => Ok(Some(cause)),
        None => gain_blocks(alloc, desk, g, was_list, &list, owner, steps),
    }
}

// Blocks of the list that was, which aren't in the one that is, get the tree's owner.
fn gain_blocks<D: Device, L: Ledger>(
    alloc: Global,
    desk: &mut Desk<D>,
    g: u32,
    was_list: &Agfl,
    list: &Agfl,
    owner: Owner,
    steps: &mut Steps<L>,
) -> Result<Option<Cause>, WriteFault>
    requires usable { IsUsable D.Device desk.old }
    requires group { g < desk.old.store.geo.agcount }
    requires opened { IsOpen D.Device g desk.old.store }
    ensures answers { WriteAnswers D.Device desk.old desk.new result }
    ensures book { OnOk result (desk.new.book ≡ desk.old.book) }
    ensures items { desk.new.book.journal.items ≡ desk.old.book.journal.items }
    ensures geometry { desk.new.store.geo ≡ desk.old.store.geo }
    ensures opened { OnOk result (IsOpen D.Device g desk.new.store) }
{
    let gained = Turning {
        from: Owner::Ag,
        to: owner,
    };
    turn_between(alloc, desk, g, was_list, list, gained, steps)
}
