// Files, as an event finds them on its device.
ghost use Rattle.std.specs.Prelude.{◌≡◌, ◌<◌, IfOk, OnOk, length};
ghost use Rattle.core_parts.specs.Common.Asks.{IsStopped, IsUsable};
ghost use Rattle.core_parts.specs.Keeps.{IsAsked, IsSteady};
ghost use Rattle.core_parts.specs.Safe.{IsDesk};
ghost use Rattle.core_chains.specs.Write.Writes.{HasWriteReason, WriteAnswers};
ghost use Rattle.file_cores.specs.Files.{IsFile};
ghost use Rattle.file_cores.specs.Looks.{failed_in, is_failed};
ghost use Rattle.sblock.specs.declared.kind.Kind.TheVariants.{Ino};

use crate::write::writer_stop;
use blk_device::Device;
use byte_fields::Steps;
use core_calls::WriteFault;
use core_parts::{Desk, GroupKept};
use defer_chain::ChainInode;
use file_cores::{File, FileStop, check_file, read_file};
use sblock::Kind;
use std::alloc::Global;
use std::sync::ledger::Ledger;
use tree_blocks::TreeAt;

/// What an event answers where a file isn't read or written for this reason: Shut, with the fault noted,
/// where the device failed (XFS Online Fsck Design, "Eventual Consistency").
#[tactic(auto, using(core_parts::proofs::common::AskLemmas::steady_self))]
pub fn file_fault<D: Device>(desk: &mut Desk<D>, stop: FileStop) -> WriteFault
    requires stopped { IsStopped D.Device (is_failed stop) desk.old }
    ensures desk { IsDesk D.Device desk.new }
    ensures steady { IsSteady D.Device desk.old desk.new }
    ensures reason { HasWriteReason desk.new result }
    ensures items { desk.new.book.journal.items ≡ desk.old.book.journal.items }
{
    match stop {
        FileStop::NoFile => WriteFault::NoFile,
        FileStop::TreeFork => WriteFault::TreeFork,
        FileStop::Failed => writer_stop(desk, true),
        FileStop::Memory => WriteFault::Memory,
    }
}

// The user of an inode that is a file.
#[tactic(auto, using(crate::proofs::chains::FindLemmas::looks_asked, crate::proofs::chains::FindLemmas::usable_room))]
fn call_check<D: Device, L: Ledger>(
    desk: &mut Desk<D>,
    tree: &TreeAt,
    ino: u64,
    steps: &mut Steps<L>,
) -> Result<u32, FileStop>
    requires usable { IsUsable D.Device desk.old }
    requires kind { tree.now.kind ≡ Ino }
    requires group { tree.now.group < desk.old.store.geo.agcount }
    ensures asked { IsAsked D.Device (failed_in result) desk.old desk.new }
{
    check_file(
        &mut desk.store.dev,
        &mut desk.store.cache,
        &desk.store.geo,
        tree,
        ino,
        steps,
    )
}

// The core and the mappings of an inode.
#[tactic(auto, using(crate::proofs::chains::FindLemmas::looks_asked, crate::proofs::chains::FindLemmas::usable_room))]
fn call_read<D: Device, L: Ledger>(
    alloc: Global,
    desk: &mut Desk<D>,
    ino: u64,
    steps: &mut Steps<L>,
) -> Result<File, FileStop>
    requires usable { IsUsable D.Device desk.old }
    ensures file { IfOk result (IsFile desk.old.store.geo) }
    ensures asked { IsAsked D.Device (failed_in result) desk.old desk.new }
{
    read_file(
        alloc,
        &mut desk.store.dev,
        &mut desk.store.cache,
        &desk.store.geo,
        ino,
        steps,
    )
}

/// Reads the core of an inode with the list of its mappings; NoFile or TreeFork where it is no file with
/// such a list (XFS Algorithms and Data Structures, "On-disk Inode").
#[tactic(auto, using(crate::proofs::write::CallLemmas::asked_answers, crate::proofs::write::CallLemmas::stopped_answers, core_parts::proofs::common::AskLemmas::asked_stopped))]
pub fn read_inode<D: Device, L: Ledger>(
    alloc: Global,
    desk: &mut Desk<D>,
    ino: u64,
    steps: &mut Steps<L>,
) -> Result<File, WriteFault>
    requires usable { IsUsable D.Device desk.old }
    ensures file { IfOk result (IsFile desk.old.store.geo) }
    ensures answers { WriteAnswers D.Device desk.old desk.new result }
    ensures book { OnOk result (desk.new.book ≡ desk.old.book) }
    ensures geometry { desk.new.store.geo ≡ desk.old.store.geo }
    ensures items { desk.new.book.journal.items ≡ desk.old.book.journal.items }
{
    match call_read(alloc, desk, ino, steps) {
        Ok(file) => Ok(file),
        Err(stop) => Err(file_fault(desk, stop)),
    }
}

// The inode btree of a group, as the kept heads name it.
fn ino_tree(kept: &GroupKept, g: u32) -> TreeAt
    ensures kind { result.kind ≡ Ino }
    ensures group { result.group ≡ g }
{
    TreeAt {
        kind: Kind::Ino,
        group: g,
        root: kept.heads.agi.root,
        levels: kept.heads.agi.level,
        lsn: kept.heads.agf.lsn,
    }
}

// The inode with its user, where it is a file by this tree.
#[tactic(auto, using(crate::proofs::write::CallLemmas::asked_answers, crate::proofs::write::CallLemmas::stopped_answers, core_parts::proofs::common::AskLemmas::asked_stopped))]
fn check_tree<D: Device, L: Ledger>(
    desk: &mut Desk<D>,
    tree: &TreeAt,
    ino: u64,
    steps: &mut Steps<L>,
) -> Result<ChainInode, WriteFault>
    requires usable { IsUsable D.Device desk.old }
    requires kind { tree.now.kind ≡ Ino }
    requires group { tree.now.group < desk.old.store.geo.agcount }
    ensures answers { WriteAnswers D.Device desk.old desk.new result }
    ensures geometry { desk.new.store.geo ≡ desk.old.store.geo }
    ensures items { desk.new.book.journal.items ≡ desk.old.book.journal.items }
{
    match call_check(desk, tree, ino, steps) {
        Ok(uid) => Ok(ChainInode { ino, uid }),
        Err(stop) => Err(file_fault(desk, stop)),
    }
}

/// The inode with its user, where it is a file that a writer may change; NoFile else. An inode btree that
/// couldn't be read when the device was opened, and wasn't rebuilt since, lists none.
#[tactic(auto, using(crate::proofs::write::PartLemmas::answers_self))]
pub(crate) fn check_inode<D: Device, L: Ledger>(
    desk: &mut Desk<D>,
    groups: &[GroupKept],
    ino: u64,
    steps: &mut Steps<L>,
) -> Result<ChainInode, WriteFault>
    requires usable { IsUsable D.Device desk.old }
    requires groups { length groups.now ≡ desk.old.store.geo.agcount }
    ensures answers { WriteAnswers D.Device desk.old desk.new result }
    ensures geometry { desk.new.store.geo ≡ desk.old.store.geo }
    ensures items { desk.new.book.journal.items ≡ desk.old.book.journal.items }
{
    let Some(place) = desk.store.geo.inode_place(ino) else {
        return Err(WriteFault::NoFile);
    };
    let g = place.group;
    let kept = &groups[g as usize];
    if kept.bad.ino.is_some() {
        return Err(WriteFault::NoFile);
    }
    check_tree(desk, &ino_tree(kept, g), ino, steps)
}
