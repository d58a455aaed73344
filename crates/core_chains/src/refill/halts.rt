ghost use Rattle.std.specs.Prelude.{◌≡◌, ◌≤◌, ◌+◌};
ghost use Rattle.std.specs.Vec.{vec_capacity, vec_len};
ghost use Rattle.core_parts.specs.Common.Asks.{IsStopped};
ghost use Rattle.core_parts.specs.Keeps.{IsSteady};
ghost use Rattle.core_parts.specs.Safe.{IsDesk};
ghost use Rattle.core_chains.specs.Refill.Halts.{HaltsWell};
ghost use Rattle.tree_blocks.specs.Reading.{is_failed};

use crate::write::writer_stop;
use blk_device::Device;
use core_calls::WriteFault;
use core_parts::Desk;
use fs_model::Cause;
use sblock::Kind;
use tree_blocks::WalkFault;

/// Why an event that edits a group stops before its commit: it is refused; a btree of this group met this,
/// and is to be marked; or a run of this group that it would take has an owner
/// (XFS Online Fsck Design, "Eventual Consistency").
#[derive(Clone, Copy, Debug, PartialEq, Eq)]
pub enum Halt {
    Refused(WriteFault),
    Met(u32, Kind, Cause),
    Owned(u32),
}

/// Why an event stops where a read of a btree of group `g` did: a bad block is what the btree met, and a
/// failure of the device is noted (XFS Online Fsck Design, "Eventual Consistency").
#[tactic(auto, using(core_parts::proofs::common::AskLemmas::steady_self))]
pub fn halt_at<D: Device>(desk: &mut Desk<D>, g: u32, kind: Kind, fault: WalkFault) -> Halt
    requires stopped { IsStopped D.Device (is_failed fault) desk.old }
    requires room { vec_len desk.old.book.journal + 2 ≤ vec_capacity desk.old.book.journal }
    ensures desk { IsDesk D.Device desk.new }
    ensures steady { IsSteady D.Device desk.old desk.new }
    ensures ends { HaltsWell desk.new result }
    ensures items { desk.new.book.journal.items ≡ desk.old.book.journal.items }
{
    match fault {
        WalkFault::Bad { block, fault } => Halt::Met(g, kind, Cause::Block { block, fault }),
        WalkFault::Failed => Halt::Refused(writer_stop(desk, true)),
        WalkFault::Memory => Halt::Refused(writer_stop(desk, false)),
    }
}
