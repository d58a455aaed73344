// What an event says that stops before its commit.
ghost use Rattle.std.specs.Prelude.{◌≡◌, ◌≤◌, ◌<◌, ◌+◌, ◌++◌, ◌∷◌, [], length};
ghost use Rattle.std.specs.Vec.{vec_capacity, vec_len};
ghost use Rattle.core_parts.specs.Common.Asks.{IsUsable};
ghost use Rattle.core_parts.specs.Keeps.{IsSteady};
ghost use Rattle.core_parts.specs.Safe.{AreKept, IsDesk, IsKept};
ghost use Rattle.core_chains.specs.Refill.Halts.{HaltsWell};
ghost use Rattle.core_chains.specs.Write.Says.Met.{Owned};
ghost use Rattle.core_chains.specs.Write.Says.{SaysMet, SaysRefused, met_on};
ghost use Rattle.core_chains.specs.Write.Writes.{HasWriteReason};
ghost use Rattle.core_switch.specs.Marks.{IsLonger};
ghost use Rattle.fs_model.specs.declared.entry.Entry.TheVariants.{Marked};
ghost use Rattle.sblock.specs.declared.kind.Kind.TheVariants.{Bno};

use crate::refill::halts::Halt;
use crate::write::mark_kind;
use blk_device::Device;
use core_calls::WriteFault;
use core_parts::{Desk, GroupKept};
use fs_model::Cause;
use sblock::Kind;

// Marks a btree of a group, in room that is there.
#[tactic(auto, using(crate::proofs::refill::HaltLemmas::adds_longer))]
fn mark_one<D: Device>(desk: &mut Desk<D>, kept: &mut GroupKept, g: u32, kind: Kind, cause: Cause)
    requires usable { IsUsable D.Device desk.old }
    requires room { vec_len desk.old.book.journal < vec_capacity desk.old.book.journal }
    requires kept { IsKept kept.old }
    ensures usable { IsUsable D.Device desk.new }
    ensures steady { IsSteady D.Device desk.old desk.new }
    ensures longer { IsLonger desk.old.book.journal desk.new.book.journal }
    ensures kept { IsKept kept.new }
    ensures said { desk.new.book.journal.items ≡ desk.old.book.journal.items ++ Marked g kind
        cause ∷ [] }
{
    mark_kind(desk, kept, g, kind, cause);
}

// Marks both btrees of free space: a run that they have has an owner.
#[tactic(auto, using(core_parts::proofs::common::AskLemmas::steady_on))]
fn mark_both<D: Device>(desk: &mut Desk<D>, kept: &mut GroupKept, g: u32)
    requires usable { IsUsable D.Device desk.old }
    requires room { vec_len desk.old.book.journal + 2 ≤ vec_capacity desk.old.book.journal }
    requires kept { IsKept kept.old }
    ensures usable { IsUsable D.Device desk.new }
    ensures steady { IsSteady D.Device desk.old desk.new }
    ensures kept { IsKept kept.new }
    ensures said { desk.new.book.journal.items ≡ met_on desk.old.book.journal.items g Bno Owned }
{
    mark_one(desk, kept, g, Kind::Bno, Cause::Owner);
    mark_one(desk, kept, g, Kind::Cnt, Cause::Owner);
}

// Marks a btree, with what is kept of all groups.
#[tactic(auto, using(crate::proofs::refill::HaltLemmas::kept_set, crate::proofs::refill::HaltLemmas::many_set, core_parts::proofs::common::AskLemmas::steady_self, crate::proofs::write::SaysLemmas::met_none))]
fn mark_in<D: Device>(
    desk: &mut Desk<D>,
    groups: &mut Vec<GroupKept>,
    g: u32,
    kind: Kind,
    cause: Cause,
)
    requires usable { IsUsable D.Device desk.old }
    requires room { vec_len desk.old.book.journal < vec_capacity desk.old.book.journal }
    requires kept { AreKept groups.old.items }
    ensures usable { IsUsable D.Device desk.new }
    ensures steady { IsSteady D.Device desk.old desk.new }
    ensures longer { IsLonger desk.old.book.journal desk.new.book.journal }
    ensures many { length groups.new.items ≡ length groups.old.items }
    ensures kept { AreKept groups.new.items }
    ensures said { SaysMet g kind desk.old.book.journal.items desk.new.book.journal.items }
{
    // Never: what is met is met in a group.
    if g as usize >= groups.len() {
        return;
    }
    mark_one(desk, &mut groups[g as usize], g, kind, cause);
}

// Marks both btrees of free space, with what is kept of all groups.
#[tactic(auto, using(crate::proofs::refill::HaltLemmas::kept_set, crate::proofs::refill::HaltLemmas::many_set, core_parts::proofs::common::AskLemmas::steady_self, crate::proofs::write::SaysLemmas::met_none, crate::proofs::write::SaysLemmas::met_owned))]
fn mark_owner<D: Device>(desk: &mut Desk<D>, groups: &mut Vec<GroupKept>, g: u32)
    requires usable { IsUsable D.Device desk.old }
    requires room { vec_len desk.old.book.journal + 2 ≤ vec_capacity desk.old.book.journal }
    requires kept { AreKept groups.old.items }
    ensures usable { IsUsable D.Device desk.new }
    ensures steady { IsSteady D.Device desk.old desk.new }
    ensures many { length groups.new.items ≡ length groups.old.items }
    ensures kept { AreKept groups.new.items }
    ensures said { SaysMet g Bno desk.old.book.journal.items desk.new.book.journal.items }
{
    // Never: what is met is met in a group.
    if g as usize >= groups.len() {
        return;
    }
    mark_both(desk, &mut groups[g as usize], g);
}

/// What an event answers that stops before its commit, with the marks of what was met: one, or two where a
/// run that was to be taken has an owner (XFS Online Fsck Design, "Eventual Consistency").
#[tactic(auto, using(core_parts::proofs::common::AskLemmas::steady_self, crate::proofs::write::SaysLemmas::refused_none))]
pub fn tell_halt<D: Device>(
    desk: &mut Desk<D>,
    groups: &mut Vec<GroupKept>,
    halt: Halt,
) -> WriteFault
    requires desk { IsDesk D.Device desk.old }
    requires ends { HaltsWell desk.old halt }
    requires kept { AreKept groups.old.items }
    ensures desk { IsDesk D.Device desk.new }
    ensures steady { IsSteady D.Device desk.old desk.new }
    ensures reason { HasWriteReason desk.new result }
    ensures many { length groups.new.items ≡ length groups.old.items }
    ensures kept { AreKept groups.new.items }
    ensures said { SaysRefused result desk.old.book.journal.items desk.new.book.journal.items }
{
    match halt {
        Halt::Refused(fault) => fault,
        Halt::Met(g, kind, cause) => {
            mark_in(desk, groups, g, kind, cause);
            WriteFault::Sick(g, kind)
        }
        Halt::Owned(g) => {
            mark_owner(desk, groups, g);
            WriteFault::Sick(g, Kind::Bno)
        }
    }
}
