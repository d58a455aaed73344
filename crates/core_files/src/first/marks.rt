// Marks that a first event answers with.
ghost use Rattle.std.specs.Prelude.{◌≡◌, ◌<◌, ◌≤◌, ◌+◌, ◌++◌, ◌∷◌, [], Err};
ghost use Rattle.std.specs.Vec.{vec_capacity, vec_len};
ghost use Rattle.core_calls.specs.declared.answers.WriteFault.TheVariants as faults;
ghost use Rattle.core_parts.specs.Common.Asks.{IsUsable};
ghost use Rattle.core_parts.specs.Safe.{IsKept};
ghost use Rattle.core_chains.specs.Write.Says.Met.{Owned};
ghost use Rattle.core_chains.specs.Write.Says.{met_on};
ghost use Rattle.core_chains.specs.Write.Writes.{WriteAnswers};
ghost use Rattle.fs_model.specs.declared.entry.Entry.TheVariants.{Marked};
ghost use Rattle.sblock.specs.declared.kind.Kind.TheVariants.{Bno};

use blk_device::Device;
use core_calls::WriteFault;
use core_chains::write::mark_kind;
use core_parts::{Desk, GroupKept};
use fs_model::Cause;
use sblock::Kind;

/// Marks a btree of the group, and answers that it is sick.
pub fn mark_one<D: Device>(
    desk: &mut Desk<D>,
    kept: &mut GroupKept,
    g: u32,
    kind: Kind,
    cause: Cause,
) -> Result<u32, WriteFault>
    requires usable { IsUsable D.Device desk.old }
    requires room { vec_len desk.old.book.journal + 2 ≤ vec_capacity desk.old.book.journal }
    requires kept { IsKept kept.old }
    ensures answers { WriteAnswers D.Device desk.old desk.new result }
    ensures kept { IsKept kept.new }
    ensures sick { result ≡ Err (faults.Sick g kind) }
    ensures said { desk.new.book.journal.items ≡ desk.old.book.journal.items ++ Marked g kind
        cause ∷ [] }
{
    mark_kind(desk, kept, g, kind, cause);
    Err(WriteFault::Sick(g, kind))
}

/// Marks both btrees of the group's free space, since a run of it has an owner, and answers that the first
/// is sick.
#[tactic(auto, using(core_parts::proofs::common::AskLemmas::steady_on))]
pub fn mark_owned<D: Device>(
    desk: &mut Desk<D>,
    kept: &mut GroupKept,
    g: u32,
) -> Result<u32, WriteFault>
    requires usable { IsUsable D.Device desk.old }
    requires room { vec_len desk.old.book.journal + 2 ≤ vec_capacity desk.old.book.journal }
    requires kept { IsKept kept.old }
    ensures answers { WriteAnswers D.Device desk.old desk.new result }
    ensures kept { IsKept kept.new }
    ensures sick { result ≡ Err (faults.Sick g Bno) }
    ensures said { desk.new.book.journal.items ≡ met_on desk.old.book.journal.items g Bno Owned }
{
    mark_kind(desk, kept, g, Kind::Bno, Cause::Owner);
    mark_kind(desk, kept, g, Kind::Cnt, Cause::Owner);
    Err(WriteFault::Sick(g, Kind::Bno))
}
