// What a search on the device leaves.
ghost use Rattle.std.specs.Prelude.{◌≡◌, OnOk};
ghost use Rattle.core_parts.specs.Common.Asks.{IsStopped};
ghost use Rattle.core_chains.specs.Write.Writes.{WriteAnswers};
ghost use Rattle.tree_blocks.specs.Reading.{is_failed as is_walk_failed};

use blk_device::Device;
use core_calls::WriteFault;
use core_chains::write::writer_stop;
use core_parts::Desk;
use fs_model::Cause;
use tree_blocks::WalkFault;

/// The cause for which a btree is to be marked that a search stopped at: a block of it fails its tests. Else
/// Shut, with the fault of the device noted, or Memory
/// (XFS Algorithms and Data Structures, "Short Format B+trees").
#[tactic(auto, using(core_chains::proofs::write::PartLemmas::answers_self))]
pub fn met_by<D: Device>(desk: &mut Desk<D>, fault: WalkFault) -> Result<Cause, WriteFault>
    requires stopped { IsStopped D.Device (is_walk_failed fault) desk.old }
    ensures answers { WriteAnswers D.Device desk.old desk.new result }
    ensures book { OnOk result (desk.new.book ≡ desk.old.book) }
    ensures items { desk.new.book.journal.items ≡ desk.old.book.journal.items }
    ensures geometry { desk.new.store.geo ≡ desk.old.store.geo }
{
    match fault {
        WalkFault::Bad { block, fault } => Ok(Cause::Block { block, fault }),
        WalkFault::Failed => Err(writer_stop(desk, true)),
        WalkFault::Memory => Err(writer_stop(desk, false)),
    }
}
