// How a chain ends.
ghost use Rattle.std.specs.Prelude.{◌≡◌, ◌<◌};
ghost use Rattle.core_parts.specs.Common.Asks.{IsUsable};
ghost use Rattle.core_parts.specs.Keeps.{IsSteady};
ghost use Rattle.core_parts.specs.Safe.{IsSafe};
ghost use Rattle.core_chains.specs.Write.Writes.{WriteAnswers, WriteParts};

use crate::write::{idle_chain, put_chain, writer_unshut};
use blk_device::Device;
use core_calls::WriteFault;
use core_parts::{Desk, Parts};
use defer_chain::Chain;

// Nobody holds the inode any more.
#[tactic(auto, using(crate::proofs::write::ChainLemmas::put_usable, crate::proofs::write::ChainLemmas::put_steady))]
fn let_one_go<D: Device>(desk: &mut Desk<D>, ino: u64)
    requires usable { IsUsable D.Device desk.old }
    ensures usable { IsUsable D.Device desk.new }
    ensures steady { IsSteady D.Device desk.old desk.new }
    ensures book { desk.new.book ≡ desk.old.book }
{
    desk.drain.let_go(ino);
}

/// Nobody holds the inodes of this chain any more (XFS Online Fsck Design, "Inode Scans").
#[tactic(auto, using(core_parts::proofs::common::AskLemmas::steady_on))]
pub fn let_inodes_go<D: Device>(desk: &mut Desk<D>, chain: &Chain)
    requires usable { IsUsable D.Device desk.old }
    ensures usable { IsUsable D.Device desk.new }
    ensures steady { IsSteady D.Device desk.old desk.new }
    ensures book { desk.new.book ≡ desk.old.book }
{
    let_one_go(desk, chain.first().ino);
    match chain.second() {
        Some(second) => let_one_go(desk, second.ino),
        None => {}
    }
}

// The chain of this number ends, which is this one.
#[tactic(auto, using(core_parts::proofs::common::AskLemmas::steady_on))]
fn put_away<D: Device>(desk: &mut Desk<D>, number: u32, chain: &Chain)
    requires usable { IsUsable D.Device desk.old }
    requires number { number < 16 }
    ensures usable { IsUsable D.Device desk.new }
    ensures steady { IsSteady D.Device desk.old desk.new }
    ensures book { desk.new.book ≡ desk.old.book }
{
    let_inodes_go(desk, chain);
    put_chain(desk, number, None);
}

// Ends the chain, where no fault of the device was noted.
#[tactic(auto, using(crate::proofs::write::PartLemmas::answers_self))]
fn end_usable<D: Device>(desk: &mut Desk<D>, chain: u32) -> Result<(), WriteFault>
    requires usable { IsUsable D.Device desk.old }
    ensures answers { WriteAnswers D.Device desk.old desk.new result }
    ensures items { desk.new.book.journal.items ≡ desk.old.book.journal.items }
{
    let ended = idle_chain(desk, chain)?;
    put_away(desk, chain, &ended);
    Ok(())
}

/// Ends a chain that owes nothing: its inodes are let go. It is refused, in this order, with Shut, NoChain,
/// and OtherStep (an intent is there). It takes no memory and asks no device
/// (XFS Online Fsck Design, "Eventual Consistency").
#[tactic(auto, using(crate::proofs::write::PartLemmas::desk_parts, crate::proofs::write::PartLemmas::same_parts))]
pub fn end<D: Device>(parts: &mut Parts<D>, chain: u32) -> Result<(), WriteFault>
    requires safe { IsSafe D.Device parts.old }
    ensures left { WriteParts D.Device parts.old parts.new result }
    ensures said { parts.new.desk.book.journal.items ≡ parts.old.desk.book.journal.items }
{
    writer_unshut(&parts.desk)?;
    end_usable(&mut parts.desk, chain)
}
