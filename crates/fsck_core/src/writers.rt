ghost use Rattle.std.specs.Prelude.{◌≡◌};
ghost use Rattle.core_calls.specs.declared.answers.Answer.TheVariants.{Blocks, Chain, Done};
ghost use Rattle.core_parts.specs.Safe.{IsSafe};
ghost use Rattle.fsck_core.specs.Acts.{Acts};
ghost use Rattle.fsck_core.specs.Asks.{MayAsk};
ghost use Rattle.fsck_core.specs.Said.{SaysEvent};
ghost use Rattle.fsck_core.specs.Told.{told_by, told_taken};

use blk_device::Device;
use byte_fields::Steps;
use core_calls::{Answer, Ask, WriteFault};
use core_chains::chains::{begin, end};
use core_chains::refill::refill;
use core_chains::steps::{free_step, ref_step, rmap_step};
use core_files::first::{convert_first, strip_first, unmap_first};
use core_files::inodes::{give_inode, take_inode};
use core_files::maps::map_first;
use core_files::shares::share_first;
use core_parts::Parts;
use std::alloc::Global;
use std::sync::ledger::Ledger;

fn tell_chain(done: Result<u32, WriteFault>) -> Answer
    ensures { result ≡ told_by Chain done }
{
    match done {
        Ok(chain) => Answer::Chain(chain),
        Err(fault) => Answer::Write(fault),
    }
}

fn tell_blocks(done: Result<u32, WriteFault>) -> Answer
    ensures { result ≡ told_by Blocks done }
{
    match done {
        Ok(blocks) => Answer::Blocks(blocks),
        Err(fault) => Answer::Write(fault),
    }
}

/// How a writer is told that an event is done.
pub(crate) fn tell_made(done: Result<(), WriteFault>) -> Answer
    ensures { result ≡ told_by (λ nothing. Done) done }
{
    match done {
        Ok(()) => Answer::Done,
        Err(fault) => Answer::Write(fault),
    }
}

fn tell_taken(done: Result<(u64, u32), WriteFault>) -> Answer
    ensures { result ≡ told_by told_taken done }
{
    match done {
        Ok((ino, chain)) => Answer::Taken(ino, chain),
        Err(fault) => Answer::Write(fault),
    }
}

// A chain's own events: it is opened, changes a file, and is ended.
#[tactic(auto, using(crate::proofs::WriterLemmas::chain_acts, crate::proofs::WriterLemmas::blocks_acts, crate::proofs::WriterLemmas::made_acts, crate::proofs::WriterLemmas::none_acts, crate::proofs::SaidLemmas::blocks_said, crate::proofs::SaidLemmas::blocks_alone, crate::proofs::SaidLemmas::memory_said))]
fn change_in<D: Device, L: Ledger>(
    alloc: Global,
    parts: &mut Parts<D>,
    ask: Ask,
    steps: &mut Steps<L>,
) -> Answer
    requires safe { IsSafe D.Device parts.old }
    ensures acted { Acts D.Device parts.old parts.new result }
    ensures said { SaysEvent ask result parts.old parts.new }
{
    match ask {
        Ask::Begin {
            writer,
            first,
            second,
        } => tell_chain(begin(alloc, parts, writer, first, second, steps)),
        Ask::MapFirst {
            chain,
            offset,
            count,
        } => tell_blocks(map_first(alloc, parts, chain, offset, count, steps)),
        Ask::UnmapFirst {
            chain,
            offset,
            count,
        } => tell_blocks(unmap_first(alloc, parts, chain, offset, count, steps)),
        Ask::ConvertFirst {
            chain,
            offset,
            count,
        } => tell_blocks(convert_first(alloc, parts, chain, offset, count, steps)),
        Ask::StripFirst { chain } => tell_blocks(strip_first(alloc, parts, chain, steps)),
        Ask::ShareFirst {
            chain,
            offset,
            to_offset,
            count,
        } => { tell_blocks(share_first(alloc, parts, chain, offset, to_offset, count, steps)) }
        Ask::End { chain } => tell_made(end(parts, chain)),
        _ => Answer::Write(WriteFault::Memory),
    }
}

/// An event of a writer. `note` alone isn't one of the parts, and is answered with Memory here.
#[tactic(auto, using(crate::proofs::WriterLemmas::blocks_acts, crate::proofs::WriterLemmas::made_acts, crate::proofs::WriterLemmas::taken_acts, crate::proofs::SaidLemmas::done_alone, crate::proofs::SaidLemmas::done_said, crate::proofs::SaidLemmas::inode_said, crate::proofs::SaidLemmas::blocks_said))]
pub(crate) fn write_in<D: Device, L: Ledger>(
    alloc: Global,
    parts: &mut Parts<D>,
    ask: Ask,
    steps: &mut Steps<L>,
) -> Answer
    requires safe { IsSafe D.Device parts.old }
    requires asked { MayAsk parts.old.desk.store.geo.agcount ask }
    ensures acted { Acts D.Device parts.old parts.new result }
    ensures said { SaysEvent ask result parts.old parts.new }
{
    match ask {
        Ask::RmapStep { chain } => tell_made(rmap_step(alloc, parts, chain, steps)),
        Ask::RefStep { chain } => tell_made(ref_step(alloc, parts, chain, steps)),
        Ask::FreeStep { chain } => tell_made(free_step(alloc, parts, chain, steps)),
        Ask::TakeInode { writer, uid } => tell_taken(take_inode(alloc, parts, writer, uid, steps)),
        Ask::GiveInode { chain } => tell_made(give_inode(alloc, parts, chain, steps)),
        Ask::Refill { group } => tell_blocks(refill(alloc, parts, group, steps)),
        _ => change_in(alloc, parts, ask, steps),
    }
}
