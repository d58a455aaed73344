ghost use Rattle.std.specs.Prelude.{◌≡◌, ◌<◌, Some, true, IfOk, OnOk};
ghost use Rattle.std.specs.List.{slice_get};
ghost use Rattle.core_parts.specs.Common.Asks.{IsUsable};
ghost use Rattle.core_parts.specs.Keeps.{IsSteady};
ghost use Rattle.core_chains.specs.Write.Chains.{IsIdle, IsNext};
ghost use Rattle.core_chains.specs.Write.Writes.{WritesWell};
ghost use Rattle.defer_chain.specs.Owed.{owed};
ghost use Rattle.intent_drain.specs.Chains.{chain_at};
ghost use Rattle.intent_drain.specs.Drains.{chains_of};

use blk_device::Device;
use core_calls::WriteFault;
use core_parts::Desk;
use defer_chain::{Chain, StepKind, step_kind};
use fs_state::Intent;
use intent_drain::MOST_CHAINS;

/// The chain of this number: NoChain where no such chain is open
/// (XFS Online Fsck Design, "Eventual Consistency").
pub fn chain_of<D: Device>(desk: &Desk<D>, chain: u32) -> Result<Chain, WriteFault>
    ensures number { OnOk result (chain < 16) }
    ensures chain { IfOk result (λ c. chain_at (chains_of desk.now.drain) chain ≡ Some c) }
    ensures reason { WritesWell desk.now result }
{
    if chain as usize >= MOST_CHAINS {
        return Err(WriteFault::NoChain);
    }
    match desk.drain.chain(chain) {
        Some(found) => Ok(found),
        None => Err(WriteFault::NoChain),
    }
}

/// The chain of this number, which owes nothing: NoChain where no such chain is open, and OtherStep with
/// the kind of its next step where one is owed (XFS Online Fsck Design, "Eventual Consistency").
#[tactic(auto, using(crate::proofs::write::ChainLemmas::none_owed))]
pub fn idle_chain<D: Device>(desk: &Desk<D>, chain: u32) -> Result<Chain, WriteFault>
    ensures number { OnOk result (chain < 16) }
    ensures chain { IfOk result (λ c. chain_at (chains_of desk.now.drain) chain ≡ Some c) }
    ensures idle { IfOk result IsIdle }
    ensures reason { WritesWell desk.now result }
{
    let found = chain_of(desk, chain)?;
    match found.next() {
        Some(intent) => Err(WriteFault::OtherStep(Some(step_kind(intent.kind)))),
        None => Ok(found),
    }
}

fn is_kind(next: StepKind, kind: StepKind) -> bool
    ensures { result ≡ true → next ≡ kind }
{
    match next {
        StepKind::Rmap => matches!(kind, StepKind::Rmap),
        StepKind::Ref => matches!(kind, StepKind::Ref),
        StepKind::Free => matches!(kind, StepKind::Free),
    }
}

// The chain with its first intent, where that is one for this kind of step.
#[tactic(auto, using(crate::proofs::write::ChainLemmas::next_is))]
fn as_next<D: Device>(
    desk: &Desk<D>,
    chain: Chain,
    intent: Intent,
    kind: StepKind,
) -> Result<(Chain, Intent), WriteFault>
    requires first { slice_get (owed chain) 0 ≡ Some intent }
    ensures same { IfOk result (λ found. found.0 ≡ chain) }
    ensures next { IfOk result (λ found. IsNext kind (owed found.0) found.1) }
    ensures reason { WritesWell desk.now result }
{
    let next = step_kind(intent.kind);
    if !is_kind(next, kind) {
        return Err(WriteFault::OtherStep(Some(next)));
    }
    Ok((chain, intent))
}

/// The chain of this number with its first intent, which is one for this kind of step: NoChain where no
/// such chain is open, and OtherStep with the kind of its next step, or None, where that is another one
/// (XFS Online Fsck Design, "Eventual Consistency").
pub fn next_step<D: Device>(
    desk: &Desk<D>,
    chain: u32,
    kind: StepKind,
) -> Result<(Chain, Intent), WriteFault>
    ensures number { OnOk result (chain < 16) }
    ensures chain { IfOk result (λ found. chain_at (chains_of desk.now.drain) chain ≡ Some found.0) }
    ensures next { IfOk result (λ found. IsNext kind (owed found.0) found.1) }
    ensures reason { WritesWell desk.now result }
{
    let found = chain_of(desk, chain)?;
    match found.next() {
        Some(intent) => as_next(desk, found, intent, kind),
        None => Err(WriteFault::OtherStep(None)),
    }
}

/// Puts a chain under its number; None ends it, whose inodes are let go by `let_go` of the drain
/// (XFS Online Fsck Design, "Eventual Consistency").
#[tactic(auto, using(crate::proofs::write::ChainLemmas::put_usable, crate::proofs::write::ChainLemmas::put_steady))]
pub fn put_chain<D: Device>(desk: &mut Desk<D>, number: u32, chain: Option<Chain>)
    requires usable { IsUsable D.Device desk.old }
    requires number { number < 16 }
    ensures usable { IsUsable D.Device desk.new }
    ensures steady { IsSteady D.Device desk.old desk.new }
    ensures book { desk.new.book ≡ desk.old.book }
    ensures store { desk.new.store ≡ desk.old.store }
{
    desk.drain.set_chain(number, chain);
}
