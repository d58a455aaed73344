// Which step a chain is asked for.
ghost use Rattle.std.specs.Prelude.{◌≡◌, ◌<◌, None, IfOk, OnOk};
ghost use Rattle.core_chains.specs.Steps.Steps.{IsAsked, IsStep};
ghost use Rattle.core_chains.specs.Write.Writes.{WritesWell};

use crate::write::{next_step, writer_unshut};
use blk_device::Device;
use core_calls::WriteFault;
use core_parts::Desk;
use defer_chain::{Chain, StepKind};
use fs_state::Intent;

/// A chain's next step: the chain's number, the chain, and its first intent.
#[derive(Clone, Copy)]
pub(crate) struct Next {
    pub number: u32,
    pub chain: Chain,
    pub intent: Intent,
}

// The next step of a chain.
fn next_of<D: Device>(desk: &Desk<D>, number: u32, kind: StepKind) -> Result<Next, WriteFault>
    ensures step { IfOk result (IsStep kind) }
    ensures asked { IfOk result (λ next. IsAsked desk.now number next) }
    ensures reason { WritesWell desk.now result }
{
    match next_step(desk, number, kind) {
        Ok((chain, intent)) => Ok(Next {
            number,
            chain,
            intent,
        }),
        Err(fault) => Err(fault),
    }
}

/// The next step of a chain, where it is of this kind: Shut where a fault of the device was noted, NoChain
/// where no such chain is open, and OtherStep where the next step is another one, or none is left.
pub(crate) fn step_asked<D: Device>(
    desk: &Desk<D>,
    number: u32,
    kind: StepKind,
) -> Result<Next, WriteFault>
    ensures step { IfOk result (IsStep kind) }
    ensures asked { IfOk result (λ next. IsAsked desk.now number next) }
    ensures unshut { OnOk result (desk.now.book.shut ≡ None) }
    ensures reason { WritesWell desk.now result }
{
    match writer_unshut(desk) {
        Ok(()) => next_of(desk, number, kind),
        Err(fault) => Err(fault),
    }
}
