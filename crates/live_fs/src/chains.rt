// A chain that a writer has open, from its begin to its end.
ghost use Rattle.std.specs.Prelude.{◌≡◌, ℕ};
ghost use Rattle.fsck_core.specs.Asks.{MayAsk};
ghost use Rattle.live_fs.specs.Passes.{IsPassOf, PassOn};

use crate::gate::Gate;
use crate::live::LiveFs;
use crate::shared::Shared;
use blk_device::Device;
use core_calls::{Answer, Ask, Glance, WriteFault};
use defer_chain::StepKind;
use std::alloc::Global;
use std::sync::Wait;
use std::thread;
use turn_lock::Pass;

// A free list is filled below so many blocks, and trimmed above so many.
const FEWEST_LISTED: u32 = 12;

const MOST_LISTED: u32 = 64;

/// Why a line isn't done: an event of it was refused, or the writer stops, with this answer.
#[derive(Clone, Copy, Debug, PartialEq, Eq)]
pub(crate) enum Halt {
    Refused,
    Stopped(WriteFault),
}

/// A chain that a writer has open, and what was told behind its last event.
#[derive(Clone, Copy, Debug, PartialEq, Eq)]
pub(crate) struct Hold {
    pub(crate) writer: u32,
    pub(crate) chain: u32,
    pub(crate) glance: Glance,
}

// Whether a writer stops at this answer of any of its events.
fn is_stop(fault: WriteFault) -> bool {
    matches!(
        fault,
        WriteFault::Memory | WriteFault::Shut(_) | WriteFault::JournalFull
    )
}

fn halt_at(fault: WriteFault) -> Halt {
    if is_stop(fault) {
        return Halt::Stopped(fault);
    }
    Halt::Refused
}

/// Why a line isn't done whose event answered this. An answer that doesn't come stops the writer too.
pub(crate) fn halt_of(answer: Answer) -> Halt {
    match answer {
        Answer::Write(fault) => halt_at(fault),
        _ => Halt::Stopped(WriteFault::Memory),
    }
}

// Whether an event that was done or not is all that was asked.
fn done(answer: Answer) -> Result<(), Halt> {
    match answer {
        Answer::Done => Ok(()),
        other => Err(halt_of(other)),
    }
}

// The step of this kind.
fn step_ask(kind: StepKind, chain: u32) -> Ask
    ensures { (n : ℕ) → MayAsk n result }
{
    match kind {
        StepKind::Rmap => Ask::RmapStep { chain },
        StepKind::Ref => Ask::RefStep { chain },
        StepKind::Free => Ask::FreeStep { chain },
    }
}

/// Opens a chain, as soon as nobody else holds its inodes and there is a chain left.
pub(crate) fn open_chain<D: Device, G: Gate, W: Wait>(
    live: &LiveFs<'_, D, G>,
    rt: &W,
    alloc: Global,
    pass: &mut Pass<Shared<D>>,
    writer: u32,
    inodes: (u64, Option<u64>),
) -> Result<Hold, Halt>
    requires pass { IsPassOf live.now.lock live.now.origin pass.old }
    ensures on { PassOn live.now.lock live.now.origin pass.old pass.new }
{
    let ask = Ask::Begin {
        writer,
        first: inodes.0,
        second: inodes.1,
    };
    for _ in rt.forever() {
        let (answer, glance) = live.take_turn(rt, alloc, pass, writer, ask);
        match answer {
            Answer::Chain(chain) => {
                return Ok(Hold {
                    writer,
                    chain,
                    glance,
                });
            }
            Answer::Write(WriteFault::Busy(_) | WriteFault::Crowded) => thread::yield_now(),
            other => return Err(halt_of(other)),
        }
    }
    unreachable!()
}

/// A turn with an event of the chain, behind which its next step is told.
pub(crate) fn ask_chain<D: Device, G: Gate, W: Wait>(
    live: &LiveFs<'_, D, G>,
    rt: &W,
    alloc: Global,
    pass: &mut Pass<Shared<D>>,
    hold: &mut Hold,
    ask: Ask,
) -> Answer
    requires pass { IsPassOf live.now.lock live.now.origin pass.old }
    requires asked { MayAsk live.now.origin.geo.agcount ask }
    ensures on { PassOn live.now.lock live.now.origin pass.old pass.new }
{
    let (answer, glance) = live.take_turn(rt, alloc, pass, hold.writer, ask);
    hold.glance = glance;
    answer
}

// Asks for the free list of a group to be filled or trimmed. What is refused is passed over, but for an
// answer at which every writer stops.
fn refill<D: Device, G: Gate, W: Wait>(
    live: &LiveFs<'_, D, G>,
    rt: &W,
    alloc: Global,
    pass: &mut Pass<Shared<D>>,
    writer: u32,
    group: u32,
) -> Result<(), Halt>
    requires pass { IsPassOf live.now.lock live.now.origin pass.old }
    ensures on { PassOn live.now.lock live.now.origin pass.old pass.new }
{
    // The group is one of the image's, since a chain told it.
    if group >= live.origin.geo.agcount {
        return Ok(());
    }
    let (answer, _) = live.take_turn(rt, alloc, pass, writer, Ask::Refill { group });
    match answer {
        Answer::Write(fault) if is_stop(fault) => Err(Halt::Stopped(fault)),
        _ => Ok(()),
    }
}

/// Fills or trims the free list on which the chain's next event draws, where it is short or long.
pub(crate) fn fill<D: Device, G: Gate, W: Wait>(
    live: &LiveFs<'_, D, G>,
    rt: &W,
    alloc: Global,
    pass: &mut Pass<Shared<D>>,
    hold: &Hold,
) -> Result<(), Halt>
    requires pass { IsPassOf live.now.lock live.now.origin pass.old }
    ensures on { PassOn live.now.lock live.now.origin pass.old pass.new }
{
    let list = hold.glance.list;
    if list >= FEWEST_LISTED && list <= MOST_LISTED {
        return Ok(());
    }
    match hold.glance.group {
        Some(group) => refill(live, rt, alloc, pass, hold.writer, group),
        None => Ok(()),
    }
}

// One step of the chain.
fn step<D: Device, G: Gate, W: Wait>(
    live: &LiveFs<'_, D, G>,
    rt: &W,
    alloc: Global,
    pass: &mut Pass<Shared<D>>,
    hold: &mut Hold,
    kind: StepKind,
) -> Result<(), Halt>
    requires pass { IsPassOf live.now.lock live.now.origin pass.old }
    ensures on { PassOn live.now.lock live.now.origin pass.old pass.new }
{
    let ask = step_ask(kind, hold.chain);
    done(ask_chain(live, rt, alloc, pass, hold, ask))
}

// One step of the chain, with the free list filled before it.
fn filled_step<D: Device, G: Gate, W: Wait>(
    live: &LiveFs<'_, D, G>,
    rt: &W,
    alloc: Global,
    pass: &mut Pass<Shared<D>>,
    hold: &mut Hold,
    kind: StepKind,
) -> Result<(), Halt>
    requires pass { IsPassOf live.now.lock live.now.origin pass.old }
    ensures on { PassOn live.now.lock live.now.origin pass.old pass.new }
{
    match fill(live, rt, alloc, pass, hold) {
        Ok(()) => step(live, rt, alloc, pass, hold, kind),
        Err(halt) => Err(halt),
    }
}

/// Does the steps of a chain, to its last one.
pub(crate) fn do_steps<D: Device, G: Gate, W: Wait>(
    live: &LiveFs<'_, D, G>,
    rt: &W,
    alloc: Global,
    pass: &mut Pass<Shared<D>>,
    hold: &mut Hold,
) -> Result<(), Halt>
    requires pass { IsPassOf live.now.lock live.now.origin pass.old }
    ensures on { PassOn live.now.lock live.now.origin pass.old pass.new }
{
    for _ in rt.forever() {
        let Some(kind) = hold.glance.next else {
            return Ok(());
        };
        if let Err(halt) = filled_step(live, rt, alloc, pass, hold, kind) {
            return Err(halt);
        }
    }
    unreachable!()
}

// Does the steps of a chain without filling free lists, as far as they are done.
fn run_out<D: Device, G: Gate, W: Wait>(
    live: &LiveFs<'_, D, G>,
    rt: &W,
    alloc: Global,
    pass: &mut Pass<Shared<D>>,
    hold: &mut Hold,
)
    requires pass { IsPassOf live.now.lock live.now.origin pass.old }
    ensures on { PassOn live.now.lock live.now.origin pass.old pass.new }
{
    for _ in rt.forever() {
        let Some(kind) = hold.glance.next else {
            return;
        };
        if step(live, rt, alloc, pass, hold, kind).is_err() {
            return;
        }
    }
    unreachable!()
}

/// Ends a chain without a step.
pub(crate) fn end_chain<D: Device, G: Gate, W: Wait>(
    live: &LiveFs<'_, D, G>,
    rt: &W,
    alloc: Global,
    pass: &mut Pass<Shared<D>>,
    hold: &mut Hold,
) -> Result<(), Halt>
    requires pass { IsPassOf live.now.lock live.now.origin pass.old }
    ensures on { PassOn live.now.lock live.now.origin pass.old pass.new }
{
    let ask = Ask::End { chain: hold.chain };
    done(ask_chain(live, rt, alloc, pass, hold, ask))
}

/// Lets go of a chain's inodes where its writer stops: others may wait for them. Its steps want neither
/// memory nor a place in the journal.
pub(crate) fn finish<D: Device, G: Gate, W: Wait>(
    live: &LiveFs<'_, D, G>,
    rt: &W,
    alloc: Global,
    pass: &mut Pass<Shared<D>>,
    hold: &mut Hold,
)
    requires pass { IsPassOf live.now.lock live.now.origin pass.old }
    ensures on { PassOn live.now.lock live.now.origin pass.old pass.new }
{
    run_out(live, rt, alloc, pass, hold);
    let _ = end_chain(live, rt, alloc, pass, hold);
}

/// Ends a chain behind what was done in it: its inodes are let go in each case.
pub(crate) fn close_chain<D: Device, G: Gate, W: Wait>(
    live: &LiveFs<'_, D, G>,
    rt: &W,
    alloc: Global,
    pass: &mut Pass<Shared<D>>,
    hold: &mut Hold,
    halt: Halt,
) -> Halt
    requires pass { IsPassOf live.now.lock live.now.origin pass.old }
    ensures on { PassOn live.now.lock live.now.origin pass.old pass.new }
{
    match halt {
        // No event is done any more.
        Halt::Stopped(WriteFault::Shut(n)) => Halt::Stopped(WriteFault::Shut(n)),
        Halt::Stopped(fault) => {
            finish(live, rt, alloc, pass, hold);
            Halt::Stopped(fault)
        }
        Halt::Refused => refused_end(live, rt, alloc, pass, hold),
    }
}

// Ends a chain whose first event was refused. The end itself may stop the writer.
fn refused_end<D: Device, G: Gate, W: Wait>(
    live: &LiveFs<'_, D, G>,
    rt: &W,
    alloc: Global,
    pass: &mut Pass<Shared<D>>,
    hold: &mut Hold,
) -> Halt
    requires pass { IsPassOf live.now.lock live.now.origin pass.old }
    ensures on { PassOn live.now.lock live.now.origin pass.old pass.new }
{
    match end_chain(live, rt, alloc, pass, hold) {
        Ok(()) => Halt::Refused,
        Err(halt) => halt,
    }
}
