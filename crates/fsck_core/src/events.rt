ghost use Rattle.std.specs.Prelude.{◌≡◌};
ghost use Rattle.core_parts.specs.Keeps.{IsGiven, IsLeft};
ghost use Rattle.core_parts.specs.Reasons.{AnswersWell};
ghost use Rattle.core_switch.specs.Says.{SaysReaping};
ghost use Rattle.fsck_core.specs.Acts.{IsGivenAll, IsWorked, TellsAll};
ghost use Rattle.fsck_core.specs.Entries.{SaysAmong, SaysIn};
ghost use Rattle.fsck_core.specs.Moves.{MovesIn};
ghost use Rattle.fsck_core.specs.Told.{told_done, told_moved, told_piece};

use blk_device::Device;
use byte_fields::Steps;
use core_begin::{advance, close, scan_piece};
use core_build::{reserve_piece, stage_piece};
use core_calls::{Answer, Moved, ScrubFault};
use core_check::{compare_piece, gather_piece};
use core_parts::{Desk, GroupKept, UnitState};
use core_switch::{reap_piece, switch};
use std::alloc::Global;
use std::sync::ledger::Ledger;

/// An event of a unit that is open and stays so (XFS Online Fsck Design, "Metadata Scrubbing").
#[derive(Clone, Copy, Debug, PartialEq, Eq)]
pub enum Event {
    Advance,
    Scan,
    Close,
    Gather,
    Compare,
    Reserve,
    Stage,
    Switch,
    Reap,
}

/// How what an event gives is told that is done in one piece.
pub(crate) fn tell_done(done: Result<(), ScrubFault>) -> Answer
    ensures { result ≡ told_done done }
{
    match done {
        Ok(()) => Answer::Done,
        Err(fault) => Answer::Scrub(fault),
    }
}

fn tell_piece(piece: Result<bool, ScrubFault>) -> Answer
    ensures { result ≡ told_piece piece }
{
    match piece {
        Ok(is_last) => Answer::Part(is_last),
        Err(fault) => Answer::Scrub(fault),
    }
}

fn tell_moved(moved: Result<Moved, ScrubFault>) -> Answer
    ensures { result ≡ told_moved moved }
{
    match moved {
        Ok(Moved::At(ino)) => Answer::At(ino),
        Ok(Moved::End) => Answer::End,
        Err(fault) => Answer::Scrub(fault),
    }
}

// Reaps the next run of limbo. Which units passed is no matter of it.
fn reap<D: Device, L: Ledger>(
    alloc: Global,
    desk: &mut Desk<D>,
    kept: &mut GroupKept,
    unit: &mut UnitState,
    steps: &mut Steps<L>,
) -> Result<bool, ScrubFault>
    requires given { IsGiven D.Device desk.old kept.old unit.old }
    ensures left { IsLeft D.Device desk.old desk.new kept.new unit.old unit.new }
    ensures reason { AnswersWell desk.new result }
    ensures unit { unit.new ≡ unit.old }
    ensures says { SaysReaping unit.old.group kept.old kept.new desk.old desk.new result }
    ensures passed { kept.new.passed ≡ kept.old.passed }
{
    let passed = kept.passed;
    let reaped = reap_piece(alloc, desk, kept, unit, steps);
    kept.passed = passed;
    reaped
}

// Does one event of an open unit.
#[tactic(auto, using(crate::proofs::ToldLemmas::piece_well, crate::proofs::ToldLemmas::done_well, crate::proofs::ToldLemmas::moved_well))]
fn run<D: Device, L: Ledger>(
    alloc: Global,
    event: Event,
    desk: &mut Desk<D>,
    kept: &mut GroupKept,
    unit: &mut UnitState,
    steps: &mut Steps<L>,
) -> Answer
    requires given { IsGiven D.Device desk.old kept.old unit.old }
    ensures left { IsLeft D.Device desk.old desk.new kept.new unit.old unit.new }
    ensures told { TellsAll desk.new result }
    ensures says { SaysIn event unit.old unit.new kept.old kept.new desk.old desk.new result }
    ensures moves { MovesIn event unit.old unit.new kept.old kept.new desk.old desk.new result }
{
    match event {
        Event::Advance => tell_moved(advance(alloc, desk, kept, unit, steps)),
        Event::Scan => tell_piece(scan_piece(alloc, desk, kept, unit, steps)),
        Event::Close => tell_done(close(desk, kept, unit)),
        Event::Gather => tell_piece(gather_piece(alloc, desk, kept, unit, steps)),
        Event::Compare => tell_piece(compare_piece(alloc, desk, kept, unit)),
        Event::Reserve => tell_piece(reserve_piece(alloc, desk, kept, unit, steps)),
        Event::Stage => tell_piece(stage_piece(alloc, desk, kept, unit, steps)),
        Event::Switch => tell_done(switch(desk, kept, unit, steps)),
        Event::Reap => tell_piece(reap(alloc, desk, kept, unit, steps)),
    }
}

/// Does one event of an open unit, with what is kept of its group among all groups.
pub(crate) fn run_among<D: Device, L: Ledger>(
    alloc: Global,
    event: Event,
    desk: &mut Desk<D>,
    groups: &mut Vec<GroupKept>,
    unit: &mut UnitState,
    steps: &mut Steps<L>,
) -> Answer
    requires given { IsGivenAll D.Device desk.old groups.old.items unit.old }
    ensures left { IsWorked D.Device desk.old desk.new groups.old.items groups.new.items unit.old unit.new }
    ensures told { TellsAll desk.new result }
    ensures says { SaysAmong event unit.old unit.new groups.old.items groups.new.items
        desk.old desk.new result }
{
    let kept = &mut groups[unit.group as usize];
    run(alloc, event, desk, kept, unit, steps)
}
