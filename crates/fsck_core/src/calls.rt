ghost use Rattle.std.specs.Prelude.{◌≡◌};
ghost use Rattle.core_parts.specs.Keeps.{IsSteady};
ghost use Rattle.core_parts.specs.Reasons.{TellsWell};
ghost use Rattle.core_parts.specs.Safe.{IsSafe};
ghost use Rattle.fsck_core.specs.Acts.{Acts, StaysShut, TellsAll};
ghost use Rattle.fsck_core.specs.Asks.{MayAsk, group_asked, phase_of_group};
ghost use Rattle.fsck_core.specs.Entries.{Says};
ghost use Rattle.fsck_core.specs.Said.{SaysEvent};

use crate::asks::{group_of, phase_behind};
use crate::events::Event;
use crate::groups::{reopen_in, run_in, start_in};
use crate::writers::write_in;
use blk_device::Device;
use byte_fields::Steps;
use core_calls::{Answer, Ask, Phase};
use core_parts::Parts;
use std::alloc::Global;
use std::sync::ledger::Ledger;

/// Does one event, and answers it.
pub(crate) fn answer_of<D: Device, L: Ledger>(
    alloc: Global,
    parts: &mut Parts<D>,
    ask: Ask,
    steps: &mut Steps<L>,
) -> Answer
    requires safe { IsSafe D.Device parts.old }
    requires asked { MayAsk parts.old.desk.store.geo.agcount ask }
    ensures acted { Acts D.Device parts.old parts.new result }
    ensures says { Says ask parts.old parts.new result }
    ensures said { SaysEvent ask result parts.old parts.new }
{
    match ask {
        Ask::Start {
            group,
            unit,
            plan,
            turns,
        } => start_in(alloc, parts, group, unit, plan, turns),
        Ask::Advance { group } => run_in(alloc, Event::Advance, parts, group, steps),
        Ask::ScanPiece { group } => run_in(alloc, Event::Scan, parts, group, steps),
        Ask::Close { group } => run_in(alloc, Event::Close, parts, group, steps),
        Ask::GatherPiece { group } => run_in(alloc, Event::Gather, parts, group, steps),
        Ask::ComparePiece { group } => run_in(alloc, Event::Compare, parts, group, steps),
        Ask::ReservePiece { group } => run_in(alloc, Event::Reserve, parts, group, steps),
        Ask::StagePiece { group } => run_in(alloc, Event::Stage, parts, group, steps),
        Ask::Switch { group } => run_in(alloc, Event::Switch, parts, group, steps),
        Ask::ReapPiece { group } => run_in(alloc, Event::Reap, parts, group, steps),
        Ask::Reopen { group } => reopen_in(parts, group),
        _ => write_in(alloc, parts, ask, steps),
    }
}

/// Does one event of the core, and answers it, with the phase of the event's group behind it. A `note` is
/// an event of a `Core` alone, and is answered with Memory here
/// (XFS Online Fsck Design, "Metadata Scrubbing" and "Metadata Repair").
#[tactic(auto, using(crate::proofs::ToldLemmas::tells_well))]
pub fn act<D: Device, L: Ledger>(
    alloc: Global,
    parts: &mut Parts<D>,
    ask: Ask,
    steps: &mut Steps<L>,
) -> (Answer, Phase)
    requires safe { IsSafe D.Device parts.old }
    requires asked { MayAsk parts.old.desk.store.geo.agcount ask }
    ensures safe { IsSafe D.Device parts.new }
    ensures steady { IsSteady D.Device parts.old.desk parts.new.desk }
    ensures told { TellsWell parts.new.desk result.0 }
    ensures all { TellsAll parts.new.desk result.0 }
    ensures shut { StaysShut parts.old.desk parts.new.desk }
    ensures says { Says ask parts.old parts.new result.0 }
    ensures said { SaysEvent ask result.0 parts.old parts.new }
    ensures phase { result.1 ≡ phase_of_group parts.new.units.items (group_asked ask) }
{
    let answer = answer_of(alloc, parts, ask, steps);
    let phase = phase_behind(parts.units.as_slice(), group_of(ask));
    (answer, phase)
}
