// The gathering of what a unit is judged by.
ghost use Rattle.std.specs.Prelude.{◌≡◌, ◌<◌, IfErr, IfOk, List, OnErr};
ghost use Rattle.core_check.specs.Entries.{GivesEvidence, IsGatheredBy, IsLeftByGathering};
ghost use Rattle.core_check.specs.Leaves.{IsGathered, Leaves};
ghost use Rattle.core_parts.specs.Common.Asks.{Answers, IsUsable};
ghost use Rattle.core_parts.specs.Common.Entries.{HasMore, IsHalt, WantsRoom, entries_of, entries_on};
ghost use Rattle.core_units.specs.Orderly.{IsOrderly, IsWholeIf};
ghost use Rattle.core_parts.specs.Keeps.{IsAsked, IsGiven, IsLeft, failed_by};
ghost use Rattle.core_parts.specs.Reasons.{AnswersWell};
ghost use Rattle.core_parts.specs.Safe.{IsWork};
ghost use Rattle.geom.specs.Places.{layout};
ghost use Rattle.inode_pass.specs.Stops.{is_failed};
ghost use Rattle.quiet_check.specs.Judged.{AreUnitsOf};
ghost use Rattle.rmap_recs.specs.declared.records.RmapRec.{RmapRec as RmapRecOf};

use crate::heads::listed_heads;
use crate::work::{Left, Which, put_work, take_work};
use blk_device::Device;
use byte_fields::Steps;
use core_calls::ScrubFault;
use core_parts::common::{say_verdict, stop_by};
use core_parts::{Desk, GroupKept, UnitState, Work, phase_of};
use core_units::{Concluded, Gathered, Gathering, begin, conclude, gather_piece as gather_next};
use fs_model::{Evidence, Reason, Verdict};
use group_trees::GroupHeads;
use inode_pass::PassStop;
use rmap_recs::RmapRec;
use std::alloc::Global;
use std::sync::ledger::Ledger;

fn is_devices(stop: PassStop) -> bool
    ensures { result ≡ is_failed stop }
{
    matches!(stop, PassStop::Failed)
}

// One piece of the gathering, on the device.
fn gather_on<D: Device, L: Ledger>(
    alloc: Global,
    desk: &mut Desk<D>,
    heads: &GroupHeads,
    which: Which,
    gathered: &mut Gathered,
    steps: &mut Steps<L>,
) -> Result<Gathering, PassStop>
    requires usable { IsUsable D.Device desk.old }
    requires group { which.group < desk.old.store.geo.agcount }
    requires orderly { IsOrderly (layout desk.old.store.geo) which.group gathered.old }
    ensures orderly { IsOrderly (layout desk.old.store.geo) which.group gathered.new }
    ensures whole { IfOk result (IsWholeIf (layout desk.old.store.geo) which.group gathered.new) }
    ensures asked { IsAsked D.Device (failed_by is_failed result) desk.old desk.new }
    ensures owners { gathered.new.owners ≡ gathered.old.owners }
{
    let dev = &mut desk.store.dev;
    let cache = &mut desk.store.cache;
    let geo = &desk.store.geo;
    let Which { group, unit, .. } = which;
    gather_next(alloc, dev, cache, geo, group, heads, unit, gathered, steps)
}

// The same, with what the event answers where it stops.
fn gather_more<D: Device, L: Ledger>(
    alloc: Global,
    desk: &mut Desk<D>,
    heads: &GroupHeads,
    which: Which,
    gathered: &mut Gathered,
    steps: &mut Steps<L>,
) -> Result<Gathering, ScrubFault>
    requires usable { IsUsable D.Device desk.old }
    requires group { which.group < desk.old.store.geo.agcount }
    requires orderly { IsOrderly (layout desk.old.store.geo) which.group gathered.old }
    ensures orderly { IsOrderly (layout desk.new.store.geo) which.group gathered.new }
    ensures whole { IfOk result (IsWholeIf (layout desk.new.store.geo) which.group gathered.new) }
    ensures answers { Answers D.Device desk.old desk.new result }
    ensures items { desk.new.book.journal.items ≡ desk.old.book.journal.items }
    ensures halts { IfErr result IsHalt }
    ensures owners { gathered.new.owners ≡ gathered.old.owners }
{
    match gather_on(alloc, desk, heads, which, gathered, steps) {
        Ok(gathering) => Ok(gathering),
        Err(stop) => Err(stop_by(desk, is_devices(stop))),
    }
}

// The verdict of a unit whose derivation this evidence contradicts, as the event answers it.
fn note_evidence<D: Device>(
    desk: &mut Desk<D>,
    which: Which,
    evidence: Evidence,
) -> Result<Reason, ScrubFault>
    requires usable { IsUsable D.Device desk.old }
    ensures answers { Answers D.Device desk.old desk.new result }
    ensures said { IfOk result (λ reason. HasMore desk.old desk.new
        (entries_on which.group which.unit (ScrubFault.GaveUp reason))) }
    ensures unsaid { OnErr result (desk.new.book.journal.items ≡ desk.old.book.journal.items) }
    ensures wants { IfErr result WantsRoom }
    ensures gives { IfOk result (λ reason. GivesEvidence (ScrubFault.GaveUp reason)) }
{
    let reason = Reason::Contradiction(evidence);
    say_verdict(desk, which.group, which.unit, Verdict::GaveUp(reason))?;
    Ok(reason)
}

// Gives a unit up before all is gathered; where the verdict has no room, what was gathered stays.
fn give_up<D: Device>(
    desk: &mut Desk<D>,
    which: Which,
    gathered: Gathered,
    evidence: Evidence,
) -> Left
    requires usable { IsUsable D.Device desk.old }
    requires orderly { IsOrderly (layout desk.old.store.geo) which.group gathered }
    ensures leaves { Leaves D.Device desk.old desk.new which.group result }
    ensures phase { IsGathered result }
    ensures entries { HasMore desk.old desk.new (entries_of which.group which.unit result.answer) }
    ensures stands { IfErr result.answer (λ fault.
        IsGatheredBy gathered.owners.items fault result.work) }
    ensures gives { IfErr result.answer GivesEvidence }
{
    match note_evidence(desk, which, evidence) {
        Ok(reason) => Left {
            work: Work::Judged,
            answer: Err(ScrubFault::GaveUp(reason)),
        },
        Err(fault) => Left {
            work: Work::Gathering(gathered),
            answer: Err(fault),
        },
    }
}

// Gives a unit up of which all was gathered, and is lost.
fn give_up_whole<D: Device>(desk: &mut Desk<D>, which: Which, evidence: Evidence) -> Left
    requires usable { IsUsable D.Device desk.old }
    ensures leaves { Leaves D.Device desk.old desk.new which.group result }
    ensures phase { IsGathered result }
    ensures entries { HasMore desk.old desk.new (entries_of which.group which.unit result.answer) }
    ensures stands { (owners : List RmapRecOf) → IfErr result.answer (λ fault.
        IsGatheredBy owners fault result.work) }
    ensures gives { IfErr result.answer GivesEvidence }
{
    match note_evidence(desk, which, evidence) {
        Ok(reason) => Left {
            work: Work::Judged,
            answer: Err(ScrubFault::GaveUp(reason)),
        },
        Err(fault) => Left {
            work: Work::Judged,
            answer: Err(fault),
        },
    }
}

// What follows from all that was gathered.
fn conclude_unit<D: Device>(
    alloc: Global,
    desk: &mut Desk<D>,
    kept: &GroupKept,
    which: Which,
    heads: &GroupHeads,
    gathered: Gathered,
) -> Left
    requires usable { IsUsable D.Device desk.old }
    requires group { which.group < desk.old.store.geo.agcount }
    requires orderly { IsOrderly (layout desk.old.store.geo) which.group gathered }
    requires units { AreUnitsOf (layout desk.old.store.geo) which.group gathered.trees gathered.seen.items }
    ensures leaves { Leaves D.Device desk.old desk.new which.group result }
    ensures phase { IsGathered result }
    ensures entries { HasMore desk.old desk.new (entries_of which.group which.unit result.answer) }
    ensures stands { IfErr result.answer (λ fault.
        IsGatheredBy gathered.owners.items fault result.work) }
    ensures gives { IfErr result.answer GivesEvidence }
{
    let geo = &desk.store.geo;
    let limbo = kept.limbo.as_slice();
    match conclude(alloc, geo, which.group, heads, which.unit, gathered, limbo) {
        Ok(Concluded::Judging(judging)) => Left {
            work: Work::Gathered(judging),
            answer: Ok(true),
        },
        Ok(Concluded::GaveUp(evidence)) => give_up_whole(desk, which, evidence),
        Err(_) => Left {
            work: Work::Judged,
            answer: Err(ScrubFault::Memory),
        },
    }
}

// What follows from a piece that was gathered.
fn follow<D: Device>(
    alloc: Global,
    desk: &mut Desk<D>,
    kept: &GroupKept,
    which: Which,
    heads: &GroupHeads,
    piece: Piece,
) -> Left
    requires usable { IsUsable D.Device desk.old }
    requires group { which.group < desk.old.store.geo.agcount }
    requires orderly { IsOrderly (layout desk.old.store.geo) which.group piece.gathered }
    requires whole { IsWholeIf (layout desk.old.store.geo) which.group piece.gathered piece.gathering }
    ensures leaves { Leaves D.Device desk.old desk.new which.group result }
    ensures phase { IsGathered result }
    ensures entries { HasMore desk.old desk.new (entries_of which.group which.unit result.answer) }
    ensures stands { IfErr result.answer (λ fault.
        IsGatheredBy piece.gathered.owners.items fault result.work) }
    ensures gives { IfErr result.answer GivesEvidence }
{
    let Piece {
        gathered,
        gathering,
    } = piece;
    match gathering {
        Gathering::More => Left {
            work: Work::Gathering(gathered),
            answer: Ok(false),
        },
        Gathering::Whole => conclude_unit(alloc, desk, kept, which, heads, gathered),
        Gathering::GaveUp(evidence) => give_up(desk, which, gathered, evidence),
    }
}

// What is gathered, and what the last piece says.
struct Piece {
    gathered: Gathered,
    gathering: Gathering,
}

// One piece more of the gathering, by these heads.
fn gather_by<D: Device, L: Ledger>(
    alloc: Global,
    desk: &mut Desk<D>,
    kept: &GroupKept,
    which: Which,
    heads: &GroupHeads,
    gathered: Gathered,
    steps: &mut Steps<L>,
) -> Left
    requires usable { IsUsable D.Device desk.old }
    requires group { which.group < desk.old.store.geo.agcount }
    requires orderly { IsOrderly (layout desk.old.store.geo) which.group gathered }
    ensures leaves { Leaves D.Device desk.old desk.new which.group result }
    ensures phase { IsGathered result }
    ensures entries { HasMore desk.old desk.new (entries_of which.group which.unit result.answer) }
    ensures stands { IfErr result.answer (λ fault.
        IsGatheredBy gathered.owners.items fault result.work) }
    ensures gives { IfErr result.answer GivesEvidence }
{
    let mut gathered = gathered;
    match gather_more(alloc, desk, heads, which, &mut gathered, steps) {
        Ok(gathering) => {
            let piece = Piece {
                gathered,
                gathering,
            };
            follow(alloc, desk, kept, which, heads, piece)
        }
        Err(fault) => Left {
            work: Work::Gathering(gathered),
            answer: Err(fault),
        },
    }
}

// The same, from what is gathered so far.
fn gather_from<D: Device, L: Ledger>(
    alloc: Global,
    desk: &mut Desk<D>,
    kept: &GroupKept,
    which: Which,
    gathered: Gathered,
    steps: &mut Steps<L>,
) -> Left
    requires usable { IsUsable D.Device desk.old }
    requires group { which.group < desk.old.store.geo.agcount }
    requires orderly { IsOrderly (layout desk.old.store.geo) which.group gathered }
    ensures leaves { Leaves D.Device desk.old desk.new which.group result }
    ensures phase { IsGathered result }
    ensures entries { HasMore desk.old desk.new (entries_of which.group which.unit result.answer) }
    ensures stands { IfErr result.answer (λ fault.
        IsGatheredBy gathered.owners.items fault result.work) }
    ensures gives { IfErr result.answer GivesEvidence }
{
    match listed_heads(alloc, &kept.heads) {
        Ok(heads) => gather_by(alloc, desk, kept, which, &heads, gathered, steps),
        Err(_) => Left {
            work: Work::Gathering(gathered),
            answer: Err(ScrubFault::Memory),
        },
    }
}

// The first piece. Where there is no memory to begin, the owners are lost.
fn gather_first<D: Device, L: Ledger>(
    alloc: Global,
    desk: &mut Desk<D>,
    kept: &GroupKept,
    which: Which,
    owners: Vec<RmapRec>,
    steps: &mut Steps<L>,
) -> Left
    requires usable { IsUsable D.Device desk.old }
    requires group { which.group < desk.old.store.geo.agcount }
    ensures leaves { Leaves D.Device desk.old desk.new which.group result }
    ensures phase { IsGathered result }
    ensures entries { HasMore desk.old desk.new (entries_of which.group which.unit result.answer) }
    ensures stands { IfErr result.answer (λ fault.
        IsGatheredBy owners.items fault result.work) }
    ensures gives { IfErr result.answer GivesEvidence }
{
    match begin(alloc, &kept.bad, owners) {
        Ok(gathered) => gather_from(alloc, desk, kept, which, gathered, steps),
        Err(_) => Left {
            work: Work::Judged,
            answer: Err(ScrubFault::Memory),
        },
    }
}

// A piece of the gathering, by the unit's work; in another phase nothing is done.
fn gather_work<D: Device, L: Ledger>(
    alloc: Global,
    desk: &mut Desk<D>,
    kept: &GroupKept,
    which: Which,
    work: Work,
    steps: &mut Steps<L>,
) -> Left
    requires usable { IsUsable D.Device desk.old }
    requires group { which.group < desk.old.store.geo.agcount }
    requires work { IsWork (layout desk.old.store.geo) which.group work }
    ensures leaves { Leaves D.Device desk.old desk.new which.group result }
    ensures phase { IsGathered result }
    ensures entries { HasMore desk.old desk.new (entries_of which.group which.unit result.answer) }
    ensures stands { IfErr result.answer (λ fault.
        IsLeftByGathering work fault result.work) }
    ensures gives { IfErr result.answer GivesEvidence }
{
    match work {
        Work::Closed(owners) => gather_first(alloc, desk, kept, which, owners, steps),
        Work::Gathering(gathered) => gather_from(alloc, desk, kept, which, gathered, steps),
        work => {
            let phase = phase_of(&work);
            Left {
                work,
                answer: Err(ScrubFault::OtherPhase(phase)),
            }
        }
    }
}

/// Gathers one piece of what the open unit is judged by, once its group is closed: a leaf of one of the
/// group's btrees, or the cores of at most 100 units of inodes. The last piece says true: then what the
/// unit's btrees must hold is known. Evidence against the derivation gives the unit up
/// (XFS Online Fsck Design, "Cross-Referencing Space Metadata").
pub fn gather_piece<D: Device, L: Ledger>(
    alloc: Global,
    desk: &mut Desk<D>,
    kept: &mut GroupKept,
    unit: &mut UnitState,
    steps: &mut Steps<L>,
) -> Result<bool, ScrubFault>
    requires given { IsGiven D.Device desk.old kept.old unit.old }
    ensures left { IsLeft D.Device desk.old desk.new kept.new unit.old unit.new }
    ensures reason { AnswersWell desk.new result }
    ensures kept { kept.new ≡ kept.old }
    ensures phase { IsGathered (record { work = unit.new.work; answer = result }) }
    ensures entries { HasMore desk.old desk.new (entries_of unit.old.group unit.old.unit result) }
    ensures stands { IfErr result (λ fault.
        IsLeftByGathering unit.old.work fault unit.new.work) }
    ensures gives { IfErr result GivesEvidence }
    ensures rest { unit.new ≡ record unit.old { work = unit.new.work } }
{
    let which = Which {
        group: unit.group,
        unit: unit.unit,
        plan: unit.plan,
    };
    let work = take_work(unit);
    let left = gather_work(alloc, desk, kept, which, work, steps);
    let Left { work, answer } = left;
    put_work(unit, work);
    answer
}
