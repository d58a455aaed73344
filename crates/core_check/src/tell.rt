// The faults that a piece found, and what its end makes of the unit.
ghost use Rattle.std.specs.Prelude.{◌≡◌, ◌+◌, ◌∷◌, [], Ok, length, map, IfSome, OnOk};
ghost use Rattle.core_check.specs.Ends.{IsSpareBy, end_of, verdicts};
ghost use Rattle.core_check.specs.Entries.{is_end, verdict_by, work_by};
ghost use Rattle.core_check.specs.Leaves.{IsComparedBy, Leaves};
ghost use Rattle.core_check.specs.Told.{Tells, entry_of};
ghost use Rattle.core_parts.specs.Common.Asks.{Answers, IsUsable};
ghost use Rattle.core_parts.specs.Common.Entries.{HasMore, verdict_entry};
ghost use Rattle.core_units.specs.Judging.{IsJudging};
ghost use Rattle.core_parts.specs.Keeps.{IsSteady};
ghost use Rattle.geom.specs.Places.{layout};
ghost use Rattle.unit_trust.specs.Trusts.{KnownBy};

use crate::kinds::kind_of_fault;
use crate::work::{Left, Which};
use blk_device::Device;
use core_calls::ScrubFault;
use core_parts::common::{add_entry, entry_room, judged_good, mark_sick};
use core_parts::{Desk, GroupKept, Work};
use core_units::{Judging, Place};
use fs_model::{Entry, Fault, Verdict};
use fs_state::Plan;

/// What a piece of a comparison leaves to be done: the next piece; or, after the last, the verdict that the
/// unit is good or has so many faults, or its rebuild.
#[derive(Clone, Copy)]
pub(crate) enum Outcome {
    More,
    Good,
    Faulty(u64),
    Rebuild,
}

/// What a piece leaves to be done, by where the comparison stands and how many faults it found.
pub(crate) fn outcome_of(plan: Plan, judging: &Judging) -> Outcome
    ensures { result ≡ end_of plan judging.now.at judging.now.found }
{
    if !matches!(judging.at, Place::End) {
        return Outcome::More;
    }
    match plan {
        Plan::Check => {
            if judging.found == 0 {
                Outcome::Good
            } else {
                Outcome::Faulty(judging.found)
            }
        }
        Plan::Repair => {
            if judging.found == 0 {
                Outcome::Good
            } else {
                Outcome::Rebuild
            }
        }
        Plan::Rebuild => Outcome::Rebuild,
    }
}

// How many entries a piece with so many faults adds.
fn entries_of(faults: usize, outcome: Outcome) -> Option<usize>
    ensures { IfSome result (λ many. many ≡ faults + verdicts outcome) }
{
    match outcome {
        Outcome::Good | Outcome::Faulty(_) => faults.checked_add(1),
        Outcome::More | Outcome::Rebuild => Some(faults),
    }
}

/// Room for the entries of a piece. Where it adds none, the journal isn't asked.
pub(crate) fn piece_room<D: Device>(
    desk: &mut Desk<D>,
    faults: &[Fault],
    outcome: Outcome,
) -> Result<(), ScrubFault>
    requires usable { IsUsable D.Device desk.old }
    ensures answers { Answers D.Device desk.old desk.new result }
    ensures room { OnOk result (IsSpareBy (length faults.now + verdicts outcome) desk.new.book.journal) }
    ensures items { desk.new.book.journal.items ≡ desk.old.book.journal.items }
{
    // Never: no list has so many faults.
    let Some(many) = entries_of(faults.len(), outcome) else {
        return Err(ScrubFault::Memory);
    };
    if many == 0 {
        return Ok(());
    }
    entry_room(desk, many)
}

/// Adds an entry for each fault, and makes its kind sick, in room that is there.
pub(crate) fn tell_faults<D: Device>(
    desk: &mut Desk<D>,
    kept: &mut GroupKept,
    which: Which,
    faults: &[Fault],
)
    requires room { IsSpareBy (length faults.now) desk.old.book.journal }
    ensures told { Tells which.group which.unit faults.now desk.old desk.new }
    ensures limbo { kept.new.limbo ≡ kept.old.limbo }
    ensures known { KnownBy (map (entry_of which.group which.unit) faults.now) kept.old kept.new }
{
    for fault in faults {
        mark_sick(kept, kind_of_fault(fault));
        add_entry(
            desk,
            Entry::Fault {
                group: which.group,
                unit: which.unit,
                fault: *fault,
            },
        );
    }
}

// Adds the verdict of a unit, in room that is there.
fn add_verdict<D: Device>(desk: &mut Desk<D>, which: Which, verdict: Verdict)
    requires usable { IsUsable D.Device desk.old }
    requires room { IsSpareBy 1 desk.old.book.journal }
    ensures usable { IsUsable D.Device desk.new }
    ensures steady { IsSteady D.Device desk.old desk.new }
    ensures said { HasMore desk.old desk.new (verdict_entry which.group which.unit verdict ∷ []) }
{
    add_entry(
        desk,
        Entry::Verdict {
            group: which.group,
            unit: which.unit,
            verdict,
        },
    );
}

/// Goes on as a piece leaves the unit: with the comparison, with a rebuild, or with the verdict, in room
/// that is there.
pub(crate) fn decide<D: Device>(
    desk: &mut Desk<D>,
    kept: &mut GroupKept,
    which: Which,
    judging: Judging,
    outcome: Outcome,
) -> Left
    requires usable { IsUsable D.Device desk.old }
    requires judging { IsJudging (layout desk.old.store.geo) which.group judging }
    requires room { IsSpareBy (verdicts outcome) desk.old.book.journal }
    ensures leaves { Leaves D.Device desk.old desk.new which.group result }
    ensures limbo { kept.new.limbo ≡ kept.old.limbo }
    ensures phase { IsComparedBy result }
    ensures entries { HasMore desk.old desk.new (verdict_by which.group which.unit outcome) }
    ensures known { KnownBy (verdict_by which.group which.unit outcome) kept.old kept.new }
    ensures work { result.work ≡ work_by judging outcome }
    ensures answer { result.answer ≡ Ok (is_end outcome) }
{
    match outcome {
        Outcome::More => Left {
            work: Work::Gathered(judging),
            answer: Ok(false),
        },
        Outcome::Good => {
            judged_good(kept, which.unit);
            add_verdict(desk, which, Verdict::Good);
            Left {
                work: Work::Judged,
                answer: Ok(true),
            }
        }
        Outcome::Faulty(found) => {
            add_verdict(desk, which, Verdict::Faulty(found));
            Left {
                work: Work::Judged,
                answer: Ok(true),
            }
        }
        Outcome::Rebuild => Left {
            work: Work::Chosen(judging),
            answer: Ok(true),
        },
    }
}
