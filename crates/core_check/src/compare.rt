// The comparison of a unit's btrees with what they must hold.
ghost use Rattle.std.specs.Prelude.{◌≡◌, ℕ, ◌+◌, List, length, IfOk, OnErr, OnOk};
ghost use Rattle.core_check.specs.Ends.{IsSpareBy, end_of, verdicts};
ghost use Rattle.core_check.specs.Entries.{Follows, IsNext, Stands, TellsNext, TellsPiece, which_of};
ghost use Rattle.core_check.specs.Leaves.{IsComparedBy, Leaves};
ghost use Rattle.core_check.specs.Told.{IsKnown};
ghost use Rattle.core_parts.specs.Common.Asks.{IsUsable};
ghost use Rattle.core_parts.specs.Common.Entries.{HasMore};
ghost use Rattle.core_units.specs.Compared.{AreComparable};
ghost use Rattle.core_units.specs.Judging.{IsJudging, StaysJudged};
ghost use Rattle.core_parts.specs.Keeps.{IsGiven, IsLeft};
ghost use Rattle.core_parts.specs.Reasons.{AnswersWell};
ghost use Rattle.core_parts.specs.Safe.{IsWork};
ghost use Rattle.fs_model.specs.declared.entry.Entry.{Entry};
ghost use Rattle.geom.specs.Layout.{Layout};
ghost use Rattle.geom.specs.Places.{layout};
ghost use Rattle.unit_trust.specs.Trusts.{KnownBy};

use crate::heads::listed_heads;
use crate::tell::{decide, outcome_of, piece_room, tell_faults};
use crate::work::{Left, Which, put_work, take_work};
use blk_device::Device;
use core_calls::ScrubFault;
use core_edit::EditHeads;
use core_parts::{Desk, GroupKept, UnitState, Work, phase_of};
use core_units::{Judging, Place, compare_piece as compare_next};
use fs_model::Fault;
use std::alloc::{AllocError, Global};

// A piece of a comparison: where it led, the faults that it found, and where the comparison stood before,
// with the count of faults that were found up to there.
#[derive(Drop)]
struct Piece {
    judging: Judging,
    faults: Vec<Fault>,
    at: Place,
    found: u64,
}

// The faults of the next piece, in memory alone. `kept` tells whether heads count the blocks of inode
// btrees.
fn compare_in(
    alloc: Global,
    kept: bool,
    heads: &EditHeads,
    judging: &mut Judging,
) -> Result<Vec<Fault>, AllocError>
    requires { AreComparable judging.old.trees judging.old.lists }
    ensures judging { (at : Layout) (g : ℕ) → IsJudging at g judging.old → IsJudging at g judging.new }
    ensures stays { StaysJudged judging.old judging.new }
    ensures kept { OnErr result (judging.new ≡ judging.old) }
    ensures next { IfOk result (λ piece. IsNext kept heads.now judging.old judging.new piece.items) }
{
    let heads = listed_heads(alloc, heads)?;
    compare_next(alloc, kept, &heads, judging)
}

// Tells the faults of a piece, and goes on as it leaves the unit, in room that is there.
fn enter_piece<D: Device>(
    desk: &mut Desk<D>,
    kept: &mut GroupKept,
    which: Which,
    judging: Judging,
    faults: &[Fault],
) -> Left
    requires usable { IsUsable D.Device desk.old }
    requires judging { IsJudging (layout desk.old.store.geo) which.group judging }
    requires room { IsSpareBy (length faults.now + verdicts (end_of which.plan judging.at judging.found))
        desk.old.book.journal }
    ensures leaves { Leaves D.Device desk.old desk.new which.group result }
    ensures limbo { kept.new.limbo ≡ kept.old.limbo }
    ensures phase { IsComparedBy result }
    ensures follows { Follows which judging faults.now desk.old desk.new result }
    ensures known { IsKnown desk.old desk.new kept.old kept.new }
{
    let outcome = outcome_of(which.plan, &judging);
    tell_faults(desk, kept, which, faults);
    decide(desk, kept, which, judging, outcome)
}

// The comparison where it stood before a piece.
fn put_back(piece: Piece) -> Judging
    ensures stood { result ≡ record piece.judging { at = piece.at; found = piece.found } }
    ensures judging { (at : Layout) (g : ℕ) → IsJudging at g piece.judging → IsJudging at g result }
{
    let Piece {
        judging,
        faults: _,
        at,
        found,
    } = piece;
    let mut judging = judging;
    judging.at = at;
    judging.found = found;
    judging
}

// Tells the faults of a piece where the journal has room. Where it has none, the comparison stands where it
// stood.
fn compare_on<D: Device>(
    desk: &mut Desk<D>,
    kept: &mut GroupKept,
    which: Which,
    piece: Piece,
) -> Left
    requires usable { IsUsable D.Device desk.old }
    requires judging { IsJudging (layout desk.old.store.geo) which.group piece.judging }
    ensures leaves { Leaves D.Device desk.old desk.new which.group result }
    ensures limbo { kept.new.limbo ≡ kept.old.limbo }
    ensures phase { IsComparedBy result }
    ensures follows { OnOk result.answer
        (Follows which piece.judging piece.faults.items desk.old desk.new result) }
    ensures stands { OnErr result.answer (Stands
        (Work.Gathered (record piece.judging { at = piece.at; found = piece.found }))
        desk.old desk.new result) }
    ensures known { OnOk result.answer (IsKnown desk.old desk.new kept.old kept.new) }
    ensures unknown { OnErr result.answer (kept.new ≡ kept.old) }
{
    let outcome = outcome_of(which.plan, &piece.judging);
    match piece_room(desk, piece.faults.as_slice(), outcome) {
        Ok(()) => {
            let Piece {
                judging,
                faults,
                ..
            } = piece;
            enter_piece(desk, kept, which, judging, faults.as_slice())
        }
        Err(fault) => Left {
            work: Work::Gathered(put_back(piece)),
            answer: Err(fault),
        },
    }
}

// The next piece.
fn compare_more<D: Device>(
    alloc: Global,
    desk: &mut Desk<D>,
    kept: &mut GroupKept,
    which: Which,
    judging: Judging,
) -> Left
    requires usable { IsUsable D.Device desk.old }
    requires judging { IsJudging (layout desk.old.store.geo) which.group judging }
    ensures leaves { Leaves D.Device desk.old desk.new which.group result }
    ensures limbo { kept.new.limbo ≡ kept.old.limbo }
    ensures phase { IsComparedBy result }
    ensures tells { OnOk result.answer
        (TellsNext which kept.old.heads judging desk.old desk.new result) }
    ensures stands { OnErr result.answer (Stands (Work.Gathered judging) desk.old desk.new result) }
    ensures known { OnOk result.answer (IsKnown desk.old desk.new kept.old kept.new) }
    ensures unknown { OnErr result.answer (kept.new ≡ kept.old) }
{
    let at = judging.at;
    let found = judging.found;
    let mut judging = judging;
    let counted = desk.store.geo.inobtcount;
    match compare_in(alloc, counted, &kept.heads, &mut judging) {
        Ok(faults) => {
            let piece = Piece {
                judging,
                faults,
                at,
                found,
            };
            compare_on(desk, kept, which, piece)
        }
        Err(_) => Left {
            work: Work::Gathered(judging),
            answer: Err(ScrubFault::Memory),
        },
    }
}

// A piece of the comparison, by the unit's work; in another phase nothing is done.
fn compare_work<D: Device>(
    alloc: Global,
    desk: &mut Desk<D>,
    kept: &mut GroupKept,
    which: Which,
    work: Work,
) -> Left
    requires usable { IsUsable D.Device desk.old }
    requires work { IsWork (layout desk.old.store.geo) which.group work }
    ensures leaves { Leaves D.Device desk.old desk.new which.group result }
    ensures limbo { kept.new.limbo ≡ kept.old.limbo }
    ensures phase { IsComparedBy result }
    ensures tells { OnOk result.answer
        (TellsPiece which kept.old.heads work desk.old desk.new result) }
    ensures stands { OnErr result.answer (Stands work desk.old desk.new result) }
    ensures known { OnOk result.answer (IsKnown desk.old desk.new kept.old kept.new) }
    ensures unknown { OnErr result.answer (kept.new ≡ kept.old) }
{
    match work {
        Work::Gathered(judging) => compare_more(alloc, desk, kept, which, judging),
        work => {
            let phase = phase_of(&work);
            Left {
                work,
                answer: Err(ScrubFault::OtherPhase(phase)),
            }
        }
    }
}

/// Compares the next 512 records of the open unit, or its counters at the end, with what was derived, and
/// tells each fault; the kind of a fault becomes sick. The device isn't asked. The last piece says true:
/// then the unit has its verdict, good or with so many faults, or is to be rebuilt
/// (XFS Online Fsck Design, "Cross-Referencing Space Metadata").
pub fn compare_piece<D: Device>(
    alloc: Global,
    desk: &mut Desk<D>,
    kept: &mut GroupKept,
    unit: &mut UnitState,
) -> Result<bool, ScrubFault>
    requires given { IsGiven D.Device desk.old kept.old unit.old }
    ensures left { IsLeft D.Device desk.old desk.new kept.new unit.old unit.new }
    ensures reason { AnswersWell desk.new result }
    ensures phase { IsComparedBy (record { work = unit.new.work; answer = result }) }
    ensures tells { OnOk result (TellsPiece (which_of unit.old) kept.old.heads unit.old.work
        desk.old desk.new (record { work = unit.new.work; answer = result })) }
    ensures items { OnErr result (desk.new.book.journal.items ≡ desk.old.book.journal.items) }
    ensures stands { OnErr result (unit.new ≡ unit.old) }
    ensures known { OnOk result ((es : List Entry) → HasMore desk.old desk.new es
        → KnownBy es kept.old kept.new) }
    ensures unknown { OnErr result (kept.new ≡ kept.old) }
    ensures rest { unit.new ≡ record unit.old { work = unit.new.work } }
{
    let which = Which {
        group: unit.group,
        unit: unit.unit,
        plan: unit.plan,
    };
    let work = take_work(unit);
    let left = compare_work(alloc, desk, kept, which, work);
    let Left { work, answer } = left;
    put_work(unit, work);
    answer
}
