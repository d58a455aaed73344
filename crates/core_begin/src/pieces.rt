ghost use Rattle.std.specs.Prelude.{◌≡◌, IfErr, OnOk};
ghost use Rattle.core_begin.specs.After.{IsGivingUp, IsLeftByPiece, MayRead, left_by};
ghost use Rattle.core_begin.specs.Early.{IsEarly};
ghost use Rattle.core_calls.specs.declared.answers.Phase.{Phase};
ghost use Rattle.core_parts.specs.Common.Asks.{Answers, IsStopped, IsUsable};
ghost use Rattle.core_parts.specs.Common.Entries.{HasMore, IsHalt, entries_of};
ghost use Rattle.core_parts.specs.Keeps.{IsAsked, IsGiven, IsLeft, failed_by};
ghost use Rattle.core_parts.specs.Phases.{phase_in};
ghost use Rattle.core_parts.specs.Reasons.{AnswersWell};
ghost use Rattle.core_scan.specs.Calls.{Stays, is_failed};

use crate::giving::give_up;
use crate::taking::{put_scan, take_scan};
use blk_device::Device;
use byte_fields::Steps;
use core_calls::{Phase, ScrubFault};
use core_parts::common::stop_by;
use core_parts::{Desk, GroupKept, UnitState, Work, phase_of};
use core_scan::{Scan, ScanStop, read_piece};
use fs_model::{Evidence, Reason};
use std::alloc::Global;
use std::sync::ledger::Ledger;

// What was delivered of the inode that a scan holds: a piece, which may be the last; or nothing, since the
// inode can't be right.
#[derive(Clone, Copy, Debug, PartialEq, Eq)]
enum Piece {
    Given(bool),
    Bad(Evidence),
}

// Delivers the next piece of the inode that the scan holds.
fn ask_piece<D: Device, L: Ledger>(
    alloc: Global,
    desk: &mut Desk<D>,
    scan: &mut Scan,
    steps: &mut Steps<L>,
) -> Result<bool, ScanStop>
    requires usable { IsUsable D.Device desk.old }
    ensures asked { IsAsked D.Device (failed_by is_failed result) desk.old desk.new }
    ensures stays { Stays scan.old scan.new }
{
    read_piece(scan, alloc, &mut desk.store.dev, &desk.store.geo, steps)
}

// What it means that no piece was delivered.
fn halted_at<D: Device>(desk: &mut Desk<D>, stop: ScanStop) -> Result<Piece, ScrubFault>
    requires stopped { IsStopped D.Device (is_failed stop) desk.old }
    ensures answers { Answers D.Device desk.old desk.new result }
    ensures items { desk.new.book.journal.items ≡ desk.old.book.journal.items }
    ensures halts { IfErr result IsHalt }
{
    match stop {
        ScanStop::Bad(evidence) => Ok(Piece::Bad(evidence)),
        ScanStop::Failed => Err(stop_by(desk, true)),
        ScanStop::Memory => Err(stop_by(desk, false)),
    }
}

// Delivers the next piece.
fn next_piece<D: Device, L: Ledger>(
    alloc: Global,
    desk: &mut Desk<D>,
    scan: &mut Scan,
    steps: &mut Steps<L>,
) -> Result<Piece, ScrubFault>
    requires usable { IsUsable D.Device desk.old }
    ensures answers { Answers D.Device desk.old desk.new result }
    ensures items { desk.new.book.journal.items ≡ desk.old.book.journal.items }
    ensures halts { IfErr result IsHalt }
    ensures stays { Stays scan.old scan.new }
{
    match ask_piece(alloc, desk, scan, steps) {
        Ok(is_last) => Ok(Piece::Given(is_last)),
        Err(stop) => halted_at(desk, stop),
    }
}

// What the unit does with what was delivered.
fn take_piece<D: Device>(
    desk: &mut Desk<D>,
    unit: &mut UnitState,
    scan: Scan,
    piece: Piece,
) -> Result<bool, ScrubFault>
    requires usable { IsUsable D.Device desk.old }
    ensures answers { Answers D.Device desk.old desk.new result }
    ensures group { unit.new.group ≡ unit.old.group }
    ensures early { IsEarly unit.new.work }
    ensures phase { OnOk result (phase_in unit.new.work ≡ Phase.Scanning) }
    ensures entries { HasMore desk.old desk.new (entries_of unit.old.group unit.old.unit result) }
    ensures kept { IfErr result (λ fault.
        unit.new ≡ left_by (record unit.old { work = Work.Scanning scan }) fault) }
    ensures gives { IfErr result IsGivingUp }
    ensures rest { unit.new ≡ record unit.old { work = unit.new.work; asked = unit.new.asked } }
    ensures may { IfErr result (MayRead unit.old.turns) }
{
    put_scan(unit, scan);
    match piece {
        Piece::Given(is_last) => Ok(is_last),
        Piece::Bad(evidence) => Err(give_up(desk, unit, Reason::Contradiction(evidence))),
    }
}

// Goes on with the scan of a unit, which was taken out of its work.
fn read_on<D: Device, L: Ledger>(
    alloc: Global,
    desk: &mut Desk<D>,
    unit: &mut UnitState,
    mut scan: Scan,
    steps: &mut Steps<L>,
) -> Result<bool, ScrubFault>
    requires usable { IsUsable D.Device desk.old }
    ensures answers { Answers D.Device desk.old desk.new result }
    ensures group { unit.new.group ≡ unit.old.group }
    ensures early { IsEarly unit.new.work }
    ensures phase { OnOk result (phase_in unit.new.work ≡ Phase.Scanning) }
    ensures entries { HasMore desk.old desk.new (entries_of unit.old.group unit.old.unit result) }
    ensures kept { IfErr result (λ fault.
        IsLeftByPiece (record unit.old { work = Work.Scanning scan }) fault unit.new) }
    ensures rest { unit.new ≡ record unit.old { work = unit.new.work; asked = unit.new.asked } }
    ensures may { IfErr result (MayRead unit.old.turns) }
{
    match next_piece(alloc, desk, &mut scan, steps) {
        Ok(piece) => take_piece(desk, unit, scan, piece),
        Err(fault) => {
            put_scan(unit, scan);
            Err(fault)
        }
    }
}

// The same, where the scan holds an inode.
fn read_held<D: Device, L: Ledger>(
    alloc: Global,
    desk: &mut Desk<D>,
    unit: &mut UnitState,
    scan: Scan,
    steps: &mut Steps<L>,
) -> Result<bool, ScrubFault>
    requires usable { IsUsable D.Device desk.old }
    ensures answers { Answers D.Device desk.old desk.new result }
    ensures group { unit.new.group ≡ unit.old.group }
    ensures early { IsEarly unit.new.work }
    ensures phase { OnOk result (phase_in unit.new.work ≡ Phase.Scanning) }
    ensures entries { HasMore desk.old desk.new (entries_of unit.old.group unit.old.unit result) }
    ensures kept { IfErr result (λ fault.
        IsLeftByPiece (record unit.old { work = Work.Scanning scan }) fault unit.new) }
    ensures rest { unit.new ≡ record unit.old { work = unit.new.work; asked = unit.new.asked } }
    ensures may { IfErr result (MayRead unit.old.turns) }
{
    match scan.held {
        Some(_) => read_on(alloc, desk, unit, scan, steps),
        None => {
            put_scan(unit, scan);
            Err(ScrubFault::OtherPhase(Phase::Scanning))
        }
    }
}

/// Delivers the next piece of the inode that the scan of a unit holds, and answers whether all of it was
/// given; where no inode is held, the answer is OtherPhase. An inode or a fork that can't be right is
/// evidence with which the unit is given up (XFS Online Fsck Design, "Live Inode Scans").
pub fn scan_piece<D: Device, L: Ledger>(
    alloc: Global,
    desk: &mut Desk<D>,
    kept: &mut GroupKept,
    unit: &mut UnitState,
    steps: &mut Steps<L>,
) -> Result<bool, ScrubFault>
    requires given { IsGiven D.Device desk.old kept.old unit.old }
    ensures left { IsLeft D.Device desk.old desk.new kept.new unit.old unit.new }
    ensures reason { AnswersWell desk.new result }
    ensures phase { OnOk result (phase_in unit.new.work ≡ Phase.Scanning) }
    ensures entries { HasMore desk.old desk.new (entries_of unit.old.group unit.old.unit result) }
    ensures kept { IfErr result (λ fault. IsLeftByPiece unit.old fault unit.new) }
    ensures rest { unit.new ≡ record unit.old { work = unit.new.work; asked = unit.new.asked } }
    ensures group { kept.new ≡ kept.old }
    ensures may { IfErr result (MayRead unit.old.turns) }
{
    match take_scan(unit) {
        Some(scan) => read_held(alloc, desk, unit, scan, steps),
        None => Err(ScrubFault::OtherPhase(phase_of(&unit.work))),
    }
}
