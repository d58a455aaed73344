ghost use Rattle.std.specs.Prelude.{◌≡◌, IfErr, IfOk, OnErr};
ghost use Rattle.core_begin.specs.After.{IsLeftAt, IsLeftByMove, IsStuck, MayMove, Reaches};
ghost use Rattle.core_begin.specs.Early.{IsEarly, phase_after};
ghost use Rattle.core_parts.specs.Common.Asks.{Answers, IsStopped, IsUsable};
ghost use Rattle.core_parts.specs.Common.Entries.{HasMore, IsHalt, entries_of};
ghost use Rattle.core_parts.specs.Keeps.{IsAsked, IsGiven, IsLeft, failed_by};
ghost use Rattle.core_parts.specs.Phases.{phase_in};
ghost use Rattle.core_parts.specs.Reasons.{AnswersWell};
ghost use Rattle.core_scan.specs.Calls.{IsAt, Stays, is_stuck_failed};

use crate::giving::{give_up, lose_turn};
use crate::taking::{put_scan, put_work, take_scan};
use blk_device::Device;
use byte_fields::Steps;
use core_calls::{Moved, ScrubFault};
use core_parts::common::stop_by;
use core_parts::{Desk, GroupKept, UnitState, Work, phase_of};
use core_scan::{Moved as ScanMoved, Scan, Stuck, owners_of};
use fs_model::{Evidence, Reason};
use sblock::Kind;
use std::alloc::Global;
use std::sync::ledger::Ledger;
use tree_blocks::WalkFault;

// Where a scan has come to: an inode that it holds, or the end; or why it doesn't move: a chain holds the
// inode, or a block of an inode btree can't be read.
#[derive(Clone, Copy, Debug, PartialEq, Eq)]
enum Reach {
    At(u64),
    End,
    Busy(u64),
    Bad(u32),
}

// Moves the scan on, by the inode btrees of all groups.
fn ask_next<D: Device, L: Ledger>(
    desk: &mut Desk<D>,
    scan: &mut Scan,
    steps: &mut Steps<L>,
) -> Result<ScanMoved, Stuck>
    requires usable { IsUsable D.Device desk.old }
    ensures asked { IsAsked D.Device (failed_by is_stuck_failed result) desk.old desk.new }
    ensures stays { Stays scan.old scan.new }
    ensures kept { OnErr result (scan.new ≡ scan.old) }
    ensures at { IfOk result (λ moved. IsAt moved scan.new) }
{
    core_scan::advance(
        scan,
        &mut desk.store.dev,
        &mut desk.store.cache,
        &desk.store.geo,
        desk.ino_trees.as_slice(),
        &desk.drain,
        steps,
    )
}

// What it means that a scan doesn't move.
fn stuck_at<D: Device>(desk: &mut Desk<D>, stuck: Stuck) -> Result<Reach, ScrubFault>
    requires stopped { IsStopped D.Device (is_stuck_failed stuck) desk.old }
    ensures answers { Answers D.Device desk.old desk.new result }
    ensures items { desk.new.book.journal.items ≡ desk.old.book.journal.items }
    ensures halts { IfErr result IsHalt }
    ensures stuck { IfOk result IsStuck }
{
    match stuck {
        Stuck::Busy(ino) => Ok(Reach::Busy(ino)),
        Stuck::Walk(WalkFault::Bad { block, fault: _ }) => Ok(Reach::Bad(block)),
        Stuck::Walk(WalkFault::Failed) => Err(stop_by(desk, true)),
        Stuck::Walk(WalkFault::Memory) => Err(stop_by(desk, false)),
    }
}

// Moves the scan on.
fn next_inode<D: Device, L: Ledger>(
    desk: &mut Desk<D>,
    scan: &mut Scan,
    steps: &mut Steps<L>,
) -> Result<Reach, ScrubFault>
    requires usable { IsUsable D.Device desk.old }
    ensures answers { Answers D.Device desk.old desk.new result }
    ensures items { desk.new.book.journal.items ≡ desk.old.book.journal.items }
    ensures halts { IfErr result IsHalt }
    ensures stays { Stays scan.old scan.new }
    ensures reaches { Reaches scan.old scan.new result }
{
    match ask_next(desk, scan, steps) {
        Ok(ScanMoved::At(ino)) => Ok(Reach::At(ino)),
        Ok(ScanMoved::End) => Ok(Reach::End),
        Err(stuck) => stuck_at(desk, stuck),
    }
}

// The scan is at the end: what is kept of it is who owns which block. Where there is no memory for that,
// it stays a scan.
fn end_scan(alloc: Global, unit: &mut UnitState, scan: Scan) -> Result<Moved, ScrubFault>
    ensures group { unit.new.group ≡ unit.old.group }
    ensures early { IsEarly unit.new.work }
    ensures phase { IfOk result (λ moved. phase_in unit.new.work ≡ phase_after moved) }
    ensures memory { IfErr result (λ fault. fault ≡ ScrubFault.Memory) }
    ensures kept { OnErr result (unit.new ≡ record unit.old { work = Work.Scanning scan }) }
    ensures rest { unit.new ≡ record unit.old { work = unit.new.work; asked = unit.new.asked } }
{
    match owners_of(alloc, &scan) {
        Ok(owners) => {
            put_work(unit, Work::Open(owners));
            Ok(Moved::End)
        }
        Err(_) => {
            put_scan(unit, scan);
            Err(ScrubFault::Memory)
        }
    }
}

// What the unit does where its scan has come to.
fn go_on<D: Device>(
    alloc: Global,
    desk: &mut Desk<D>,
    unit: &mut UnitState,
    scan: Scan,
    reach: Reach,
) -> Result<Moved, ScrubFault>
    requires usable { IsUsable D.Device desk.old }
    ensures answers { Answers D.Device desk.old desk.new result }
    ensures group { unit.new.group ≡ unit.old.group }
    ensures early { IsEarly unit.new.work }
    ensures phase { IfOk result (λ moved. phase_in unit.new.work ≡ phase_after moved) }
    ensures entries { HasMore desk.old desk.new (entries_of unit.old.group unit.old.unit result) }
    ensures kept { IfErr result (λ fault.
        IsLeftAt reach (record unit.old { work = Work.Scanning scan }) fault unit.new) }
    ensures rest { unit.new ≡ record unit.old { work = unit.new.work; asked = unit.new.asked } }
    ensures may { IfErr result (MayMove unit.old.turns) }
{
    match reach {
        Reach::At(ino) => {
            put_scan(unit, scan);
            Ok(Moved::At(ino))
        }
        Reach::End => end_scan(alloc, unit, scan),
        Reach::Busy(ino) => {
            put_scan(unit, scan);
            Err(lose_turn(desk, unit, ScrubFault::Busy(ino)))
        }
        Reach::Bad(block) => {
            let kind = Kind::Ino;
            let evidence = Evidence::BadTree { kind, block };
            put_scan(unit, scan);
            Err(give_up(desk, unit, Reason::Contradiction(evidence)))
        }
    }
}

// Moves the scan of a unit on, which was taken out of its work.
fn move_on<D: Device, L: Ledger>(
    alloc: Global,
    desk: &mut Desk<D>,
    unit: &mut UnitState,
    mut scan: Scan,
    steps: &mut Steps<L>,
) -> Result<Moved, ScrubFault>
    requires usable { IsUsable D.Device desk.old }
    ensures answers { Answers D.Device desk.old desk.new result }
    ensures group { unit.new.group ≡ unit.old.group }
    ensures early { IsEarly unit.new.work }
    ensures phase { IfOk result (λ moved. phase_in unit.new.work ≡ phase_after moved) }
    ensures entries { HasMore desk.old desk.new (entries_of unit.old.group unit.old.unit result) }
    ensures kept { IfErr result (λ fault.
        IsLeftByMove (record unit.old { work = Work.Scanning scan }) fault unit.new) }
    ensures rest { unit.new ≡ record unit.old { work = unit.new.work; asked = unit.new.asked } }
    ensures may { IfErr result (MayMove unit.old.turns) }
{
    match next_inode(desk, &mut scan, steps) {
        Ok(reach) => go_on(alloc, desk, unit, scan, reach),
        Err(fault) => {
            put_scan(unit, scan);
            Err(fault)
        }
    }
}

/// Moves the scan of a unit that is scanning on to the next allocated inode, which it holds from now on;
/// at the end the unit is open. An inode that a chain holds isn't passed, and costs the unit a turn; with
/// the last one, or at an inode btree that can't be read, the unit is given up
/// (XFS Online Fsck Design, "Live Inode Scans").
pub fn advance<D: Device, L: Ledger>(
    alloc: Global,
    desk: &mut Desk<D>,
    kept: &mut GroupKept,
    unit: &mut UnitState,
    steps: &mut Steps<L>,
) -> Result<Moved, ScrubFault>
    requires given { IsGiven D.Device desk.old kept.old unit.old }
    ensures left { IsLeft D.Device desk.old desk.new kept.new unit.old unit.new }
    ensures reason { AnswersWell desk.new result }
    ensures phase { IfOk result (λ moved. phase_in unit.new.work ≡ phase_after moved) }
    ensures entries { HasMore desk.old desk.new (entries_of unit.old.group unit.old.unit result) }
    ensures kept { IfErr result (λ fault. IsLeftByMove unit.old fault unit.new) }
    ensures rest { unit.new ≡ record unit.old { work = unit.new.work; asked = unit.new.asked } }
    ensures group { kept.new ≡ kept.old }
    ensures may { IfErr result (MayMove unit.old.turns) }
{
    match take_scan(unit) {
        Some(scan) => move_on(alloc, desk, unit, scan, steps),
        None => Err(ScrubFault::OtherPhase(phase_of(&unit.work))),
    }
}
