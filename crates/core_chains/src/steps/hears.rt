// The open unit of reverse mappings hears of each finished step: its scan, or the owners that this found.
ghost use Rattle.std.specs.Prelude.{◌≡◌, ◌≤◌, ◌<◌, ◌+◌, ◌^◌, IfErr, OnOk, length};
ghost use Rattle.std.specs.Vec.{vec_capacity, vec_len};
ghost use Rattle.core_calls.specs.declared.answers.WriteFault.TheVariants as faults;
ghost use Rattle.core_scan.specs.Followed.{HasRuns};
ghost use Rattle.run_edits.specs.Edits.{HasRoom};
ghost use Rattle.core_chains.specs.Steps.Hears.{CanEdit, CanHear, CanHearIn, CanTurn, StaysPlace, StaysUnit};

use crate::steps::runs::{can_edit, run_with, taken_word};
use core_calls::WriteFault;
use core_parts::{UnitState, Work};
use core_scan::{Scan, told_delta};
use fs_model::Unit;
use fs_state::{Intent, IntentKind};
use rmap_recs::RmapRec;
use run_edits::{give, take};

fn scan_room(scan: &mut Scan) -> Result<(), WriteFault>
    ensures room { OnOk result (2 ≤ scan.new.shadow.room) }
    ensures memory { IfErr result (λ fault. fault ≡ faults.Memory) }
{
    match scan.shadow.room(2) {
        Ok(()) => Ok(()),
        Err(_) => Err(WriteFault::Memory),
    }
}

// Room for two runs more, in a list that can be edited.
fn list_room(list: &mut Vec<RmapRec>) -> Result<(), WriteFault>
    requires edits { CanEdit list.old.items }
    ensures can { OnOk result (CanTurn list.new) }
    ensures memory { IfErr result (λ fault. fault ≡ faults.Memory) }
{
    match list.reserve(2) {
        Ok(()) => Ok(()),
        Err(_) => Err(WriteFault::Memory),
    }
}

fn owners_room(list: &mut Vec<RmapRec>) -> Result<(), WriteFault>
    ensures can { OnOk result (CanTurn list.new) }
    ensures memory { IfErr result (λ fault. fault ≡ faults.Memory) }
{
    // Never: the runs that a scan found can be edited.
    if !can_edit(list.as_slice()) {
        return Err(WriteFault::Memory);
    }
    list_room(list)
}

// Room for what the unit hears of one step.
fn unit_room(unit: &mut UnitState) -> Result<(), WriteFault>
    ensures can { OnOk result (CanHear unit.new.work) }
    ensures stays { StaysUnit unit.old unit.new }
    ensures memory { IfErr result (λ fault. fault ≡ faults.Memory) }
{
    match &mut unit.work {
        Work::Scanning(scan) => scan_room(scan),
        Work::Open(list) => owners_room(list),
        Work::Closed(_) => Ok(()),
        Work::Gathering(_) => Ok(()),
        Work::Gathered(_) => Ok(()),
        Work::Chosen(_) => Ok(()),
        Work::Building(_) => Ok(()),
        Work::Reserved(_, _) => Ok(()),
        Work::Staged(_, _) => Ok(()),
        Work::Spent(_) => Ok(()),
        Work::Judged => Ok(()),
    }
}

/// Room for what the unit of this place hears of one step, before the step changes anything.
pub(crate) fn take_room(place: &mut Option<UnitState>) -> Result<(), WriteFault>
    ensures can { OnOk result (CanHearIn place.new) }
    ensures stays { StaysPlace place.old place.new }
    ensures memory { IfErr result (λ fault. fault ≡ faults.Memory) }
{
    match place {
        Some(unit) => unit_room(unit),
        None => Ok(()),
    }
}

// Gives a run to owners, in room that is there.
fn give_owner(list: &mut Vec<RmapRec>, run: &RmapRec)
    requires edits { CanEdit list.old.items }
    requires run { HasRoom run.now }
    requires room { vec_len list.old + 1 ≤ vec_capacity list.old }
{
    match give(list, run) {
        Ok(()) => {}
        Err(_) => unreachable!(),
    }
}

// Takes a run from owners, in room that is there.
fn take_owner(list: &mut Vec<RmapRec>, run: &RmapRec)
    requires run { HasRoom run.now }
    requires can { CanTurn list.old }
    ensures edits { CanEdit list.new.items }
    ensures room { vec_len list.new + 1 ≤ vec_capacity list.new }
{
    match take(list, run) {
        Ok(()) => {}
        Err(_) => unreachable!(),
    }
}

// Does to owners what the step of an intent does to reverse mappings.
fn turn_owners(list: &mut Vec<RmapRec>, intent: &Intent)
    requires runs { HasRuns intent.now }
    requires can { CanTurn list.old }
{
    match intent.kind {
        IntentKind::RmapAdd => give_owner(list, &run_with(intent, intent.word)),
        IntentKind::RmapRemove => take_owner(list, &run_with(intent, taken_word(intent))),
        IntentKind::RmapChange => {
            take_owner(list, &run_with(intent, taken_word(intent)));
            give_owner(list, &run_with(intent, intent.word));
        }
        IntentKind::RefMore => {}
        IntentKind::RefLess => {}
        IntentKind::Free => {}
    }
}

// The same, where they are those of the intent's group.
fn turn_own(list: &mut Vec<RmapRec>, intent: &Intent, is_own: bool)
    requires runs { HasRuns intent.now }
    requires can { CanTurn list.old }
{
    if is_own {
        turn_owners(list, intent);
    }
}

// Whether this is the unit of reverse mappings of a group.
fn is_rmap_of(unit: &UnitState, group: u32) -> bool {
    matches!(unit.unit, Unit::Rmap) && unit.group == group
}

// The unit hears of a finished step, in room that is there.
fn unit_hears(unit: &mut UnitState, intent: &Intent)
    requires runs { HasRuns intent.now }
    requires can { CanHear unit.old.work }
    ensures stays { StaysUnit unit.old unit.new }
{
    let is_own = is_rmap_of(unit, intent.group);
    match &mut unit.work {
        Work::Scanning(scan) => told_delta(scan, intent),
        Work::Open(list) => turn_own(list, intent, is_own),
        Work::Closed(_) => {}
        Work::Gathering(_) => {}
        Work::Gathered(_) => {}
        Work::Chosen(_) => {}
        Work::Building(_) => {}
        Work::Reserved(_, _) => {}
        Work::Staged(_, _) => {}
        Work::Spent(_) => {}
        Work::Judged => {}
    }
}

/// The unit of this place hears of a finished step, in room that was taken before: a scan where it has been
/// at the inode, and the owners that an ended scan found where they are of the intent's group
/// (XFS Online Fsck Design, "Live Updates").
pub(crate) fn hear(place: &mut Option<UnitState>, intent: &Intent)
    requires runs { HasRuns intent.now }
    requires can { CanHearIn place.old }
    ensures stays { StaysPlace place.old place.new }
{
    match place {
        Some(unit) => unit_hears(unit, intent),
        None => {}
    }
}

// Whether a unit of reverse mappings is open in a place.
fn is_rmap(place: &Option<UnitState>) -> bool {
    match place {
        Some(unit) => matches!(unit.unit, Unit::Rmap),
        None => false,
    }
}

/// The place of the open unit of reverse mappings, of which one at most is open in all groups; `other`
/// where there is none, and then nobody hears.
pub(crate) fn rmap_place(units: &[Option<UnitState>], other: u32) -> u32
    requires groups { length units.now < 2 ^ 32 }
    requires inside { other < length units.now }
    ensures { result < length units.now }
{
    for (at, place) in units.iter().enumerate() {
        if is_rmap(place) {
            return at as u32;
        }
    }
    other
}
