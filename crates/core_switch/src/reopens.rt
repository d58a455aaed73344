ghost use Rattle.std.specs.Prelude.{◌≡◌, ◌<◌, ◌||◌, ◌∷◌, [], ℕ, IfNone, IfSome, OnErr, OnOk, false, slice_set, true};
ghost use Rattle.std.specs.Vec.{vec_capacity, vec_len};
ghost use Rattle.blk_device.specs.Crash.{IsDurable};
ghost use Rattle.blk_device.specs.declared.device.Region.TheVariants.{Image};
ghost use Rattle.block_reap.specs.Limbo.{has};
ghost use Rattle.core_switch.specs.Reserves.{has_reserve, is_reserved, reserve_in};
ghost use Rattle.core_switch.specs.Says.{SaysBy, released_by, released_of};
ghost use Rattle.core_switch.specs.Synced.{has_staged as has_staged_of, is_unsynced as is_unsynced_of};
ghost use Rattle.core_parts.specs.Common.Asks.{Answers, IsSame, IsUsable};
ghost use Rattle.core_parts.specs.Common.Entries.{HasMore};
ghost use Rattle.core_parts.specs.Keeps.{IsGiven, IsSteady};
ghost use Rattle.core_parts.specs.Reasons.{AnswersWell};
ghost use Rattle.core_parts.specs.Safe.{IsDesk, IsKept, IsUnit, IsWork};
ghost use Rattle.core_units.specs.Rebuilt.{IsSteady as IsSteadyRebuild};
ghost use Rattle.fs_model.specs.declared.entry.Entry.TheVariants as entries;
ghost use Rattle.geom.specs.Layout.{Layout};
ghost use Rattle.geom.specs.Places.{layout};
ghost use Rattle.intent_drain.specs.Drains.{gates_of};
ghost use Rattle.intent_drain.specs.declared.gates.Gate.TheVariants.{Open};

use crate::calls::sync_at;
use blk_device::Device;
use core_calls::ScrubFault;
use core_parts::common::add_entry;
use core_parts::{Desk, GroupKept, UnitState, Work};
use core_units::{Rebuild, Staging, release};
use fs_model::{Entry, Unit};

// Whether new blocks were written.
fn has_staged(staging: &Staging) -> bool
    ensures { result ≡ has_staged_of staging.now }
{
    match staging {
        Staging::First(number) => *number > 0,
        Staging::Second(_) => true,
        Staging::Synced => false,
    }
}

// Whether blocks were staged, and not synced since.
fn is_unsynced(work: &Work) -> bool
    ensures { result ≡ is_unsynced_of work.now }
{
    match work {
        Work::Reserved(_, staging) => has_staged(staging),
        _ => false,
    }
}

// Makes new blocks durable where they aren't.
#[tactic(auto, using(crate::proofs::CallLemmas::not_unsynced))]
fn sync_staged<D: Device>(desk: &mut Desk<D>, work: &Work) -> Result<(), ScrubFault>
    requires usable { IsUsable D.Device desk.old }
    ensures answers { Answers D.Device desk.old desk.new result }
    ensures drain { OnOk result (desk.new.drain ≡ desk.old.drain) }
    ensures items { desk.new.book.journal.items ≡ desk.old.book.journal.items }
    ensures durable { OnOk result (is_unsynced_of work.now ≡ true → IsDurable Image (D.content desk.new.store.dev) (D.may_hold_now desk.new.store.dev)) }
{
    if is_unsynced(work) {
        return sync_at(desk);
    }
    Ok(())
}

// Room in the journal for one entry, full or not.
fn has_room<D: Device>(desk: &mut Desk<D>) -> bool
    ensures same { IsSame desk.old desk.new }
    ensures room { result ≡ true → vec_len desk.new.book.journal < vec_capacity desk.new.book.journal }
{
    desk.book.journal.reserve(1).is_ok()
}

// Adds the entry of a reserve that went to limbo, and answers whether there was room.
#[tactic(auto, using(core_parts::proofs::common::AskLemmas::same_usable, core_parts::proofs::common::AskLemmas::same_steady, core_parts::proofs::common::AskLemmas::adds_usable, core_parts::proofs::common::AskLemmas::adds_steady, core_parts::proofs::common::AskLemmas::steady_on))]
fn say_released<D: Device>(desk: &mut Desk<D>, group: u32, unit: Unit) -> bool
    requires usable { IsUsable D.Device desk.old }
    ensures usable { IsUsable D.Device desk.new }
    ensures steady { IsSteady D.Device desk.old desk.new }
    ensures store { desk.new.store ≡ desk.old.store }
    ensures drain { desk.new.drain ≡ desk.old.drain }
    ensures said { result ≡ true → HasMore desk.old desk.new (entries.Released group unit ∷ []) }
    ensures unsaid { result ≡ false → desk.new.book.journal.items ≡ desk.old.book.journal.items }
{
    if !has_room(desk) {
        return false;
    }
    add_entry(desk, Entry::Released { group, unit });
    true
}

// The reserve goes to limbo, where there is one; whether there was memory.
#[tactic(auto, using(core_parts::proofs::common::AskLemmas::steady_self, crate::proofs::CallLemmas::none_reserved))]
fn release_one<D: Device>(
    desk: &mut Desk<D>,
    kept: &mut GroupKept,
    rebuild: &Rebuild,
    group: u32,
    unit: Unit,
) -> bool
    requires usable { IsUsable D.Device desk.old }
    requires kept { IsKept kept.old }
    requires steady { IsSteadyRebuild rebuild.now }
    ensures usable { IsUsable D.Device desk.new }
    ensures steady { IsSteady D.Device desk.old desk.new }
    ensures kept { IsKept kept.new }
    ensures store { desk.new.store ≡ desk.old.store }
    ensures drain { desk.new.drain ≡ desk.old.drain }
    ensures put { result ≡ true → (b o : ℕ) → has kept.new.limbo.items b o ≡ (has kept.old.limbo.items b o || has_reserve rebuild.now b o) }
    ensures said { result ≡ true → HasMore desk.old desk.new (released_of group unit rebuild.now.building.reserve.items) }
    ensures unsaid { result ≡ false → desk.new.book.journal.items ≡ desk.old.book.journal.items }
{
    if rebuild.building.reserve.is_empty() {
        return true;
    }
    if !release(rebuild, &mut kept.limbo) {
        return false;
    }
    say_released(desk, group, unit)
}

// What the unit has reserved and not switched to.
fn reserve_of(work: &Work) -> Option<&Rebuild>
    ensures steady { (at : Layout) (g : ℕ) → IsWork at g work.now → IfSome result (λ rebuild. IsSteadyRebuild rebuild.now) }
    ensures some { IfSome result (λ rebuild. (b o : ℕ) → is_reserved work.now b o ≡ has_reserve rebuild.now b o) }
    ensures none { IfNone result ((b o : ℕ) → is_reserved work.now b o ≡ false) }
    ensures blocks { IfSome result (λ rebuild. reserve_in work.now ≡ rebuild.now.building.reserve.items) }
    ensures empty { IfNone result (reserve_in work.now ≡ []) }
{
    match work {
        Work::Building(rebuild) => Some(rebuild),
        Work::Reserved(rebuild, _) => Some(rebuild),
        Work::Staged(rebuild, _) => Some(rebuild),
        Work::Spent(rebuild) => Some(rebuild),
        _ => None,
    }
}

// The unit's reserve goes to limbo, where it has one; whether there was memory.
#[tactic(auto, using(core_parts::proofs::common::AskLemmas::steady_self, crate::proofs::CallLemmas::or_false))]
fn release_unit<D: Device>(desk: &mut Desk<D>, kept: &mut GroupKept, unit: &UnitState) -> bool
    requires usable { IsUsable D.Device desk.old }
    requires kept { IsKept kept.old }
    requires unit { IsUnit (layout desk.old.store.geo) unit.now }
    ensures usable { IsUsable D.Device desk.new }
    ensures steady { IsSteady D.Device desk.old desk.new }
    ensures kept { IsKept kept.new }
    ensures store { desk.new.store ≡ desk.old.store }
    ensures drain { desk.new.drain ≡ desk.old.drain }
    ensures put { result ≡ true → (b o : ℕ) → has kept.new.limbo.items b o ≡ (has kept.old.limbo.items b o || is_reserved unit.now.work b o) }
    ensures said { result ≡ true → HasMore desk.old desk.new (released_by unit.now) }
    ensures unsaid { result ≡ false → desk.new.book.journal.items ≡ desk.old.book.journal.items }
{
    match reserve_of(&unit.work) {
        Some(rebuild) => release_one(desk, kept, rebuild, unit.group, unit.unit),
        None => true,
    }
}

// Chains may begin in the group again; memory may have lacked.
#[tactic(auto, using(crate::proofs::CallLemmas::opens_desk, crate::proofs::CallLemmas::opens_steady))]
fn open_gate<D: Device>(desk: &mut Desk<D>, group: u32, had_room: bool) -> Result<(), ScrubFault>
    requires usable { IsUsable D.Device desk.old }
    requires inside { group < desk.old.store.geo.agcount }
    ensures answers { Answers D.Device desk.old desk.new result }
    ensures store { desk.new.store ≡ desk.old.store }
    ensures gates { gates_of desk.new.drain ≡ slice_set (gates_of desk.old.drain) group Open }
    ensures room { OnOk result (had_room ≡ true) }
    ensures lack { OnErr result (had_room ≡ false) }
    ensures items { desk.new.book.journal.items ≡ desk.old.book.journal.items }
{
    desk.drain.open(group);
    if had_room {
        Ok(())
    } else {
        Err(ScrubFault::Memory)
    }
}

/// Ends the work on a unit, in whatever phase it is: what it staged is synced, what it reserved and didn't
/// switch to waits to be freed, and the group's gate opens. The gate opens too where there was no memory
/// for the entry Released, but not where the device failed; nothing is changed then
/// (XFS Online Fsck Design, "Metadata Repair").
pub fn reopen<D: Device>(
    desk: &mut Desk<D>,
    kept: &mut GroupKept,
    unit: UnitState,
) -> Result<(), ScrubFault>
    requires given { IsGiven D.Device desk.old kept.old unit }
    ensures desk { IsDesk D.Device desk.new }
    ensures steady { IsSteady D.Device desk.old desk.new }
    ensures kept { IsKept kept.new }
    ensures reason { AnswersWell desk.new result }
    ensures gates { OnOk result (gates_of desk.new.drain ≡ slice_set (gates_of desk.old.drain) unit.group Open) }
    ensures put { OnOk result ((b o : ℕ) → has kept.new.limbo.items b o ≡ (has kept.old.limbo.items b o || is_reserved unit.work b o)) }
    ensures says { SaysBy (released_by unit) desk.old desk.new result }
    ensures durable { OnOk result (is_unsynced_of unit.work ≡ true → IsDurable Image (D.content desk.new.store.dev) (D.may_hold_now desk.new.store.dev)) }
{
    sync_staged(desk, &unit.work)?;
    let had_room = release_unit(desk, kept, &unit);
    open_gate(desk, unit.group, had_room)
}
