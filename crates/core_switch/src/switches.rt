ghost use Rattle.std.specs.Prelude.{◌≡◌, ◌+◌, ◌≤◌, ◌<◌, Err, IfSome, Ok, OnErr, OnOk};
ghost use Rattle.std.specs.Vec.{vec_capacity, vec_len};
ghost use Rattle.block_reap.specs.Limbo.{IsLimbo};
ghost use Rattle.core_parts.specs.Common.Asks.{Answers, IsUsable};
ghost use Rattle.core_parts.specs.Keeps.{IsGiven, IsLeft};
ghost use Rattle.core_parts.specs.Phases.{phase_in};
ghost use Rattle.core_parts.specs.Reasons.{AnswersWell};
ghost use Rattle.core_parts.specs.Safe.{IsKept};
ghost use Rattle.core_parts.specs.declared.units.Work.TheVariants as works;
ghost use Rattle.core_units.specs.Rebuilt.{IsRebuilding};
ghost use Rattle.core_calls.specs.declared.answers.Phase.TheVariants as phases;
ghost use Rattle.core_calls.specs.declared.answers.ScrubFault.TheVariants as faults;
ghost use Rattle.core_switch.specs.Switched.{HasSwitched, IsRebuilt, SaysSwitched};
ghost use Rattle.geom.specs.Places.{layout};

use crate::calls::{commit_at, open_at};
use crate::settle::settle_switch;
use blk_device::Device;
use byte_fields::Steps;
use core_calls::ScrubFault;
use core_edit::{EditHeads, EditPlace};
use core_parts::common::{edit_place, entry_room};
use core_parts::{Desk, GroupKept, UnitState, Work, phase_of};
use core_units::{Rebuild, Staged, switched_heads};
use root_switch::{Heads, Switch};
use std::mem;
use std::sync::ledger::Ledger;

// The blocks of three btrees beside their roots, where these have a number.
fn beside_three(bno: u32, cnt: u32, rmap: u32) -> Option<u32>
    ensures { IfSome result (λ blocks. blocks + 3 ≡ bno + cnt + rmap) }
{
    let all = u64::from(bno) + u64::from(cnt) + u64::from(rmap);
    if all < 3 || all - 3 > u64::from(u32::MAX) {
        return None;
    }
    Some((all - 3) as u32)
}

// A number of blocks that were read, once the head's number of them moved on.
fn moved(counted: Option<u32>, now: u32, then: u32) -> Option<u32> {
    match counted {
        Some(blocks) => Some(blocks.wrapping_add(now).wrapping_sub(then)),
        None => None,
    }
}

// The same after a switch, as the trees are now, and not as they were gathered: blocks that were reserved
// for free space moved reverse mappings, and those reserved for these moved free space.
fn beside_now(rebuild: &Rebuild, heads: &EditHeads, switch: &Switch) -> Option<u32> {
    match switch {
        Switch::Free { bno, cnt, .. } => {
            beside_three(bno.blocks, cnt.blocks, heads.agf.rmap_blocks)
        }
        Switch::Rmap { btreeblks, .. } => moved(*btreeblks, heads.agf.btreeblks, rebuild.btreeblks),
        _ => None,
    }
}

// The heads as the switch makes them.
fn heads_now(kept: &GroupKept, rebuild: &Rebuild, switch: &Switch) -> Heads {
    let mut heads = switched_heads(kept.heads.agf, kept.heads.agi, switch);
    if let Some(blocks) = beside_now(rebuild, &kept.heads, switch) {
        heads.agf.btreeblks = blocks;
    }
    heads
}

// Where the heads are written, with what the switch makes of them.
fn switch_place(kept: &GroupKept, unit: &UnitState, rebuild: &Rebuild, switch: &Switch) -> EditPlace
    ensures group { result.group ≡ unit.now.group }
{
    let heads = heads_now(kept, rebuild, switch);
    EditPlace {
        heads: EditHeads {
            agf: heads.agf,
            agi: heads.agi,
            list: kept.heads.list,
        },
        ..edit_place(kept, unit.group, unit.unit)
    }
}

// Writes the place's heads into block 0, alone.
fn write_heads<D: Device, L: Ledger>(
    desk: &mut Desk<D>,
    place: &EditPlace,
    steps: &mut Steps<L>,
) -> Result<(), ScrubFault>
    requires usable { IsUsable D.Device desk.old }
    requires group { place.now.group < desk.old.store.geo.agcount }
    ensures answers { Answers D.Device desk.old desk.new result }
    ensures book { OnOk result (desk.new.book ≡ desk.old.book) }
    ensures items { desk.new.book.journal.items ≡ desk.old.book.journal.items }
{
    open_at(desk, place, steps)?;
    commit_at(desk, place.group, steps)
}

// The same, where the journal has room for two entries.
fn write_switch<D: Device, L: Ledger>(
    desk: &mut Desk<D>,
    place: &EditPlace,
    steps: &mut Steps<L>,
) -> Result<(), ScrubFault>
    requires usable { IsUsable D.Device desk.old }
    requires group { place.now.group < desk.old.store.geo.agcount }
    ensures answers { Answers D.Device desk.old desk.new result }
    ensures room { OnOk result (vec_len desk.new.book.journal + 2 ≤ vec_capacity desk.new.book.journal) }
    ensures items { desk.new.book.journal.items ≡ desk.old.book.journal.items }
{
    entry_room(desk, 2)?;
    write_heads(desk, place, steps)
}

// The unit gets its work back, and the answer is this fault.
fn put_back(unit: &mut UnitState, work: Work, fault: ScrubFault) -> Result<(), ScrubFault>
    ensures unit { unit.new ≡ record unit.old { work = work } }
    ensures fault { result ≡ Err fault }
{
    unit.work = work;
    Err(fault)
}

// The unit is judged.
fn put_judged(unit: &mut UnitState) -> Result<(), ScrubFault>
    ensures unit { unit.new ≡ record unit.old { work = works.Judged } }
    ensures done { result ≡ Ok (record {}) }
{
    unit.work = Work::Judged;
    Ok(())
}

// Switches a unit whose new blocks are staged; after a refusal they still are.
fn switch_staged<D: Device, L: Ledger>(
    desk: &mut Desk<D>,
    kept: &mut GroupKept,
    unit: &mut UnitState,
    rebuild: Rebuild,
    staged: Staged,
    steps: &mut Steps<L>,
) -> Result<(), ScrubFault>
    requires usable { IsUsable D.Device desk.old }
    requires kept { IsKept kept.old }
    requires inside { unit.old.group < desk.old.store.geo.agcount }
    requires rebuilding { IsRebuilding (layout desk.old.store.geo) unit.old.group rebuild }
    requires limbo { IsLimbo staged.limbo.items }
    ensures left { IsLeft D.Device desk.old desk.new kept.new unit.old unit.new }
    ensures reason { AnswersWell desk.new result }
    ensures judged { OnOk result (unit.new.work ≡ works.Judged) }
    ensures is { OnOk result (IsRebuilt unit.old.unit staged.limbo.items kept.old kept.new) }
    ensures said { OnOk result (SaysSwitched unit.old.group unit.old.unit staged desk.old.book.journal.items desk.new.book.journal.items) }
    ensures stays { OnErr result (unit.new ≡ record unit.old { work = works.Staged rebuild staged }) }
    ensures kept_stays { OnErr result (kept.new ≡ kept.old) }
    ensures unsaid { OnErr result (desk.new.book.journal.items ≡ desk.old.book.journal.items) }
{
    let place = switch_place(kept, unit, &rebuild, &staged.switch);
    match write_switch(desk, &place, steps) {
        Ok(()) => {
            settle_switch(desk, kept, unit.group, unit.unit, staged);
            put_judged(unit)
        }
        Err(fault) => put_back(unit, Work::Staged(rebuild, staged), fault),
    }
}

/// Switches to the unit's new btrees, which are staged: one commit of block 0 with their roots, levels and
/// counters. The unit is rebuilt then, and judged; what its old btrees had waits to be freed. A refusal
/// changes nothing (XFS Online Fsck Design, "Writing the New Tree").
pub fn switch<D: Device, L: Ledger>(
    desk: &mut Desk<D>,
    kept: &mut GroupKept,
    unit: &mut UnitState,
    steps: &mut Steps<L>,
) -> Result<(), ScrubFault>
    requires given { IsGiven D.Device desk.old kept.old unit.old }
    ensures left { IsLeft D.Device desk.old desk.new kept.new unit.old unit.new }
    ensures reason { AnswersWell desk.new result }
    ensures judged { OnOk result (unit.new.work ≡ works.Judged) }
    ensures switched { OnOk result (HasSwitched unit.old desk.old.book desk.new.book kept.old kept.new) }
    ensures stays { OnErr result (unit.new ≡ unit.old) }
    ensures other { (phase_in unit.old.work ≡ phases.Staged → ⊥) → result ≡ Err (faults.OtherPhase (phase_in unit.old.work)) }
    ensures kept_stays { OnErr result (kept.new ≡ kept.old) }
    ensures unsaid { OnErr result (desk.new.book.journal.items ≡ desk.old.book.journal.items) }
{
    match mem::replace(&mut unit.work, Work::Judged) {
        Work::Staged(rebuild, staged) => { switch_staged(desk, kept, unit, rebuild, staged, steps) }
        other => {
            let phase = phase_of(&other);
            put_back(unit, other, ScrubFault::OtherPhase(phase))
        }
    }
}
