ghost use Rattle.std.specs.Prelude.{◌≡◌, ◌≤◌, ℕ, [], IfErr, IfOk, IfSome, List, None, Option};
ghost use Rattle.blk_device.specs.Contents.{Contents};
ghost use Rattle.blk_device.specs.declared.device.Region.{Region};
ghost use Rattle.blk_device.specs.declared.device.Region.TheVariants.{Image, Redo};
ghost use Rattle.core_parts.specs.Safe.{IsSafe};
ghost use Rattle.fs_state.specs.declared.plan.Plan.TheVariants as plans;
ghost use Rattle.fsck_core.specs.Opens.{IsBack, IsBegun};
ghost use Rattle.quiet_repair.specs.Ends.{EndsWell, HasOrder, IsSameRefusal, KeepsOrder};
ghost use Rattle.quiet_repair.specs.Refusals.{HeadsPass, IsEnded, LeavesRefused, RefusesAs, RefusesLate, late_entry};
ghost use Rattle.quiet_repair.specs.Sound.{DoesNothing, IsBusy, IsSoundDevice, KeepsSound, LeavesAlone, LeavesSound, StaysSound};
ghost use Rattle.repair_door.specs.Found.{HasGeometry, IsClosed};
ghost use Rattle.repair_door.specs.Doors.{door_refusal};
ghost use Rattle.unit_trust.specs.Laws.{AllFresh};

use crate::sessions::session;
use crate::sound::sound_journal;
use blk_device::Device;
use byte_fields::Steps;
use check_watch::Watch;
use core_calls::{OpenRefused, ScrubFault};
use core_parts::Parts;
use fs_model::Entry;
use fs_state::Plan;
use fsck_core::{any_sick, into_device, open};
use geom::Geometry;
use redo_area::REDO_BLOCKS;
use repair_door::{NoEntry, pass_door};
use std::alloc::Global;
use std::marker::Brand;
use std::sync::ledger::{Blank, Ledger};

/// How a repair ended that was begun: its journal; why the session stopped before its last unit, if it
/// did; whether a btree is sick at the end; and whether a check found every unit good, so that there was
/// nothing to do (XFS Online Fsck Design, "Metadata Repair").
#[derive(Drop)]
pub struct Repaired {
    pub journal: Vec<Entry>,
    pub stop: Option<ScrubFault>,
    pub is_sick: bool,
    pub is_sound: bool,
}

/// What comes of a repair: it isn't begun, or it ended
/// (XFS Online Fsck Design, "Metadata Repair").
#[derive(Drop)]
pub enum Repair {
    Refused(NoEntry),
    Ended(Repaired),
}

/// Why a repair isn't begun whose device isn't opened (XFS Online Fsck Design, "Metadata Repair").
pub fn no_entry(refused: OpenRefused) -> NoEntry
    ensures cause { IsSameRefusal refused result }
    ensures entry { result ≡ late_entry refused }
{
    match refused {
        OpenRefused::Group { group, head, fault } => NoEntry::Head { group, head, fault },
        OpenRefused::Failed => NoEntry::Failed,
        OpenRefused::Memory => NoEntry::Memory,
    }
}

// Opens a device. The ledger is that of its steps.
fn open_counted<D: Device, L: Ledger>(
    alloc: Global,
    dev: D,
    geo: Geometry,
    blank: Blank,
) -> Result<Parts<D>, (D, OpenRefused)>
    requires image { geo.dblocks ≤ D.blocks dev Image }
    requires redo { REDO_BLOCKS ≤ D.blocks dev Redo }
    requires name { blank.name ≡ L.name }
    requires parts { blank.parts ≡ L.parts }
    requires three { blank.parts ≡ 3 }
    ensures safe { IfOk result (IsSafe D.Device) }
    ensures begun { IfOk result (IsBegun D.Device dev geo) }
    ensures back { IfErr result (IsBack D.Device dev geo) }
{
    let mut steps = Steps::<L>::new(blank);
    open(alloc, dev, geo, &mut steps)
}

/// Opens a device, for a caller that counts no steps (XFS Online Fsck Design, "Metadata Repair").
pub fn open_quiet<D: Device>(
    alloc: Global,
    dev: D,
    geo: Geometry,
) -> Result<Parts<D>, (D, OpenRefused)>
    requires image { geo.dblocks ≤ D.blocks dev Image }
    requires redo { REDO_BLOCKS ≤ D.blocks dev Redo }
    ensures safe { IfOk result (IsSafe D.Device) }
    ensures begun { IfOk result (IsBegun D.Device dev geo) }
    ensures back { IfErr result (IsBack D.Device dev geo) }
{
    let blank = Blank::new(3);
    open_counted::<D, Brand>(alloc, dev, geo, blank)
}

// Judges and rebuilds the units of a device that was opened, and takes the parts apart again.
#[tactic(auto, using(crate::proofs::EndLemmas::parts_end, crate::proofs::EndLemmas::parts_order))]
fn repair_parts<D: Device, W: Watch>(
    alloc: Global,
    parts: Parts<D>,
    plan: Plan,
    turns: u32,
    watch: &mut W,
) -> (D, Repair)
    requires safe { IsSafe D.Device parts }
    requires fresh { AllFresh parts.groups.items }
    requires empty { parts.desk.book.journal.items ≡ [] }
    ensures sizes { D.blocks result.0 ≡ D.blocks parts.desk.store.dev }
    ensures later { D.faults parts.desk.store.dev ≤ D.faults result.0 }
    ensures ends { EndsWell parts.desk.book.begun (D.faults result.0) result.1 }
    ensures order { KeepsOrder plan turns result.1 }
    ensures ended { IsEnded result.1 }
    ensures busy { IsBusy result.1 }
{
    let mut parts = parts;
    let stop = session(alloc, &mut parts, plan, turns, watch);
    let is_sick = any_sick(&parts);
    let (dev, journal) = into_device(parts);
    (
        dev,
        Repair::Ended(Repaired {
            journal,
            stop,
            is_sick,
            is_sound: false,
        }),
    )
}

// Repairs a device whose image may be repaired and has this geometry.
#[tactic(auto, using(crate::proofs::EndLemmas::ends_on, crate::proofs::EndLemmas::moves_later, crate::proofs::EndLemmas::same_cause))]
fn repair_passed<D: Device, W: Watch>(
    alloc: Global,
    dev: D,
    geo: Geometry,
    plan: Plan,
    turns: u32,
    watch: &mut W,
) -> (D, Repair)
    requires image { geo.dblocks ≤ D.blocks dev Image }
    requires redo { REDO_BLOCKS ≤ D.blocks dev Redo }
    requires heads { HeadsPass (D.content dev) geo }
    ensures sizes { D.blocks result.0 ≡ D.blocks dev }
    ensures later { D.faults dev ≤ D.faults result.0 }
    ensures ends { EndsWell (D.faults dev) (D.faults result.0) result.1 }
    ensures order { KeepsOrder plan turns result.1 }
    ensures late { RefusesLate (D.content dev) (D.content result.0) result.1 }
    ensures busy { IsBusy result.1 }
{
    match open_quiet(alloc, dev, geo) {
        Ok(parts) => repair_parts(alloc, parts, plan, turns, watch),
        Err((dev, refused)) => (dev, Repair::Refused(no_entry(refused))),
    }
}

// A repair that had nothing to do.
fn nothing_done(journal: Vec<Entry>) -> Repair
    ensures ends { (before now : ℕ) → EndsWell before now result }
    ensures order { (plan : Plan) (turns : ℕ) → HasOrder plan turns None journal.items
        → KeepsOrder plan turns result }
    ensures ended { IsEnded result }
    ensures sound { (content : Option Contents) (blocks : Region → ℕ)
        → IfSome content (IsSoundDevice blocks journal.items) → LeavesSound content blocks result }
    ensures alone { (checked : List Entry) → journal.items ≡ checked → DoesNothing checked result }
    ensures same { (old new : Option Contents) → new ≡ old → StaysSound old new result }
{
    Repair::Ended(Repaired {
        journal,
        stop: None,
        is_sick: false,
        is_sound: true,
    })
}

// Repairs a device whose image may be repaired and has this geometry, where a check finds something to
// repair. The check is quicker than the core, which reads all inodes once for each group.
#[tactic(auto, using(crate::proofs::EndLemmas::moves_later, crate::proofs::EndLemmas::room_on, crate::proofs::EndLemmas::ends_on))]
fn repair_found<D: Device, W: Watch>(
    alloc: Global,
    dev: D,
    geo: Geometry,
    turns: u32,
    watch: &mut W,
) -> (D, Repair)
    requires image { geo.dblocks ≤ D.blocks dev Image }
    requires redo { REDO_BLOCKS ≤ D.blocks dev Redo }
    requires closed { IfSome (D.content dev) IsClosed }
    requires told { IfSome (D.content dev) (HasGeometry (D.blocks dev Image) geo) }
    requires heads { HeadsPass (D.content dev) geo }
    ensures sizes { D.blocks result.0 ≡ D.blocks dev }
    ensures later { D.faults dev ≤ D.faults result.0 }
    ensures ends { EndsWell (D.faults dev) (D.faults result.0) result.1 }
    ensures order { KeepsOrder plans.Repair turns result.1 }
    ensures late { RefusesLate (D.content dev) (D.content result.0) result.1 }
    ensures sound { LeavesSound (D.content result.0) (D.blocks result.0) result.1 }
    ensures alone { IfSome (D.content dev) (λ m. (journal : List Entry)
        → IsSoundDevice (D.blocks dev) journal m → DoesNothing journal result.1) }
    ensures same { StaysSound (D.content dev) (D.content result.0) result.1 }
{
    let mut dev = dev;
    match sound_journal(alloc, &mut dev, &geo, watch) {
        Ok(Some(journal)) => (dev, nothing_done(journal)),
        Ok(None) => repair_passed(alloc, dev, geo, Plan::Repair, turns, watch),
        Err(no) => (dev, Repair::Refused(no)),
    }
}

// The same by the plan.
fn repair_geometry<D: Device, W: Watch>(
    alloc: Global,
    dev: D,
    geo: Geometry,
    plan: Plan,
    turns: u32,
    watch: &mut W,
) -> (D, Repair)
    requires image { geo.dblocks ≤ D.blocks dev Image }
    requires redo { REDO_BLOCKS ≤ D.blocks dev Redo }
    requires closed { IfSome (D.content dev) IsClosed }
    requires told { IfSome (D.content dev) (HasGeometry (D.blocks dev Image) geo) }
    requires heads { HeadsPass (D.content dev) geo }
    ensures sizes { D.blocks result.0 ≡ D.blocks dev }
    ensures later { D.faults dev ≤ D.faults result.0 }
    ensures ends { EndsWell (D.faults dev) (D.faults result.0) result.1 }
    ensures order { KeepsOrder plan turns result.1 }
    ensures late { RefusesLate (D.content dev) (D.content result.0) result.1 }
    ensures sound { LeavesSound (D.content result.0) (D.blocks result.0) result.1 }
    ensures alone { IfSome (D.content dev) (λ m. (journal : List Entry)
        → IsSoundDevice (D.blocks dev) journal m → LeavesAlone plan journal result.1) }
    ensures same { StaysSound (D.content dev) (D.content result.0) result.1 }
{
    match plan {
        Plan::Repair => repair_found(alloc, dev, geo, turns, watch),
        Plan::Check => repair_passed(alloc, dev, geo, plan, turns, watch),
        Plan::Rebuild => repair_passed(alloc, dev, geo, plan, turns, watch),
    }
}

/// Repairs the image of a device that nobody else changes: a change that waits in the redo region is
/// finished, superblock and heads are tested, and then the units of all groups are judged, and rebuilt
/// as the plan says; where a check finds them all good, and they aren't to be rebuilt anyway, that is all.
/// The device comes back, with the journal of what was found and done
/// (XFS Online Fsck Design, "Metadata Repair").
#[tactic(auto, using(crate::proofs::EndLemmas::moves_later, crate::proofs::EndLemmas::room_on))]
pub fn repair_device<D: Device, W: Watch>(
    alloc: Global,
    dev: D,
    plan: Plan,
    turns: u32,
    watch: &mut W,
) -> (D, Repair)
    ensures sizes { D.blocks result.0 ≡ D.blocks dev }
    ensures later { D.faults dev ≤ D.faults result.0 }
    ensures ends { EndsWell (D.faults dev) (D.faults result.0) result.1 }
    ensures order { KeepsOrder plan turns result.1 }
    ensures refused { IfSome (D.content dev)
        (λ m. RefusesAs (door_refusal (D.blocks dev Redo) (D.blocks dev Image) m) result.1) }
    ensures left { LeavesRefused (D.content dev) (D.content result.0) result.1 }
    ensures sound { LeavesSound (D.content result.0) (D.blocks result.0) result.1 }
    ensures alone { IfSome (D.content dev) (λ m. (journal : List Entry)
        → IsSoundDevice (D.blocks dev) journal m → LeavesAlone plan journal result.1) }
    ensures kept { KeepsSound (D.content dev) (D.content result.0) result.1 }
{
    let mut dev = dev;
    match pass_door(alloc, &mut dev) {
        Ok(geo) => repair_geometry(alloc, dev, geo, plan, turns, watch),
        Err(no) => (dev, Repair::Refused(no)),
    }
}
