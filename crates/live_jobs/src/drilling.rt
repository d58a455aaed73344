//! A drill: a new image is damaged and repaired, then rebuilt beside four writers, and then checked.
ghost use Rattle.std.specs.Prelude.{◌≡◌, ◌≤◌, IfSome};
ghost use Rattle.std.specs.Thread.{IsSync};
ghost use Rattle.live_jobs.specs.declared.damage.TheConstants.{IMAGE_BLOCKS};
ghost use Rattle.script_defs.specs.Shape.{IsScript};

use crate::damage::{GROUP_BLOCKS, GROUPS, IMAGE_BLOCKS, damage};
use crate::drills::drill_script;
use crate::ending::{DrillEnd, Drilled, Unbegun};
use blk_device::{Device, DeviceFailed, Region};
use check_watch::NoWatch;
use command_line::DEFAULT_TURNS;
use core_calls::ScrubFault;
use fresh_image::write_fresh;
use fs_model::Entry;
use fs_state::Plan;
use image_hosts::{OpenFault, Purpose, ScriptHost};
use live_fs::{Gate, Work, run_device};
use quiet_repair::{Repair, Repaired, repair_device};
use repair_door::NoEntry;
use script_defs::Script;
use std::alloc::Global;
use std::sync::Wait;
use std::thread::Threads;

// The name of a drill's image.
const SCRATCH: &str = "xscrub.scratch";

// Writes a new image and damages it.
#[tactic(auto, using(quiet_repair::proofs::EndLemmas::room_on))]
fn prepare<D: Device>(dev: &mut D, number: u32) -> Result<(), DeviceFailed>
    requires room { IMAGE_BLOCKS ≤ D.blocks dev.old Region.Image }
    ensures sizes { D.blocks dev.new ≡ D.blocks dev.old }
{
    write_fresh(dev, GROUPS, GROUP_BLOCKS)?;
    damage(dev, number)
}

// How a session ended that stopped for this.
fn end_at(fault: ScrubFault) -> DrillEnd {
    match fault {
        ScrubFault::Shut(_) => DrillEnd::DeviceFailed,
        ScrubFault::JournalFull => DrillEnd::Full,
        _ => DrillEnd::Memory,
    }
}

// How a session ended that wasn't begun. No other refusal comes of a new image.
fn end_before(entry: NoEntry) -> DrillEnd {
    match entry {
        NoEntry::Failed => DrillEnd::DeviceFailed,
        NoEntry::Memory => DrillEnd::Memory,
        _ => DrillEnd::Refused,
    }
}

fn end_of(repaired: &Repaired) -> DrillEnd {
    match repaired.stop {
        Some(fault) => end_at(fault),
        None => DrillEnd::Whole {
            is_sick: repaired.is_sick,
        },
    }
}

// The journal of a session, and how it ended. A fault that its device counted comes before all else.
fn session_end(alloc: Global, repair: Repair, is_failed: bool) -> (Vec<Entry>, DrillEnd) {
    match repair {
        Repair::Refused(entry) => (Vec::new(alloc), end_before(entry)),
        Repair::Ended(repaired) => {
            let end = if is_failed {
                DrillEnd::DeviceFailed
            } else {
                end_of(&repaired)
            };
            (repaired.journal, end)
        }
    }
}

// A session on a device, without writers.
fn quiet<D: Device>(alloc: Global, dev: D, plan: Plan) -> (D, (Vec<Entry>, DrillEnd))
    ensures sizes { D.blocks result.0 ≡ D.blocks dev }
{
    let mut watch = NoWatch;
    let (dev, repair) = repair_device(alloc, dev, plan, DEFAULT_TURNS, &mut watch);
    let is_failed = dev.fault_count() != 0;
    (dev, session_end(alloc, repair, is_failed))
}

// A drill of which no session began.
fn unbegun(alloc: Global, number: u32, why: Unbegun) -> Drilled {
    Drilled {
        number,
        journal: Vec::new(alloc),
        second: None,
        third: None,
        end: DrillEnd::NotBegun(why),
    }
}

// A drill whose journal was lost, since there was no memory for the next one behind it.
fn lost(alloc: Global, number: u32) -> Drilled {
    Drilled {
        number,
        journal: Vec::new(alloc),
        second: Some(0),
        third: Some(0),
        end: DrillEnd::Memory,
    }
}

// One journal behind another.
fn joined(journal: Vec<Entry>, more: &[Entry]) -> Option<Vec<Entry>> {
    let mut journal = journal;
    match journal.extend_from_slice(more) {
        Ok(()) => Some(journal),
        Err(_) => None,
    }
}

// A drill with the journal of its second session.
fn with_second(alloc: Global, drilled: Drilled, session: (Vec<Entry>, DrillEnd)) -> Drilled {
    let begun = drilled.journal.len() as u64;
    match joined(drilled.journal, session.0.as_slice()) {
        Some(journal) => Drilled {
            number: drilled.number,
            journal,
            second: Some(begun),
            third: None,
            end: session.1,
        },
        None => lost(alloc, drilled.number),
    }
}

// A drill with the journal of its third session.
fn with_third(alloc: Global, drilled: Drilled, session: (Vec<Entry>, DrillEnd)) -> Drilled {
    let begun = drilled.journal.len() as u64;
    match joined(drilled.journal, session.0.as_slice()) {
        Some(journal) => Drilled {
            number: drilled.number,
            journal,
            second: drilled.second,
            third: Some(begun),
            end: session.1,
        },
        None => lost(alloc, drilled.number),
    }
}

// Whether the last session came to its last unit.
fn is_whole(drilled: &Drilled) -> bool {
    matches!(drilled.end, DrillEnd::Whole { .. })
}

// The check at the end of a drill.
fn third<D: Device>(alloc: Global, dev: D, drilled: Drilled) -> (D, Drilled)
    ensures sizes { D.blocks result.0 ≡ D.blocks dev }
{
    if !is_whole(&drilled) {
        return (dev, drilled);
    }
    let (dev, session) = quiet(alloc, dev, Plan::Check);
    (dev, with_third(alloc, drilled, session))
}

// The second session, by its script.
fn second_by<D: Device + Send + Drop, G: Gate + Sync, R: Threads + Wait + Sync>(
    rt: &R,
    alloc: Global,
    dev: D,
    gate: &G,
    script: &Script,
) -> Option<(D, (Vec<Entry>, DrillEnd))>
    requires sync { IsSync R.row }
    requires script { IsScript script.now }
    ensures sizes { IfSome result (λ r. D.blocks r.0 ≡ D.blocks dev) }
{
    let work = Work {
        script,
        plan: Plan::Rebuild,
        turns: u32::MAX,
    };
    match run_device(rt, alloc, dev, &work, gate, NoWatch) {
        Some((dev, repair)) => {
            let is_failed = dev.fault_count() != 0;
            Some((dev, session_end(alloc, repair, is_failed)))
        }
        None => None,
    }
}

// The second session: four writers beside a scrubber that rebuilds all.
fn second<D: Device + Send + Drop, G: Gate + Sync, R: Threads + Wait + Sync>(
    rt: &R,
    alloc: Global,
    dev: D,
    gate: &G,
    drilled: Drilled,
) -> Option<(D, Drilled)>
    requires sync { IsSync R.row }
    ensures sizes { IfSome result (λ r. D.blocks r.0 ≡ D.blocks dev) }
{
    if !is_whole(&drilled) {
        return Some((dev, drilled));
    }
    let Ok(script) = drill_script(alloc, drilled.number) else {
        return Some((dev, short(drilled)));
    };
    match second_by(rt, alloc, dev, gate, &script) {
        Some((dev, session)) => Some((dev, with_second(alloc, drilled, session))),
        None => None,
    }
}

// A drill for whose next session there was no memory.
fn short(drilled: Drilled) -> Drilled {
    Drilled {
        end: DrillEnd::Memory,
        ..drilled
    }
}

// The sessions of a drill on a device of its own. There is none any more where there was no memory for the
// turns.
fn sessions<D: Device + Send + Drop, G: Gate + Sync, R: Threads + Wait + Sync>(
    rt: &R,
    alloc: Global,
    dev: D,
    gate: &G,
    number: u32,
) -> Option<(D, Drilled)>
    requires sync { IsSync R.row }
    ensures sizes { IfSome result (λ r. D.blocks r.0 ≡ D.blocks dev) }
{
    let (dev, (journal, end)) = quiet(alloc, dev, Plan::Repair);
    let first = Drilled {
        number,
        journal,
        second: None,
        third: None,
        end,
    };
    match second(rt, alloc, dev, gate, first) {
        Some((dev, drilled)) => Some(third(alloc, dev, drilled)),
        None => None,
    }
}

// A drill on a device with room for its image.
fn drill_device<D: Device + Send + Drop, G: Gate + Sync, R: Threads + Wait + Sync>(
    rt: &R,
    alloc: Global,
    dev: D,
    gate: &G,
    number: u32,
) -> Option<(D, Drilled)>
    requires sync { IsSync R.row }
    requires room { IMAGE_BLOCKS ≤ D.blocks dev Region.Image }
    ensures sizes { IfSome result (λ r. D.blocks r.0 ≡ D.blocks dev) }
{
    let mut dev = dev;
    match prepare(&mut dev, number) {
        Ok(()) => sessions(rt, alloc, dev, gate, number),
        Err(DeviceFailed) => Some((dev, unbegun(alloc, number, Unbegun::DeviceFailed))),
    }
}

/// A drill of this number on a new image of its own, which is kept under the name `xscrub.scratch`.
pub(crate) fn drill<H: ScriptHost, G: Gate + Sync, R: Threads + Wait + Sync>(
    rt: &R,
    alloc: Global,
    host: &mut H,
    gate: &G,
    number: u32,
) -> Drilled
where
    H::Dev: Drop,
    requires sync { IsSync R.row }
    ensures report { H.taken host.new ≡ H.taken host.old }
    ensures sink { H.sink_faults host.new ≡ H.sink_faults host.old }
{
    let dev = match host.device(SCRATCH, None, Purpose::Make(IMAGE_BLOCKS)) {
        Ok(dev) => dev,
        Err(OpenFault::Failed) => return unbegun(alloc, number, Unbegun::HostFailed),
        Err(OpenFault::Memory) => return unbegun(alloc, number, Unbegun::Memory),
    };
    match drill_device(rt, alloc, dev, gate, number) {
        Some((dev, drilled)) => {
            host.put_back(SCRATCH, dev);
            drilled
        }
        None => lost(alloc, number),
    }
}
