// A run on a device: what stands before it, a session of writers and a scrubber, and the device behind it.
ghost use Rattle.std.specs.Prelude.{◌≡◌, ◌≤◌, IfSome};
ghost use Rattle.std.specs.Thread.{IsSync};
ghost use Rattle.blk_device.specs.declared.device.Region.TheVariants.{Image, Redo};
ghost use Rattle.core_parts.specs.Safe.{IsSafe};
ghost use Rattle.live_fs.specs.Passes.{IsPassOf};
ghost use Rattle.live_fs.specs.Runs.{IsRun, IsRunFrom};
ghost use Rattle.quiet_repair.specs.Ends.{EndsWell};
ghost use Rattle.quiet_repair.specs.Sessions.{IsStopped};
ghost use Rattle.redo_area.specs.declared.TheConstants.{REDO_BLOCKS};
ghost use Rattle.script_defs.specs.Shape.{IsScript};
ghost use Rattle.turn_lock.specs.Lists.{actors_of, from_up};
ghost use Rattle.turn_lock.specs.Passes.{known};
ghost use Rattle.turn_lock.specs.declared.recorded.TheConstants.{ACTORS};

use crate::ends::{LiveEnd, LiveStop};
use crate::gate::Gate;
use crate::live::LiveFs;
use crate::sessions::live_session;
use crate::shared::Shared;
use blk_device::Device;
use check_watch::Watch;
use core_calls::ScrubFault;
use core_parts::{MOST_ENTRIES, Parts};
use fs_state::Plan;
use fsck_core::{any_sick, into_device};
use geom::Geometry;
use quiet_repair::{Repair, Repaired, no_entry, open_quiet};
use repair_door::pass_door;
use script_defs::Script;
use std::alloc::Global;
use std::sync::Wait;
use std::thread::Threads;
use turn_lock::Pass;

/// What a run is to do: what writers do, how units are judged and rebuilt meanwhile, and how many turns
/// each of these may lose to writers (XFS Online Fsck Design, "Live Updates").
#[derive(Clone, Copy)]
pub struct Work<'a> {
    pub script: &'a Script,
    pub plan: Plan,
    pub turns: u32,
}

// Why a session stopped that came to an end like this, as the core shows it.
fn stop_of<D: Device>(parts: &Parts<D>, end: LiveEnd) -> Option<ScrubFault>
    ensures { IsStopped parts.now.desk result }
{
    if let Some(faults) = parts.desk.book.shut {
        return Some(ScrubFault::Shut(faults));
    }
    match end.stop {
        Some(LiveStop::JournalFull) if parts.desk.book.journal.len() >= MOST_ENTRIES => {
            Some(ScrubFault::JournalFull)
        }
        Some(_) => Some(ScrubFault::Memory),
        None => None,
    }
}

// Takes a core apart whose session came to this end.
fn end_parts<D: Device>(parts: Parts<D>, end: LiveEnd) -> (D, Repair)
    requires safe { IsSafe D.Device parts }
    ensures device { result.0 ≡ parts.desk.store.dev }
    ensures later { parts.desk.book.begun ≤ D.faults result.0 }
    ensures ends { EndsWell parts.desk.book.begun (D.faults result.0) result.1 }
{
    let stop = stop_of(&parts, end);
    let is_sick = any_sick(&parts);
    let (dev, journal) = into_device(parts);
    (
        dev,
        Repair::Ended(Repaired {
            journal,
            stop,
            is_sick,
            is_sound: false,
        }),
    )
}

// The session of a core that is shared, and its end.
#[tactic(auto, using(crate::proofs::SectionLemmas::script_sections))]
fn run_live<D: Device + Send + Drop, G: Gate + Sync, R: Threads + Wait + Sync, Y: Watch + Drop>(
    rt: &R,
    alloc: Global,
    live: LiveFs<'_, D, G>,
    pass: Pass<Shared<D>>,
    work: &Work<'_>,
    watch: Y,
) -> Option<(D, Repair)>
    requires sync { IsSync R.row }
    requires pass { IsPassOf live.lock live.origin pass }
    requires speaks { actors_of (known pass).kept ≡ from_up 0 ACTORS }
    requires script { IsScript work.now.script.now }
    ensures run { IfSome result (IsRunFrom D.Device live.entry.origin) }
{
    let order = live.order(work.plan, work.turns);
    let sections = work.script.sections.as_slice();
    let (pass, end) = live_session(&live, rt, alloc, pass, sections, order, watch);
    match live.close(pass) {
        Ok(parts) => Some(end_parts(parts, end)),
        Err(_) => None,
    }
}

// A run on a core that was opened.
fn run_parts<D: Device + Send + Drop, G: Gate + Sync, R: Threads + Wait + Sync, Y: Watch + Drop>(
    rt: &R,
    alloc: Global,
    parts: Parts<D>,
    work: &Work<'_>,
    gate: &G,
    watch: Y,
) -> Option<(D, Repair)>
    requires sync { IsSync R.row }
    requires safe { IsSafe D.Device parts }
    requires script { IsScript work.now.script.now }
    ensures run { IfSome result (IsRun D.Device (D.blocks parts.desk.store.dev) parts.desk.book.begun) }
{
    match LiveFs::open(alloc, parts, gate) {
        Ok((live, pass)) => run_live(rt, alloc, live, pass, work, watch),
        Err(_) => None,
    }
}

// A run on a device whose image may be repaired and has this geometry.
fn run_passed<D: Device + Send + Drop, G: Gate + Sync, R: Threads + Wait + Sync, Y: Watch + Drop>(
    rt: &R,
    alloc: Global,
    dev: D,
    geo: Geometry,
    work: &Work<'_>,
    gate: &G,
    watch: Y,
) -> Option<(D, Repair)>
    requires sync { IsSync R.row }
    requires image { geo.dblocks ≤ D.blocks dev Image }
    requires redo { REDO_BLOCKS ≤ D.blocks dev Redo }
    requires script { IsScript work.now.script.now }
    ensures run { IfSome result (IsRun D.Device (D.blocks dev) (D.faults dev)) }
{
    match open_quiet(alloc, dev, geo) {
        Ok(parts) => run_parts(rt, alloc, parts, work, gate, watch),
        Err((dev, refused)) => Some((dev, Repair::Refused(no_entry(refused)))),
    }
}

/// Runs a script on the image of a device while a scrubber judges and rebuilds its units: a change that
/// waits in the redo region is finished, superblock and heads are tested, and then everybody takes turns
/// at one core. The device comes back, with the journal of what was found and done; where there is no
/// memory for the turns, it is lost (XFS Online Fsck Design, "Live Updates").
pub fn run_device<
    D: Device + Send + Drop,
    G: Gate + Sync,
    R: Threads + Wait + Sync,
    Y: Watch + Drop,
>(rt: &R, alloc: Global, dev: D, work: &Work<'_>, gate: &G, watch: Y) -> Option<(D, Repair)>
    requires sync { IsSync R.row }
    requires script { IsScript work.now.script.now }
    ensures run { IfSome result (IsRun D.Device (D.blocks dev) (D.faults dev)) }
{
    let mut dev = dev;
    match pass_door(alloc, &mut dev) {
        Ok(geo) => run_passed(rt, alloc, dev, geo, work, gate, watch),
        Err(no) => Some((dev, Repair::Refused(no))),
    }
}
