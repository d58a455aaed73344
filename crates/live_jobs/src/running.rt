//! A scrub of an image beside the writers of a script.
ghost use Rattle.std.specs.Prelude.{◌≡◌, IfSome};
ghost use Rattle.std.specs.Thread.{IsSync};
ghost use Rattle.live_jobs.specs.Runs.{Comes, IsLiveBy, IsRunBy};
ghost use Rattle.quiet_repair.specs.Ends.{EndsWell};
ghost use Rattle.script_defs.specs.Shape.{IsScript};
ghost use Rattle.xscrub.specs.Repairs.{CountsFor, IsOfDevice};

use crate::ending::LiveFinding;
use crate::scripts::read_named;
use crate::words::Names;
use blk_device::Device;
use check_watch::Watch;
use fs_state::Plan;
use image_hosts::{OpenFault, Purpose, ScriptHost};
use live_fs::{Gate, Work, run_device};
use quiet_repair::Repair;
use script_defs::Script;
use std::alloc::Global;
use std::sync::Wait;
use std::thread::Threads;
use xscrub::{Finding, finding_of};

// Runs on a device that counted no fault yet. There is none any more where there was no memory for the turns.
#[tactic(auto, using(quiet_repair::proofs::EndLemmas::ends_on))]
fn run_lent<D: Device + Send + Drop, G: Gate + Sync, R: Threads + Wait + Sync, Y: Watch + Drop>(
    rt: &R,
    alloc: Global,
    dev: D,
    work: &Work<'_>,
    gate: &G,
    watch: Y,
) -> Option<(D, Finding)>
    requires sync { IsSync R.row }
    requires fresh { D.faults dev ≡ 0 }
    requires script { IsScript work.now.script.now }
    ensures comes { IfSome result (Comes D.Device dev) }
{
    match run_device(rt, alloc, dev, work, gate, watch) {
        Some((dev, repair)) => {
            let found = found_on(alloc, &dev, repair);
            Some((dev, found))
        }
        None => None,
    }
}

// What a run found of a device that counted no fault before it.
fn found_on<D: Device>(alloc: Global, dev: &D, repair: Repair) -> Finding
    requires { EndsWell 0 (D.faults dev.now) repair }
    ensures device { IsOfDevice result }
    ensures count { CountsFor 0 (D.faults dev.now) result }
{
    let is_failed = dev.fault_count() != 0;
    finding_of(alloc, repair, is_failed)
}

// Runs on the named image beside the redo file. The device that is handed out for it is given back, but
// where there was no memory for the turns.
fn run_image<H: ScriptHost, G: Gate + Sync, R: Threads + Wait + Sync>(
    rt: &R,
    alloc: Global,
    host: &mut H,
    gate: &G,
    names: &Names<'_>,
    work: &Work<'_>,
) -> Finding
where
    H::Dev: Drop,
    requires sync { IsSync R.row }
    requires script { IsScript work.now.script.now }
    ensures run { IsRunBy H.Dev.Device names.now.image.now names.now.redo.now (H.stored host.old) (H.redo_files host.old)
        (H.stored host.new) (H.redo_files host.new) (H.loans host.old) (H.loans host.new) result }
    ensures report { H.taken host.new ≡ H.taken host.old }
    ensures sink { H.sink_faults host.new ≡ H.sink_faults host.old }
{
    let dev = match host.device(names.image, Some(names.redo), Purpose::Change) {
        Ok(dev) => dev,
        Err(OpenFault::Failed) => return Finding::HostFailed,
        Err(OpenFault::Memory) => return Finding::Memory(Vec::new(alloc)),
    };
    let watch = host.watch();
    match run_lent(rt, alloc, dev, work, gate, watch) {
        Some((dev, found)) => {
            host.put_back(names.image, dev);
            found
        }
        None => Finding::Memory(Vec::new(alloc)),
    }
}

/// Reads the named script and runs it on the named image beside the redo file, while a scrubber judges the
/// units and rebuilds them by this plan; a unit loses so many turns at most.
pub(crate) fn run<H: ScriptHost, G: Gate + Sync, R: Threads + Wait + Sync>(
    rt: &R,
    alloc: Global,
    host: &mut H,
    gate: &G,
    names: &Names<'_>,
    how: (Plan, u32),
) -> LiveFinding
where
    H::Dev: Drop,
    requires sync { IsSync R.row }
    ensures run { IsLiveBy H.Dev.Device names.now.image.now names.now.redo.now (H.stored host.old) (H.redo_files host.old)
        (H.stored host.new) (H.redo_files host.new) (H.loans host.old) (H.loans host.new) result }
    ensures report { H.taken host.new ≡ H.taken host.old }
    ensures sink { H.sink_faults host.new ≡ H.sink_faults host.old }
{
    match read_named(alloc, host, names.script) {
        Ok(script) => run_script(rt, alloc, host, gate, names, &script, how),
        Err(finding) => finding,
    }
}

// Runs a script that was read.
fn run_script<H: ScriptHost, G: Gate + Sync, R: Threads + Wait + Sync>(
    rt: &R,
    alloc: Global,
    host: &mut H,
    gate: &G,
    names: &Names<'_>,
    script: &Script,
    how: (Plan, u32),
) -> LiveFinding
where
    H::Dev: Drop,
    requires sync { IsSync R.row }
    requires script { IsScript script.now }
    ensures run { IsLiveBy H.Dev.Device names.now.image.now names.now.redo.now (H.stored host.old) (H.redo_files host.old)
        (H.stored host.new) (H.redo_files host.new) (H.loans host.old) (H.loans host.new) result }
    ensures report { H.taken host.new ≡ H.taken host.old }
    ensures sink { H.sink_faults host.new ≡ H.sink_faults host.old }
{
    let work = Work {
        script,
        plan: how.0,
        turns: how.1,
    };
    LiveFinding::Found(run_image(rt, alloc, host, gate, names, &work))
}
