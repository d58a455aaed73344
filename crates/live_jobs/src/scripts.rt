// The script of a run: it is opened, read, and given back.
ghost use Rattle.std.specs.Prelude.{◌≡◌, ℕ, List, IfErr, IfOk};
ghost use Rattle.live_jobs.specs.Runs.{NotRun};
ghost use Rattle.script_defs.specs.Shape.{IsScript};

use crate::ending::LiveFinding;
use image_hosts::{OpenFault, ScriptHost};
use script_defs::Script;
use script_read::{ScriptFault, read_script};
use std::alloc::Global;
use xscrub::Finding;

// How a run ends whose script isn't read.
fn unread(alloc: Global, fault: ScriptFault) -> LiveFinding
    ensures { NotRun result }
{
    match fault {
        ScriptFault::Wrong(line) => LiveFinding::ScriptWrong(line),
        ScriptFault::Failed => LiveFinding::ScriptFailed,
        ScriptFault::Memory => LiveFinding::Found(Finding::Memory(Vec::new(alloc))),
    }
}

// How a run ends whose script isn't opened.
fn unopened(alloc: Global, fault: OpenFault) -> LiveFinding
    ensures { NotRun result }
{
    match fault {
        OpenFault::Failed => LiveFinding::Found(Finding::HostFailed),
        OpenFault::Memory => LiveFinding::Found(Finding::Memory(Vec::new(alloc))),
    }
}

/// Reads the named script. What was opened is given back in each case.
pub(crate) fn read_named<H: ScriptHost>(
    alloc: Global,
    host: &mut H,
    name: &str,
) -> Result<Script, LiveFinding>
    ensures script { IfOk result IsScript }
    ensures not_run { IfErr result NotRun }
    ensures tells { H.tells host.new ≡ H.tells host.old }
    ensures stored { (n : List ℕ) → H.stored host.new n ≡ H.stored host.old n }
    ensures redo { (n : List ℕ) → H.redo_files host.new n ≡ H.redo_files host.old n }
    ensures loans { H.loans host.new ≡ H.loans host.old }
    ensures asked { H.asked host.new ≡ H.asked host.old }
    ensures devices { H.dev_faults host.new ≡ H.dev_faults host.old }
    ensures report { H.taken host.new ≡ H.taken host.old }
    ensures sink { H.sink_faults host.new ≡ H.sink_faults host.old }
{
    let mut src = match host.script(name) {
        Ok(src) => src,
        Err(fault) => return Err(unopened(alloc, fault)),
    };
    let read = read_script(alloc, &mut src);
    host.script_back(src);
    match read {
        Ok(script) => Ok(script),
        Err(fault) => Err(unread(alloc, fault)),
    }
}
