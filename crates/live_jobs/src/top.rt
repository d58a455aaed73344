//! The top call of all jobs.
ghost use Rattle.std.specs.Prelude.{◌≡◌};
ghost use Rattle.std.specs.Thread.{IsSync};
ghost use Rattle.xscrub.specs.Command.{job_of, unbuilt};
ghost use Rattle.xscrub.specs.Run.{RunsFor, seen};

use crate::drilling::drill;
use crate::running::run;
use crate::telling::{tell_drill, tell_run};
use crate::words::{LiveCommand, live_command};
use image_hosts::ScriptHost;
use live_fs::Gate;
use std::alloc::Global;
use std::sync::Wait;
use std::thread::Threads;
use xscrub::{RunEnd, fsck_main};

/// Runs the words, without the program's name, and tells the host's sink what was found. Checks, repairs and
/// new images are the quiet top call's; a run and a drill let writers take turns with a scrubber, as far as
/// there are threads, and the gate is told of each event.
pub fn fsck_live<H: ScriptHost, G: Gate + Sync, R: Threads + Wait + Sync>(
    rt: &R,
    alloc: Global,
    host: &mut H,
    gate: &G,
    words: &[String],
) -> RunEnd
where
    H::Dev: Drop,
    requires sync { IsSync R.row }
    ensures quiet { (job_of words.now ≡ unbuilt → ⊥) → RunsFor H.Dev.Device (job_of words.now)
        (seen H.Host.own H.Sink host.old) (seen H.Host.own H.Sink host.new) result }
{
    match live_command(alloc, words) {
        Ok(LiveCommand::Run(names, plan, turns)) => {
            let finding = run(rt, alloc, host, gate, &names, (plan, turns));
            tell_run(alloc, host, finding)
        }
        Ok(LiveCommand::Drill(number)) => {
            let drilled = drill(rt, alloc, host, gate, number);
            tell_drill(alloc, host, drilled)
        }
        Ok(LiveCommand::Other) => fsck_main(alloc, host, words),
        // Where there is no memory for the words, the same call says so.
        Err(_) => fsck_main(alloc, host, words),
    }
}
