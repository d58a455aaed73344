ghost use Rattle.std.specs.Prelude.{◌≡◌, IfOk, Some, map, option_map, string_bytes};
ghost use Rattle.image_hosts.specs.Stored.{name_of};
ghost use Rattle.command_line.specs.Requests.{told};
ghost use Rattle.xscrub.specs.Command.{command_of as command_of_words, job_in, plan_of as plan_of_request, repair_in, SaysCommand};

use command_line::{Job, Request, parse};
use fs_state::Plan;
use std::alloc::{AllocError, Global};

/// What the words of a command line ask for: the check of the named image, beside a redo file or without
/// one; its repair, with the plan for each unit and the turns that a unit waits at most; a new image of that
/// name; a job that isn't built yet; or nothing that is understood.
#[derive(Clone, Copy, Debug, PartialEq, Eq)]
pub enum Command<'a> {
    Check(&'a str, Option<&'a str>),
    Repair(&'a str, &'a str, Plan, u32),
    Make(&'a str),
    Unbuilt,
    Usage,
}

// What is done with each unit that is judged: those with faults are rebuilt, or all.
fn plan_of(is_rebuild: bool) -> Plan
    ensures { result ≡ plan_of_request is_rebuild }
{
    if is_rebuild {
        return Plan::Rebuild;
    }
    Plan::Repair
}

// The repair that a request asks for. A request for it has a redo file.
fn repair_of<'a>(request: &Request<'a>) -> Command<'a>
    ensures { SaysCommand result (repair_in request.now.target.now (name_of request.now.redo) request.now.is_rebuild request.now.turns) }
{
    match request.redo {
        Some(redo) => Command::Repair(
            request.target,
            redo,
            plan_of(request.is_rebuild),
            request.turns,
        ),
        None => Command::Usage,
    }
}

// What a request asks for.
fn command_in<'a>(request: &Request<'a>) -> Command<'a>
    ensures { SaysCommand result (job_in (Some (told request.now))) }
{
    match request.job {
        Job::Check => Command::Check(request.target, request.redo),
        Job::Repair => repair_of(request),
        Job::Make => Command::Make(request.target),
        Job::Run | Job::Drill => Command::Unbuilt,
    }
}

// What the request asks for, if there is one.
fn command_by<'a>(found: Option<Request<'a>>) -> Command<'a>
    ensures { SaysCommand result (job_in (option_map told found.entry)) }
{
    match found {
        Some(request) => command_in(&request),
        None => Command::Usage,
    }
}

/// Reads the words, without the program's name. What is asked for is that whatever the host is; want
/// of memory is the one refusal.
#[tactic(auto, unfolding(crate::specs::Command::command_of))]
pub fn command_of<'a>(alloc: Global, words: &'a [String]) -> Result<Command<'a>, AllocError>
    ensures { IfOk result (λ command. SaysCommand command (command_of_words (map string_bytes words.now))) }
{
    let found = parse(alloc, words)?;
    Ok(command_by(found))
}
