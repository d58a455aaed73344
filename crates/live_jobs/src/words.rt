ghost use Rattle.std.specs.Prelude.{IfOk, Some, map, option_map, string_bytes};
ghost use Rattle.command_line.specs.Requests.{told};
ghost use Rattle.live_jobs.specs.Words.{IsFor};
ghost use Rattle.xscrub.specs.Command.{command_of, job_in};

use command_line::{Job, Request, parse};
use fs_state::Plan;
use std::alloc::{AllocError, Global};

/// What the words ask of the jobs that let writers run: a scrub of an image beside a script's writers, a
/// drill with a number; or another job.
#[derive(Clone, Copy, Debug, PartialEq, Eq)]
pub(crate) enum LiveCommand<'a> {
    Run(Names<'a>, Plan, u32),
    Drill(u32),
    Other,
}

/// The names of an image, of the redo file beside it, and of a script.
#[derive(Clone, Copy, Debug, PartialEq, Eq)]
pub(crate) struct Names<'a> {
    pub(crate) image: &'a str,
    pub(crate) redo: &'a str,
    pub(crate) script: &'a str,
}

fn plan_of(is_rebuild: bool) -> Plan {
    if is_rebuild {
        Plan::Rebuild
    } else {
        Plan::Repair
    }
}

// A request for a run has a redo file and a script.
fn run_of<'a>(request: &Request<'a>) -> LiveCommand<'a> {
    match (request.redo, request.script) {
        (Some(redo), Some(script)) => LiveCommand::Run(
            Names {
                image: request.target,
                redo,
                script,
            },
            plan_of(request.is_rebuild),
            request.turns,
        ),
        _ => LiveCommand::Other,
    }
}

// One more digit behind a number, which stays below 2^32.
fn with_digit(number: u32, byte: u8) -> u32 {
    number
        .saturating_mul(10)
        .saturating_add(u32::from(byte.saturating_sub(b'0')))
}

// The number that a drill's target writes, whose digits a request has tested.
fn number_of(digits: &[u8]) -> u32 {
    let mut number = 0u32;
    for byte in digits {
        number = with_digit(number, *byte);
    }
    number
}

fn command_in<'a>(request: &Request<'a>) -> LiveCommand<'a>
    ensures { IsFor result (job_in (Some (told request.now))) }
{
    match request.job {
        Job::Run => run_of(request),
        Job::Drill => LiveCommand::Drill(number_of(request.target.as_bytes())),
        Job::Check | Job::Repair | Job::Make => LiveCommand::Other,
    }
}

fn command_by<'a>(found: Option<Request<'a>>) -> LiveCommand<'a>
    ensures { IsFor result (job_in (option_map told found.entry)) }
{
    match found {
        Some(request) => command_in(&request),
        None => LiveCommand::Other,
    }
}

/// Reads the words, without the program's name. Words of these jobs ask for nothing that the quiet top call
/// has built.
#[tactic(auto, unfolding(xscrub::specs::Command::command_of))]
pub(crate) fn live_command<'a>(
    alloc: Global,
    words: &'a [String],
) -> Result<LiveCommand<'a>, AllocError>
    ensures { IfOk result (λ command. IsFor command (command_of (map string_bytes words.now))) }
{
    let found = parse(alloc, words)?;
    Ok(command_by(found))
}
