ghost use Rattle.std.specs.Prelude.{◌≡◌, option_map};
ghost use Rattle.command_line.specs.Requests.{bytes, all_fit as all_fit_of, asked_of, job_named, redo_fits as redo_fits_of, script_fits as script_fits_of, rebuild_fits as rebuild_fits_of, turns_fit as turns_fit_of, target_fits as target_fits_of, turns_of as turns_of_text, told};

use crate::numbers::number_of;

/// What is to be done: a check of an image, its repair, a repair beside writers, a drill on an image
/// of its own, or a new image.
#[derive(Clone, Copy, Debug, PartialEq, Eq)]
pub enum Job {
    Check,
    Repair,
    Run,
    Drill,
    Make,
}

/// What the words of a command line ask for: the job, its target (the name of an image, or the
/// number of a drill), the names of a redo file and of a script, whether all is rebuilt, and how many
/// turns a unit waits at most.
#[derive(Clone, Copy, Debug, PartialEq, Eq)]
pub struct Request<'a> {
    pub job: Job,
    pub target: &'a str,
    pub redo: Option<&'a str>,
    pub script: Option<&'a str>,
    pub is_rebuild: bool,
    pub turns: u32,
}

/// The turns that a unit waits where the words don't say how many.
pub const DEFAULT_TURNS: u32 = 1_000_000;

#[tactic(auto, unfolding(crate::specs::Requests::job_named))]
fn job_of(word: &str) -> Option<Job>
    ensures { result ≡ job_named word.now }
{
    if word == "check" {
        return Some(Job::Check);
    }
    if word == "repair" {
        return Some(Job::Repair);
    }
    if word == "run" {
        return Some(Job::Run);
    }
    if word == "drill" {
        return Some(Job::Drill);
    }
    if word == "make" {
        return Some(Job::Make);
    }
    None
}

fn redo_fits(job: Job, given: bool) -> bool
    ensures { result ≡ redo_fits_of job given }
{
    match job {
        Job::Check => true,
        Job::Repair | Job::Run => given,
        Job::Drill | Job::Make => !given,
    }
}

fn script_fits(job: Job, given: bool) -> bool
    ensures { result ≡ script_fits_of job given }
{
    match job {
        Job::Run => given,
        Job::Check | Job::Repair | Job::Drill | Job::Make => !given,
    }
}

fn rebuild_fits(job: Job, given: bool) -> bool
    ensures { result ≡ rebuild_fits_of job given }
{
    match job {
        Job::Repair | Job::Run => true,
        Job::Check | Job::Drill | Job::Make => !given,
    }
}

fn turns_fit(job: Job, given: bool) -> bool
    ensures { result ≡ turns_fit_of job given }
{
    match job {
        Job::Check | Job::Repair | Job::Run => true,
        Job::Drill | Job::Make => !given,
    }
}

fn target_fits(job: Job, target: &str) -> bool
    ensures { result ≡ target_fits_of job target.now }
{
    match job {
        Job::Drill => number_of(target).is_some(),
        Job::Check | Job::Repair | Job::Run | Job::Make => true,
    }
}

#[tactic(auto, unfolding(crate::specs::Requests::turns_of))]
fn turns_of(text: Option<&str>) -> Option<u32>
    ensures { result ≡ turns_of_text (bytes text.entry) }
{
    let Some(text) = text else {
        return Some(DEFAULT_TURNS);
    };
    match number_of(text) {
        Some(turns) => {
            if turns == 0 {
                return None;
            }
            Some(turns)
        }
        None => None,
    }
}

// Whether the job may have what is given, and lack what isn't.
fn all_fit(request: &Request<'_>, turns: Option<&str>) -> bool
    ensures { result ≡ all_fit_of request.now.job request.now.target.now (bytes request.now.redo)
        (bytes request.now.script) request.now.is_rebuild (bytes turns.entry) }
{
    let job = request.job;
    redo_fits(job, request.redo.is_some())
        && script_fits(job, request.script.is_some())
        && rebuild_fits(job, request.is_rebuild)
        && turns_fit(job, turns.is_some())
        && target_fits(job, request.target)
}

/// The request of a job's word, a target and the options, where they fit the table of jobs.
#[tactic(auto, unfolding(crate::specs::Requests::asked_of))]
pub fn fitting<'a>(
    job: Option<&str>,
    target: Option<&'a str>,
    redo: Option<&'a str>,
    script: Option<&'a str>,
    is_rebuild: bool,
    turns: Option<&str>,
) -> Option<Request<'a>>
    ensures { option_map told result ≡ asked_of (bytes job.entry) (bytes target.entry)
        (bytes redo.entry) (bytes script.entry) is_rebuild (bytes turns.entry) }
{
    let job = job_of(job?)?;
    let target = target?;
    let count = turns_of(turns)?;
    let request = Request {
        job,
        target,
        redo,
        script,
        is_rebuild,
        turns: count,
    };
    if !all_fit(&request, turns) {
        return None;
    }
    Some(request)
}
