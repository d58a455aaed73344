ghost use Rattle.std.specs.Prelude.{◌≡◌, ◌≢◌, IfOk, None, false, map, option_map, string_bytes};
ghost use Rattle.clap.specs.Words.{app_of, found_of, rows_of, rule_of};
ghost use Rattle.command_line.specs.Requests.{IsParse, asked_by, asked_in, is_text, positional as positional_of, option as option_of, flag as flag_of, told, xscrub_app};

use crate::request::{Request, fitting};
use clap::error::ErrorKind;
use clap::{Arg, ArgAction, ArgMatches, Command};
use std::alloc::{AllocError, Global};

// An argument that stands by its place, and is wanted.
fn positional<'a>(alloc: Global, id: &'a str) -> Arg<'a>
    ensures rule { rule_of result ≡ positional_of id.now }
    ensures local { result.global ≡ false }
{
    Arg::new(alloc, id).required(true)
}

// An argument that goes by its own name, with a value.
fn option<'a>(alloc: Global, id: &'a str) -> Arg<'a>
    ensures rule { rule_of result ≡ option_of id.now }
    ensures local { result.global ≡ false }
{
    Arg::new(alloc, id).long(id)
}

// An argument that goes by its own name, and is there or isn't.
fn flag<'a>(alloc: Global, id: &'a str) -> Arg<'a>
    ensures rule { rule_of result ≡ flag_of id.now }
    ensures local { result.global ≡ false }
{
    option(alloc, id).action(ArgAction::SetTrue)
}

// The command: a job and a target, three options and a flag.
fn command<'a>(alloc: Global) -> Result<Command<'a>, AllocError>
    ensures { IfOk result (λ command. app_of command ≡ xscrub_app) }
{
    Command::new(alloc, "xscrub")
        .no_binary_name(true)
        .arg(positional(alloc, "job"))?
        .arg(positional(alloc, "target"))?
        .arg(option(alloc, "redo"))?
        .arg(option(alloc, "script"))?
        .arg(option(alloc, "turns"))?
        .arg(flag(alloc, "rebuild"))
}

// The answer to a refusal of the command, by its kind: want of memory, or that it refuses the words.
fn refusal_of<'a>(kind: ErrorKind) -> Result<Option<ArgMatches<'a>>, AllocError>
    ensures { IfOk result (λ found. (found ≡ None) × (kind ≢ ErrorKind.OutOfMemory)) }
{
    if kind == ErrorKind::OutOfMemory {
        return Err(AllocError);
    }
    Ok(None)
}

// What the command finds in the words, or nothing where it refuses them.
fn matches_for<'a>(alloc: Global, words: &'a [String]) -> Result<Option<ArgMatches<'a>>, AllocError>
    ensures { IfOk result (IsParse (map string_bytes words.now)) }
{
    match command(alloc)?.try_get_matches_from(words) {
        Ok(matches) => Ok(Some(matches)),
        Err(fault) => refusal_of(fault.kind()),
    }
}

fn is_word(found: Option<&str>, wanted: &str) -> bool
    ensures { result ≡ is_text (option_map (λ s. s.now) found.entry) wanted.now }
{
    match found {
        Some(text) => text == wanted,
        None => false,
    }
}

// What the matches ask for, where the job may have it.
fn request_in<'a>(matches: &ArgMatches<'a>) -> Option<Request<'a>>
    ensures { option_map told result ≡ asked_in (rows_of (found_of matches.now)) }
{
    fitting(
        matches.get_str("job"),
        matches.get_str("target"),
        matches.get_str("redo"),
        matches.get_str("script"),
        is_word(matches.get_str("rebuild"), "true"),
        matches.get_str("turns"),
    )
}

/// What the words ask for, without the program's name: nothing where the command refuses them (help
/// among it) or where the job may not have what is given. Want of memory is the one refusal.
pub fn parse<'a>(alloc: Global, words: &'a [String]) -> Result<Option<Request<'a>>, AllocError>
    ensures { IfOk result (λ found. option_map told found ≡ asked_by (map string_bytes words.now)) }
{
    match matches_for(alloc, words)? {
        Some(matches) => Ok(request_in(&matches)),
        None => Ok(None),
    }
}
