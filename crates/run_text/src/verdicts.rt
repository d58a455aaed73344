// The lines of verdicts, with the reasons for which work was given up.
ghost use Rattle.std.specs.Prelude.{◌≡◌, ◌∷◌, ◌++◌, IfOk, string_bytes, codes};
ghost use Rattle.std.specs.Fmt.{decimal};
ghost use Rattle.run_text.specs.Lines.{line_from};
ghost use Rattle.run_text.specs.Names.{unit_name as unit_name_of};
ghost use Rattle.run_text.specs.Report.{claim_text as claim_text_of, evidence_words, reason_words, verdict_words};

use crate::names::{core_fault_name, fork_fault_name, kind_name, unit_name};
use fs_model::{Claim, Evidence, Reason, Unit, Verdict};
use std::alloc::{AllocError, Global};

fn claim_text(alloc: Global, claim: Claim) -> Result<String, AllocError>
    ensures { IfOk result (λ text. string_bytes text ≡ claim_text_of claim) }
{
    match claim {
        Claim::Heads => String::from_str(alloc, "heads"),
        Claim::Log => String::from_str(alloc, "log"),
        Claim::List => String::from_str(alloc, "list"),
        Claim::Tree(kind) => {
            let kind = kind_name(kind);
            format!(in alloc; "tree-{kind}")
        }
        Claim::Reserve => String::from_str(alloc, "reserve"),
        Claim::Limbo => String::from_str(alloc, "limbo"),
        Claim::Chunk => String::from_str(alloc, "chunk"),
        Claim::Data(ino) => format!(in alloc; "data {ino}"),
        Claim::Attr(ino) => format!(in alloc; "attr {ino}"),
        Claim::ForkTree(ino) => format!(in alloc; "forktree {ino}"),
        Claim::Staging => String::from_str(alloc, "staging"),
    }
}

fn overlap_line(
    alloc: Global,
    group: u32,
    unit: &str,
    block: u32,
    first: Claim,
    second: Claim,
) -> Result<String, AllocError>
    ensures { IfOk result (λ text. string_bytes text
        ≡ line_from (decimal group ∷ unit.now ∷ codes "gaveup" ∷ evidence_words (Evidence.Overlap block first second))) }
{
    let first = claim_text(alloc, first)?;
    let second = claim_text(alloc, second)?;
    format!(in alloc; "{group} {unit} gaveup overlap {block} {first} {second}\n")
}

fn evidence_line(
    alloc: Global,
    group: u32,
    unit: &str,
    shown: Evidence,
) -> Result<String, AllocError>
    ensures { IfOk result (λ text. string_bytes text
        ≡ line_from (decimal group ∷ unit.now ∷ codes "gaveup" ∷ evidence_words shown)) }
{
    match shown {
        Evidence::BadFork { ino, fault } => {
            let fault = fork_fault_name(fault);
            format!(in alloc; "{group} {unit} gaveup badfork {ino} {fault}\n")
        }
        Evidence::BadChunk { block, fault } => {
            let fault = core_fault_name(fault);
            format!(in alloc; "{group} {unit} gaveup badchunk {block} {fault}\n")
        }
        Evidence::BadTree { kind, block } => {
            let kind = kind_name(kind);
            format!(in alloc; "{group} {unit} gaveup badtree {kind} {block}\n")
        }
        Evidence::Overlap {
            block,
            first,
            second,
        } => overlap_line(alloc, group, unit, block, first, second),
        Evidence::Later { kind, block } => {
            let kind = kind_name(kind);
            format!(in alloc; "{group} {unit} gaveup later {kind} {block}\n")
        }
    }
}

fn reason_line(alloc: Global, group: u32, unit: &str, reason: Reason) -> Result<String, AllocError>
    ensures { IfOk result (λ text. string_bytes text
        ≡ line_from (decimal group ∷ unit.now ∷ codes "gaveup" ∷ reason_words reason)) }
{
    match reason {
        Reason::Space { reserve, need } => {
            format!(in alloc; "{group} {unit} gaveup space {reserve} {need}\n")
        }
        Reason::Contradiction(shown) => evidence_line(alloc, group, unit, shown),
        Reason::TurnLimit(turns) => format!(in alloc; "{group} {unit} gaveup turns {turns}\n"),
    }
}

/// The line of a unit's verdict.
pub fn verdict_line(
    alloc: Global,
    group: u32,
    unit: Unit,
    verdict: Verdict,
) -> Result<String, AllocError>
    ensures { IfOk result (λ text.
        string_bytes text ≡ line_from (decimal group ∷ unit_name_of unit ∷ verdict_words verdict)) }
{
    let unit = unit_name(unit);
    match verdict {
        Verdict::Good => format!(in alloc; "{group} {unit} good\n"),
        Verdict::Faulty(faults) => format!(in alloc; "{group} {unit} faulty {faults}\n"),
        Verdict::Rebuilt => format!(in alloc; "{group} {unit} rebuilt\n"),
        Verdict::Skipped(of, needed) => {
            let needed = unit_name(needed);
            format!(in alloc; "{group} {unit} skipped {of} {needed}\n")
        }
        Verdict::GaveUp(reason) => reason_line(alloc, group, unit, reason),
    }
}
