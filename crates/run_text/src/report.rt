ghost use Rattle.std.specs.Prelude.{◌≡◌, ◌∷◌, IfOk, string_bytes, codes};
ghost use Rattle.std.specs.Fmt.{decimal};
ghost use Rattle.run_text.specs.Lines.{line_from};
ghost use Rattle.run_text.specs.Names.{kind_name as kind_name_of};
ghost use Rattle.run_text.specs.Report.{cause_words, fault_words, line_of};

use crate::names::{block_fault_name, counter_name, kind_name, unit_name};
use crate::records::record_line;
use crate::verdicts::verdict_line;
use fs_model::{Cause, Entry, Fault, Unit};
use sblock::Kind;
use std::alloc::{AllocError, Global};

fn fault_line(alloc: Global, group: u32, unit: Unit, fault: Fault) -> Result<String, AllocError>
    ensures { IfOk result (λ text.
        string_bytes text ≡ line_from (decimal group ∷ fault_words unit fault)) }
{
    match fault {
        Fault::Block { kind, block, fault } => {
            let kind = kind_name(kind);
            let fault = block_fault_name(fault);
            format!(in alloc; "{group} {kind} block {block} {fault}\n")
        }
        Fault::Missing(rec) => record_line(alloc, group, "missing", &rec),
        Fault::Extra(rec) => record_line(alloc, group, "extra", &rec),
        Fault::Counter {
            name,
            found,
            wanted,
        } => {
            let unit = unit_name(unit);
            let name = counter_name(name);
            format!(in alloc; "{group} {unit} counter {name} {found} {wanted}\n")
        }
    }
}

fn marked_line(alloc: Global, group: u32, kind: Kind, cause: Cause) -> Result<String, AllocError>
    ensures { IfOk result (λ text. string_bytes text
        ≡ line_from (decimal group ∷ kind_name_of kind ∷ codes "marked" ∷ cause_words cause)) }
{
    let kind = kind_name(kind);
    match cause {
        Cause::Block { block, fault } => {
            let fault = block_fault_name(fault);
            format!(in alloc; "{group} {kind} marked block {block} {fault}\n")
        }
        Cause::Missing => format!(in alloc; "{group} {kind} marked missing\n"),
        Cause::Overlap => format!(in alloc; "{group} {kind} marked overlap\n"),
        Cause::Owner => format!(in alloc; "{group} {kind} marked owner\n"),
        Cause::Short { have, need } => {
            format!(in alloc; "{group} {kind} marked short {have} {need}\n")
        }
        Cause::Large(blocks) => format!(in alloc; "{group} {kind} marked large {blocks}\n"),
    }
}

/// The line of an entry, with its line feed: `0 bno missing 32 224`, `0 free faulty 2`. Blocks
/// are group-relative, numbers decimal, masks of inodes sixteen hexadecimal digits. Faults, marks
/// and verdicts have a line; the text of every other entry is empty. No memory is the one refusal.
#[tactic(auto, unfolding(crate::specs::Report::line_of))]
pub fn line(alloc: Global, entry: &Entry) -> Result<String, AllocError>
    ensures { IfOk result (λ text. string_bytes text ≡ line_of entry.now) }
{
    match *entry {
        Entry::Fault { group, unit, fault } => fault_line(alloc, group, unit, fault),
        Entry::Marked { group, kind, cause } => marked_line(alloc, group, kind, cause),
        Entry::Verdict {
            group,
            unit,
            verdict,
        } => verdict_line(alloc, group, unit, verdict),
        _ => Ok(String::new(alloc)),
    }
}
