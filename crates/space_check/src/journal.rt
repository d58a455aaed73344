ghost use Rattle.std.specs.Prelude.{◌≡◌, ◌<◌, ◌↔◌, IsTrue, IfOk, map};
ghost use Rattle.space_check.specs.Events.{most_entries};
ghost use Rattle.space_check.specs.Groups.{unit_entries, verdict_of as verdict_for};

use crate::halt::Halt;
use fs_model::{Entry, Fault, Unit, Verdict};
use std::alloc::{AllocError, Global};

/// A journal that has so many entries, or more, is full: no unit is judged or skipped any more. The
/// entries of one unit are added all or none, so a journal may end with more
/// (XFS Online Fsck Design, "Metadata Scrubbing").
pub const MAX_ENTRIES: usize = 1_048_576;

// Whether a journal of so many entries takes those of another unit.
#[tactic(auto, unfolding(crate::specs::Events::most_entries))]
fn has_room(entries: usize) -> bool
    ensures { IsTrue result ↔ (entries < most_entries) }
{
    entries < MAX_ENTRIES
}

// The verdict on a unit with so many faults.
fn verdict_of(faults: u64) -> Verdict
    ensures { result ≡ verdict_for faults }
{
    if faults == 0 {
        Verdict::Good
    } else {
        Verdict::Faulty(faults)
    }
}

// The faults of a unit as entries.
fn fault_entries(
    alloc: Global,
    group: u32,
    unit: Unit,
    faults: &[Fault],
) -> Result<Vec<Entry>, AllocError>
    ensures { IfOk result (λ entries. entries.items ≡ map (Entry.Fault group unit) faults.now) }
{
    faults
        .iter()
        .map(|fault| Entry::Fault {
            group,
            unit,
            fault: *fault,
        })
        .collect(alloc)
}

// The faults of a unit as entries, and its verdict.
fn unit_entries_of(
    alloc: Global,
    group: u32,
    unit: Unit,
    faults: &[Fault],
) -> Result<Vec<Entry>, AllocError>
    ensures { IfOk result (λ entries. entries.items ≡ unit_entries group unit faults.now) }
{
    let mut entries = fault_entries(alloc, group, unit, faults)?;
    let verdict = verdict_of(faults.len() as u64);
    entries.push(Entry::Verdict {
        group,
        unit,
        verdict,
    })?;
    Ok(entries)
}

/// The entries of a check so far, in their order
/// (XFS Online Fsck Design, "Metadata Scrubbing").
#[derive(Drop)]
pub struct Journal {
    pub entries: Vec<Entry>,
}

impl Journal {
    ghost use Rattle.std.specs.Prelude.{◌≡◌, []};
    ghost use Rattle.space_check.specs.Groups.{unit_entries, verdict_entries};
    ghost use Rattle.space_check.specs.Progress.{Adds, Begins};

    /// A journal without an entry (XFS Online Fsck Design, "Metadata Scrubbing").
    pub fn new(alloc: Global) -> Self
        ensures { result.entries.items ≡ [] }
    {
        Journal {
            entries: Vec::new(alloc),
        }
    }

    /// Lets the next unit begin. A journal with its most entries, or more, refuses that as full
    /// (XFS Online Fsck Design, "Metadata Scrubbing").
    pub fn begin(&self) -> Result<(), Halt>
        ensures { Begins self.now.entries.items result }
    {
        // Asked where a unit begins, and not in between, so that each verdict counts the faults before it.
        if has_room(self.entries.len()) {
            Ok(())
        } else {
            Err(Halt::Full)
        }
    }

    /// Adds the faults of a unit of group `group` in their order and then its verdict, or nothing
    /// where there is no memory for all of them (XFS Online Fsck Design, "Metadata Scrubbing").
    pub fn add_unit(
        &mut self,
        alloc: Global,
        group: u32,
        unit: Unit,
        faults: &[Fault],
    ) -> Result<(), Halt>
        ensures { Adds self.old.entries.items (unit_entries group unit faults.now) self.new.entries.items result }
    {
        let mut entries = unit_entries_of(alloc, group, unit, faults)?;
        self.entries.append(&mut entries)?;
        Ok(())
    }

    /// Adds this verdict on a unit of group `group` by itself, as one that was skipped or given up has
    /// it, or nothing where there is no memory for it
    /// (XFS Online Fsck Design, "Metadata Scrubbing").
    pub fn add_verdict(&mut self, group: u32, unit: Unit, verdict: Verdict) -> Result<(), Halt>
        ensures { Adds self.old.entries.items (verdict_entries group unit verdict) self.new.entries.items result }
    {
        self.entries.push(Entry::Verdict {
            group,
            unit,
            verdict,
        })?;
        Ok(())
    }
}
