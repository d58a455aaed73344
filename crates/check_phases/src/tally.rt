ghost use Rattle.std.specs.Prelude.{◌≡◌};
ghost use Rattle.check_phases.specs.Entries.{passes_as};

use fs_model::{Unit, Verdict};
use inode_pass::GroupInodes;
use quiet_check::{InodesJudged, Judged, add_judged};
use space_check::{Halt, Journal};
use std::alloc::Global;

/// The journal of a check so far, and of each unit in it whether it passed: it was judged, and there
/// was no fault; and what is kept of the inodes of each group whose inodes were judged, group by group
/// (XFS Online Fsck Design, "Metadata Scrubbing").
#[derive(Drop)]
pub struct Tally {
    pub journal: Journal,
    pub passed: Vec<bool>,
    pub inodes: Vec<GroupInodes>,
}

// Whether a unit that was judged so has passed.
fn has_passed(judged: &Judged) -> bool
    ensures { result ≡ passes_as judged.now }
{
    match judged {
        Judged::Faults(faults) => faults.is_empty(),
        Judged::GaveUp(_) => false,
    }
}

impl Tally {
    ghost use Rattle.std.specs.Prelude.{◌≡◌, ◌++◌, ◌∷◌, [], false, OnOk};
    ghost use Rattle.check_phases.specs.Entries.{passes_as};
    ghost use Rattle.quiet_check.specs.Entries.{entries_of};
    ghost use Rattle.fs_model.specs.declared.unit.Unit.TheVariants as units;
    ghost use Rattle.fs_model.specs.declared.verdict.Verdict.TheVariants.{Skipped};
    ghost use Rattle.space_check.specs.Groups.{verdict_entries};
    ghost use Rattle.space_check.specs.Progress.{Adds, Begins};

    /// A check that has judged nothing (XFS Online Fsck Design, "Metadata Scrubbing").
    pub fn new(alloc: Global) -> Self
        ensures journal { result.journal.entries.items ≡ [] }
        ensures passed { result.passed.items ≡ [] }
        ensures inodes { result.inodes.items ≡ [] }
    {
        Tally {
            journal: Journal::new(alloc),
            passed: Vec::new(alloc),
            inodes: Vec::new(alloc),
        }
    }

    /// Lets the next unit begin. A journal with its most entries, or more, refuses that as full
    /// (XFS Online Fsck Design, "Metadata Scrubbing").
    pub fn begin(&self) -> Result<(), Halt>
        ensures { Begins self.now.journal.entries.items result }
    {
        self.journal.begin()
    }

    /// Adds that a unit of group `group` is skipped, since a unit that it needs didn't pass; or nothing
    /// where there is no memory for it (XFS Online Fsck Design, "Metadata Scrubbing").
    pub fn skip(&mut self, group: u32, unit: Unit, needed: (u32, Unit)) -> Result<(), Halt>
        ensures added { Adds self.old.journal.entries.items (verdict_entries group unit (Skipped needed.0 needed.1)) self.new.journal.entries.items result }
        ensures passed { OnOk result (self.new.passed.items ≡ self.old.passed.items ++ false ∷ []) }
        ensures inodes { self.new.inodes ≡ self.old.inodes }
    {
        self.passed.push(false)?;
        self.journal
            .add_verdict(group, unit, Verdict::Skipped(needed.0, needed.1))
    }

    /// Adds what was found of a unit of group `group`: its faults and its verdict, or that it was given
    /// up; or nothing where there is no memory for all of it
    /// (XFS Online Fsck Design, "Metadata Scrubbing").
    pub fn add(
        &mut self,
        alloc: Global,
        group: u32,
        unit: Unit,
        judged: &Judged,
    ) -> Result<(), Halt>
        ensures added { Adds self.old.journal.entries.items (entries_of group unit judged.now) self.new.journal.entries.items result }
        ensures passed { OnOk result (self.new.passed.items ≡ self.old.passed.items ++ passes_as judged.now ∷ []) }
        ensures inodes { self.new.inodes ≡ self.old.inodes }
    {
        // First: where there is no memory for it, the unit has no entries either.
        self.passed.push(has_passed(judged))?;
        add_judged(&mut self.journal, alloc, group, unit, judged)
    }

    /// Adds what was found of the inodes of group `group` as `add` does, and puts what is kept of them
    /// behind that of the groups before (XFS Online Fsck Design, "Metadata Scrubbing").
    pub fn add_inodes(&mut self, alloc: Global, group: u32, found: InodesJudged) -> Result<(), Halt>
        ensures added { Adds self.old.journal.entries.items (entries_of group units.Inode found.judged) self.new.journal.entries.items result }
        ensures passed { OnOk result (self.new.passed.items ≡ self.old.passed.items ++ passes_as found.judged ∷ []) }
        ensures kept { OnOk result (self.new.inodes.items ≡ self.old.inodes.items ++ found.inodes ∷ []) }
    {
        let InodesJudged { judged, inodes } = found;
        self.inodes.push(inodes)?;
        self.add(alloc, group, Unit::Inode, &judged)
    }
}
