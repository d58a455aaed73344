ghost use Rattle.std.specs.Prelude.{◌≡◌};
ghost use Rattle.shadow_rmap.specs.Kept.{is_behind as is_behind_of};

use crate::union;
use rmap_recs::{Key, Memory, RmapKind, RmapRec};
use sblock::RecKind;
use std::alloc::Global;
use std::marker::Model;

/// Who owns which block of a group, as a scan in progress and the changes behind it have told so far:
/// a set of tuples, of which contracts see the maximal runs in the order of reverse mappings, and for
/// how many changes there is room (XFS Online Fsck Design, "Case Study: Rebuilding Reverse Mapping
/// Records").
#[derive(Drop)]
pub struct Shadow {
    group: u32,
    runs: Vec<RmapRec>,
}

impl Model for Shadow {
    ghost use Rattle.shadow_rmap.specs.Kept.{ShadowState};

    ghost Value = { ShadowState };

    ghost use Rattle.shadow_rmap.specs.Inner.{spare, CanEdit};

    ghost view = { λ s. record { group = s.group; runs = s.runs.items; room = spare s.runs } };

    ghost invariant = { λ s. CanEdit s.runs.items };
}

// Whether the record comes behind the key.
fn is_behind(after: &Option<Key>, rec: &RmapRec) -> bool
    ensures { result ≡ is_behind_of after.now rec.now }
{
    match after {
        None => true,
        Some(key) => RmapKind::is_before(key, &RmapKind::key_of(rec)),
    }
}

impl Shadow {
    ghost use Rattle.std.specs.Prelude.{◌≤◌, ◌+◌, List, [], IfOk, OnOk, OnErr};
    ghost use Rattle.rmap_recs.specs.declared.tuples.Tuple.{Tuple};
    ghost use Rattle.run_edits.specs.EditLaws.{AreUntied};
    ghost use Rattle.run_edits.specs.Edits.{HasRoom};
    ghost use Rattle.shadow_rmap.specs.Kept.{KeepsTuples, first_behind, NextRun};
    ghost use Rattle.shadow_rmap.specs.Union.{AreLeft, AreUnion, add_run, remove_run};

    /// An empty shadow of the group of this number.
    pub fn new(alloc: Global, group: u32) -> Result<Self, Memory>
        ensures group { IfOk result (λ s. s.group ≡ group) }
        ensures empty { IfOk result (λ s. KeepsTuples [] s) }
    {
        Ok(Shadow {
            group,
            runs: Vec::new(alloc),
        })
    }

    /// The number of its group.
    pub fn group(&self) -> u32
        ensures { result ≡ self.now.group }
    {
        self.group
    }

    /// The maximal runs of what it keeps, in the order of reverse mappings.
    pub fn runs(&self) -> &[RmapRec]
        ensures { result.now ≡ self.now.runs }
    {
        self.runs.as_slice()
    }

    /// Puts in the tuples of a record; those that are there already stay. It joins the runs that have
    /// some of them, that it goes on from and that go on from it. Without memory all stays.
    pub fn add(&mut self, rec: &RmapRec) -> Result<(), Memory>
        requires { HasRoom rec.now }
        ensures kept { OnOk result ((ts us : List Tuple) → AreUntied us → AreUnion ts us rec.now → KeepsTuples ts self.old → KeepsTuples us self.new) }
        ensures list { OnOk result (self.new.runs ≡ add_run rec.now self.old.runs) }
        ensures group { self.new.group ≡ self.old.group }
        ensures refused { OnErr result (self.new.runs ≡ self.old.runs) }
        ensures room { self.old.room ≤ self.new.room + 1 }
        ensures full { OnErr result (self.old.room ≡ 0) }
    {
        Ok(union::add(&mut self.runs, rec)?)
    }

    /// Takes out those tuples of a record that are there: of the runs that have them, what lies before
    /// and behind stays. Without memory all stays.
    pub fn remove(&mut self, rec: &RmapRec) -> Result<(), Memory>
        requires { HasRoom rec.now }
        ensures kept { OnOk result ((ts us : List Tuple) → AreUntied us → AreLeft ts us rec.now → KeepsTuples ts self.old → KeepsTuples us self.new) }
        ensures list { OnOk result (self.new.runs ≡ remove_run rec.now self.old.runs) }
        ensures group { self.new.group ≡ self.old.group }
        ensures refused { OnErr result (self.new.runs ≡ self.old.runs) }
        ensures room { self.old.room ≤ self.new.room + 1 }
        ensures full { OnErr result (self.old.room ≡ 0) }
    {
        Ok(union::remove(&mut self.runs, rec)?)
    }

    /// The first maximal run behind a key, or the first of all; none where there is none left. So a
    /// walk from key to key meets the maximal runs of the set in order.
    pub fn next_run(&self, after: Option<Key>) -> Option<RmapRec>
        ensures value { result ≡ first_behind after self.now.runs }
        ensures exact { (ts : List Tuple) → KeepsTuples ts self.now → NextRun ts after result }
    {
        let place = self.runs.partition_point(|rec| !is_behind(&after, rec));
        if place < self.runs.len() {
            return Some(self.runs[place]);
        }
        None
    }

    /// Takes room, so that from now on `n` calls of `add` and `remove` can't answer Memory. What was
    /// kept stays.
    pub fn room(&mut self, n: u32) -> Result<(), Memory>
        ensures group { self.new.group ≡ self.old.group }
        ensures runs { self.new.runs ≡ self.old.runs }
        ensures room { OnOk result (n ≤ self.new.room) }
        ensures kept { self.old.room ≤ self.new.room }
        ensures full { OnErr result (self.old.room + 1 ≤ n) }
    {
        if n == 0 {
            return Ok(());
        }
        Ok(self.runs.reserve(n as usize + 1)?)
    }

    /// Takes out all, and keeps the room.
    pub fn clear(&mut self)
        ensures group { self.new.group ≡ self.old.group }
        ensures empty { KeepsTuples [] self.new }
        ensures room { self.old.room ≤ self.new.room }
    {
        self.runs.clear();
    }
}
