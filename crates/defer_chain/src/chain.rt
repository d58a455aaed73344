ghost use Rattle.std.specs.Prelude.{◌≡◌, ◌<◌, ◌≤◌, ◌+◌, ◌==◌, ◌++◌, true, length, get_or, Some, None, if◌then◌else◌};
ghost use Rattle.std.specs.List.{slice_get};
ghost use Rattle.defer_chain.specs.Steps.{are_owed, freed as freed_is, has_run, left_if, left_of as left_is, no_intent, steps_in};

use crate::kinds::{Due, StepKind, amount, counted, step_kind};
use fs_state::{Intent, IntentKind};

/// So many intents a first event puts at most.
pub const MOST_PUT: usize = 5;

// Stands in places that aren't in use.
const NO_INTENT: Intent = Intent {
    kind: IntentKind::RmapAdd,
    ino: 0,
    word: 0,
    group: 0,
    block: 0,
    count: 1,
};

/// An inode that a chain holds, with its owner, whom a step tells to listeners.
#[derive(Clone, Copy, Debug, PartialEq, Eq)]
pub struct ChainInode {
    pub ino: u64,
    pub uid: u32,
}

/// A chain of a writer: the inodes that it holds, and what it still owes. A run that is to be freed
/// stands in front; behind it come the intents of reverse mappings, then those of reference counts,
/// each with a run that isn't empty and has an end
/// (XFS Online Fsck Design, "Eventual Consistency").
#[derive(Clone, Copy, Debug, PartialEq, Eq)]
pub struct Chain {
    writer: u32,
    first: ChainInode,
    second: Option<ChainInode>,
    free: Option<Intent>,
    steps: [Intent; 5],
    done: usize,
    end: usize,
    ghost long: { length steps ≡ 5 },
    ghost fits: { are_owed free steps done end ≡ true },
}

// Steps that aren't done: those of an array from a place on.
#[derive(Clone, Copy, Debug, PartialEq, Eq)]
struct Steps {
    steps: [Intent; 5],
    done: usize,
    ghost long: { length steps ≡ 5 },
}

// The first of the steps.
#[tactic(auto, using(crate::proofs::StepLemmas::first_step, crate::proofs::StepLemmas::no_step))]
fn first_step(steps: &[Intent; 5], done: usize, end: usize) -> Option<Intent>
    requires { end ≤ 5 }
    ensures { result ≡ slice_get (steps_in steps.now done end) 0 }
{
    if done < end {
        return Some(steps[done]);
    }
    None
}

// The steps without the first blocks of the first one.
#[tactic(auto, using(crate::proofs::StepLemmas::step_set))]
fn steps_left(steps: &[Intent; 5], done: usize, end: usize, count: u32) -> Steps
    requires first { done < end }
    requires inside { end ≤ 5 }
    requires run { has_run (get_or steps.now done no_intent) ≡ true }
    requires count { count ≤ (get_or steps.now done no_intent).count }
    ensures left { steps_in result.steps result.done end ≡ left_if (count == (get_or steps.now done no_intent).count) count (get_or steps.now done no_intent) ++ steps_in steps.now (done + 1) end }
    ensures order { result.done ≤ end }
{
    let first = steps[done];
    if count == first.count {
        return Steps {
            steps: *steps,
            done: done + 1,
        };
    }
    let mut left = *steps;
    left[done] = left_of(&first, count);
    Steps { steps: left, done }
}

// The intents of a first event, as steps from the first place on.
#[tactic(auto, using(crate::proofs::StepLemmas::take_whole, crate::proofs::StepLemmas::steps_are))]
fn steps_of_event(intents: &[Intent]) -> [Intent; 5]
    requires { length intents.now ≤ 5 }
    ensures { steps_in result 0 (length intents.now) ≡ intents.now }
{
    let mut steps = [NO_INTENT; MOST_PUT];
    for (place, intent) in intents.iter().enumerate() {
        steps[place] = *intent;
    }
    steps
}

// What is left of an intent without its first blocks.
fn left_of(intent: &Intent, count: u32) -> Intent
    requires some { has_run intent.now ≡ true }
    requires inside { count < intent.now.count }
    ensures { result ≡ left_is count intent.now }
{
    Intent {
        block: intent.block + count,
        count: intent.count - count,
        ..*intent
    }
}

// The first blocks of an intent, which are to be freed.
fn freed(intent: &Intent, count: u32) -> Intent
    ensures { result ≡ freed_is count intent.now }
{
    Intent {
        kind: IntentKind::Free,
        ino: 0,
        word: 0,
        group: intent.group,
        block: intent.block,
        count,
    }
}

// The same, where they are to be freed.
fn freed_if(frees: bool, intent: &Intent, count: u32) -> Option<Intent>
    ensures { result ≡ (if frees then Some (freed_is count intent.now) else None) }
{
    if frees {
        return Some(freed(intent, count));
    }
    None
}

impl Chain {
    ghost use Rattle.std.specs.Prelude.{[], ◌<◌, ◌≤◌, ◌+◌, ◌==◌, Bool, false, length, drop, option_copied, option_map, if◌then◌else◌};
    ghost use Rattle.std.specs.List.{slice_get};
    ghost use Rattle.defer_chain.specs.Owed.{owed, ChangesOwed};
    ghost use Rattle.defer_chain.specs.Steps.{count_of_first, due_of, owed_to, first_is, in_order, is_free, is_less, is_ref, is_rmap, owed_in, step_of, stretched};

    /// A chain of this writer that holds these inodes and owes nothing.
    #[tactic(auto, unfolding(crate::specs::Steps::steps_in, crate::specs::Steps::in_order))]
    pub fn new(writer: u32, first: ChainInode, second: Option<ChainInode>) -> Chain
        ensures owed { owed result ≡ [] }
        ensures writer { result.writer ≡ writer }
        ensures first { result.first ≡ first }
        ensures second { result.second ≡ second }
    {
        Chain {
            writer,
            first,
            second,
            free: None,
            steps: [NO_INTENT; MOST_PUT],
            done: 0,
            end: 0,
        }
    }

    /// The writer.
    pub fn writer(&self) -> u32
        ensures { result ≡ self.now.writer }
    {
        self.writer
    }

    /// The first inode that it holds.
    pub fn first(&self) -> ChainInode
        ensures { result ≡ self.now.first }
    {
        self.first
    }

    /// The second, where it holds two.
    pub fn second(&self) -> Option<ChainInode>
        ensures { result ≡ self.now.second }
    {
        self.second
    }

    /// The first intent, which the next step is about; none where nothing is owed.
    #[tactic(auto, using(crate::proofs::ChainLemmas::next_is))]
    pub fn next(&self) -> Option<Intent>
        ensures { result ≡ slice_get (owed self.now) 0 }
    {
        self.free.or(first_step(&self.steps, self.done, self.end))
    }

    /// Which kind of step is next.
    pub fn next_kind(&self) -> Option<StepKind>
        ensures { result ≡ option_map (λ i. step_of i.kind) (slice_get (owed self.now) 0) }
    {
        let intent = self.next()?;
        Some(step_kind(intent.kind))
    }

    /// The group of the first intent.
    pub fn next_group(&self) -> Option<u32>
        ensures { result ≡ option_map (λ i. i.group) (slice_get (owed self.now) 0) }
    {
        let intent = self.next()?;
        Some(intent.group)
    }

    /// How many of its intents are of this group.
    #[tactic(auto, unfolding(crate::specs::Steps::owed_to, crate::specs::Steps::steps_in))]
    pub fn owes(&self, group: u32) -> u32
        ensures value { result ≡ owed_to group (owed self.now) }
        ensures few { result ≤ 6 }
    {
        let mut owes = match self.free {
            Some(run) => counted(&run, group),
            None => 0,
        };
        for intent in &self.steps[self.done..self.end] {
            owes += counted(intent, group);
        }
        owes
    }

    /// What its steps may still use at most, all together.
    #[tactic(auto, unfolding(crate::specs::Steps::due_of, crate::specs::Steps::steps_in))]
    pub fn due(&self, what: Due) -> u64
        ensures { result ≡ due_of what (owed self.now) }
    {
        let mut due = match self.free {
            Some(run) => amount(what, &run),
            None => 0,
        };
        for intent in &self.steps[self.done..self.end] {
            due += amount(what, intent);
        }
        due
    }

    // The chain with other intents.
    fn change(&mut self, free: Option<Intent>, steps: &Steps, end: usize)
        requires { are_owed free steps.now.steps steps.now.done end ≡ true }
        ensures { ChangesOwed self.old self.new (owed_in free steps.now.steps steps.now.done end) }
    {
        *self = Chain {
            writer: self.writer,
            first: self.first,
            second: self.second,
            free,
            steps: steps.steps,
            done: steps.done,
            end,
        };
    }

    /// Puts the intents of a first event: those of reverse mappings before those of reference
    /// counts.
    pub fn put(&mut self, intents: &[Intent])
        requires none { owed self.old ≡ [] }
        requires few { length intents.now ≤ MOST_PUT }
        requires order { in_order intents.now ≡ true }
        ensures { ChangesOwed self.old self.new intents.now }
    {
        let steps = Steps {
            steps: steps_of_event(intents),
            done: 0,
        };
        self.change(None, &steps, intents.len());
    }

    /// A step of reverse mappings is done, or left: the first intent leaves.
    pub fn finish_rmap(&mut self)
        requires { first_is is_rmap (owed self.old) ≡ true }
        ensures { ChangesOwed self.old self.new (drop 1 (owed self.old)) }
    {
        let steps = Steps {
            steps: self.steps,
            done: self.done + 1,
        };
        self.change(None, &steps, self.end);
    }

    /// A step of reference counts is done, or left: the first `count` blocks leave the first intent,
    /// and with `frees`, which is of a falling count alone, a run of these to be freed stands in
    /// front of the rest.
    pub fn finish_stretch(&mut self, count: u32, frees: bool)
        requires kind { first_is is_ref (owed self.old) ≡ true }
        requires some { 0 < count }
        requires inside { count ≤ count_of_first (owed self.old) }
        requires falls { frees ≡ true → first_is is_less (owed self.old) ≡ true }
        ensures { ChangesOwed self.old self.new (stretched count frees (owed self.old)) }
    {
        let first = self.steps[self.done];
        let steps = steps_left(&self.steps, self.done, self.end, count);
        let free = freed_if(frees, &first, count);
        self.change(free, &steps, self.end);
    }

    /// A run was freed, or is kept: it leaves.
    pub fn finish_free(&mut self)
        requires { first_is is_free (owed self.old) ≡ true }
        ensures { ChangesOwed self.old self.new (drop 1 (owed self.old)) }
    {
        let steps = Steps {
            steps: self.steps,
            done: self.done,
        };
        self.change(None, &steps, self.end);
    }
}
