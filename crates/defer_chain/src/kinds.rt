ghost use Rattle.std.specs.Prelude.{◌≡◌, ◌*◌, ◌<◌, ◌≤◌, ◌^◌, ◌==◌, if◌then◌else◌};
ghost use Rattle.defer_chain.specs.Falls.{DueFalls};
ghost use Rattle.defer_chain.specs.Steps.{amount_of, counted_in, deltas_of as deltas_are, entries_of as entries_are, step_of, steps_of as steps_are};

use fs_state::{Intent, IntentKind};

/// Which kind of step an intent needs: one of reverse mappings, one of reference counts, or one that
/// frees (XFS Online Fsck Design, "Eventual Consistency").
#[derive(Clone, Copy, Debug, PartialEq, Eq)]
pub enum StepKind {
    Rmap,
    Ref,
    Free,
}

/// Which step an intent needs.
pub fn step_kind(kind: IntentKind) -> StepKind
    ensures { result ≡ step_of kind }
{
    match kind {
        IntentKind::RmapAdd | IntentKind::RmapRemove | IntentKind::RmapChange => StepKind::Rmap,
        IntentKind::RefMore | IntentKind::RefLess => StepKind::Ref,
        IntentKind::Free => StepKind::Free,
    }
}

/// How many entries of the journal the steps of an intent add at most: one and a mark for reverse
/// mappings; one and two marks for each block whose count changes, and as many where it is freed;
/// one and two marks for a run that is freed.
pub fn entries_of(intent: &Intent) -> u64
    ensures value { result ≡ entries_are intent.now }
    ensures most { result < 2 ^ 35 }
{
    match intent.kind {
        IntentKind::RmapAdd | IntentKind::RmapRemove | IntentKind::RmapChange => 2,
        IntentKind::RefMore => 3 * u64::from(intent.count),
        IntentKind::RefLess => 6 * u64::from(intent.count),
        IntentKind::Free => 3,
    }
}

/// How many steps an intent needs at most: one for each block whose count changes, and one more
/// where it may be freed; one for any other.
pub fn steps_of(intent: &Intent) -> u64
    ensures value { result ≡ steps_are intent.now }
    ensures most { result < 2 ^ 34 }
{
    match intent.kind {
        IntentKind::RefMore => u64::from(intent.count),
        IntentKind::RefLess => 2 * u64::from(intent.count),
        _ => 1,
    }
}

/// How many differences of owners a listener hears of an intent: a conversion takes and gives.
pub fn deltas_of(kind: IntentKind) -> u64
    ensures value { result ≡ deltas_are kind }
    ensures most { result < 3 }
{
    match kind {
        IntentKind::RmapAdd | IntentKind::RmapRemove => 1,
        IntentKind::RmapChange => 2,
        _ => 0,
    }
}

/// What room is taken for before a chain's steps are made: entries of the journal, blocks of a
/// group's limbo, or differences of owners that a listener hears.
#[derive(Clone, Copy, Debug, PartialEq, Eq)]
pub enum Due {
    Entries,
    Blocks(u32),
    Deltas,
}

/// So many blocks one step frees at most: as many as a batch writes.
pub const BLOCKS_A_STEP: u64 = 160;

/// What the steps of an intent may use at most; of blocks, those of one group.
pub fn amount(what: Due, intent: &Intent) -> u64
    ensures value { result ≡ amount_of what intent.now }
    ensures most { result < 2 ^ 42 }
{
    match what {
        Due::Entries => entries_of(intent),
        Due::Blocks(group) if intent.group == group => BLOCKS_A_STEP * steps_of(intent),
        Due::Blocks(_) => 0,
        Due::Deltas => deltas_of(intent.kind),
    }
}

/// 1 for an intent of this group, 0 for any other.
pub fn counted(intent: &Intent, group: u32) -> u32
    ensures value { result ≡ counted_in group intent.now }
    ensures most { result ≤ 1 }
{
    if intent.group == group { 1 } else { 0 }
}

/// A law: each step lowers what is due to a chain by what the step may use.
pub fn due_falls()
    ensures { DueFalls }
{}
