// Passes that add entries, in as many threads as there are.
ghost use Rattle.std.specs.Prelude.{◌≡◌, ◌<◌, ◌≤◌, ◌+◌, IfOk};
ghost use Rattle.std.specs.Thread.{IsSync};
ghost use Rattle.turn_lock.specs.Lists.{Begins, actors_of, from_up};
ghost use Rattle.turn_lock.specs.Passes.{known, Belongs};
ghost use Rattle.turn_lock.specs.declared.recorded.TheConstants.{ACTORS};

use crate::journal::Journal;
use std::alloc::Global;
use std::sync::Wait;
use std::thread::{self, Threads};
use turn_lock::{ACTORS, LockFault, Pass, TurnLock};

// How often a pass is still to be split in two, and how many turns each thread takes.
#[derive(Clone, Copy, Drop)]
pub(crate) struct Work {
    pub(crate) splits: u32,
    pub(crate) turns: u32,
}

impl Work {
    fn of_a_half(self) -> Work {
        Work {
            splits: self.splits.saturating_sub(1),
            turns: self.turns,
        }
    }
}

// A lock round a new journal.
pub(crate) fn opened(alloc: Global) -> Result<(TurnLock<Journal>, Pass<Journal>), LockFault>
    ensures belongs { IfOk result (λ r. Belongs r.1 r.0) }
    ensures speaks { IfOk result (λ r. actors_of (known r.1).kept ≡ from_up 0 ACTORS) }
{
    TurnLock::new(alloc, Journal::new(alloc))
}

// A turn that adds one entry, and says whether there was memory for it.
fn note<W: Wait>(lock: &TurnLock<Journal>, rt: &W, pass: &mut Pass<Journal>, entry: u32) -> bool
    requires { Belongs pass.old lock.now }
    ensures { Belongs pass.new lock.now }
{
    lock.turn(
        rt,
        pass,
        |journal: &mut Journal| -> bool
            ensures { Begins journal.entry.now.entries.items journal.exit.now.entries.items }
        { journal.add(entry) },
    )
}

// So many turns.
fn write<W: Wait>(
    lock: &TurnLock<Journal>,
    rt: &W,
    mut pass: Pass<Journal>,
    turns: u32,
) -> Pass<Journal>
    requires { Belongs pass lock.now }
    ensures { Belongs result lock.now }
{
    for number in 0..turns {
        note(lock, rt, &mut pass, number);
    }
    pass
}

// Two passes of one: the first `lower` of its actors, and the `upper` others.
fn halves(
    lock: &TurnLock<Journal>,
    mut pass: Pass<Journal>,
    first: u32,
    lower: u32,
    upper: u32,
) -> (Pass<Journal>, Pass<Journal>)
    requires belongs { Belongs pass lock.now }
    requires sizes { (0 < lower) × (0 < upper) × ((first + lower) + upper ≤ ACTORS) }
    requires speaks { actors_of (known pass).kept ≡ from_up first (lower + upper) }
    ensures belongs { Belongs result.0 lock.now × Belongs result.1 lock.now }
    ensures lower { actors_of (known result.0).kept ≡ from_up first lower }
    ensures upper { actors_of (known result.1).kept ≡ from_up (first + lower) upper }
{
    let other = lock.split(&mut pass, first + lower);
    (pass, other)
}

// The pass is split so many times over, as far as it has actors, and each thread takes so many
// turns by a pass of its own.
pub(crate) fn write_in_threads<R: Threads + Wait + Sync>(
    lock: &TurnLock<Journal>,
    rt: &R,
    pass: Pass<Journal>,
    first: u32,
    actors: u32,
    work: Work,
) -> Pass<Journal>
    requires sync { IsSync R.row }
    requires belongs { Belongs pass lock.now }
    requires range { (0 < actors) × (first + actors ≤ ACTORS) }
    requires speaks { actors_of (known pass).kept ≡ from_up first actors }
    ensures belongs { Belongs result lock.now }
{
    if actors == 1 {
        return write(lock, rt, pass, work.turns);
    }
    if work.splits == 0 {
        return write(lock, rt, pass, work.turns);
    }
    let half = actors / 2;
    let middle = first + half;
    let rest = actors - half;
    let each = work.of_a_half();
    let (lower, upper) = halves(lock, pass, first, half, rest);
    let (mut lower, upper) = thread::join(
        rt,
        move || -> Pass<Journal>
            requires sync { IsSync R.row }
            requires belongs { Belongs lower lock.now }
            requires range { (0 < half) × (first + half ≤ ACTORS) }
            requires speaks { actors_of (known lower).kept ≡ from_up first half }
            ensures { Belongs result lock.entry.now }
        { write_in_threads(lock, rt, lower, first, half, each) },
        move || -> Pass<Journal>
            requires sync { IsSync R.row }
            requires belongs { Belongs upper lock.now }
            requires range { (0 < rest) × (middle + rest ≤ ACTORS) }
            requires speaks { actors_of (known upper).kept ≡ from_up middle rest }
            ensures { Belongs result lock.entry.now }
        { write_in_threads(lock, rt, upper, middle, rest, each) },
    );
    lock.join(&mut lower, upper);
    lower
}
