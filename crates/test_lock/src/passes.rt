// Passes that write notes, one after the other and in threads.
ghost use Rattle.std.specs.Prelude.{ℕ, ◌≡◌, ◌<◌, ◌≤◌, ◌+◌, slice_index, length, IfOk};
ghost use Rattle.std.specs.Thread.{IsSync};
ghost use Rattle.turn_lock.specs.Lists.{Begins, Has, actors_of, from_up};
ghost use Rattle.turn_lock.specs.Passes.{known, Belongs};
ghost use Rattle.turn_lock.specs.declared.recorded.TheConstants.{ACTORS};

use crate::notes::Notes;
use std::alloc::Global;
use std::sync::Wait;
use std::thread::{self, Threads};
use turn_lock::{ACTORS, LockFault, Pass, TurnLock};

/// A lock round a new journal.
pub fn opened(alloc: Global, ticket: u64) -> Result<(TurnLock<Notes>, Pass<Notes>), LockFault>
    ensures belongs { IfOk result (λ r. Belongs r.1 r.0) }
    ensures speaks { IfOk result (λ r. actors_of (known r.1).kept ≡ from_up 0 ACTORS) }
{
    TurnLock::from_ticket(alloc, Notes::new(alloc, 7), ticket)
}

// A turn that writes one note, and says whether there was memory for it.
fn note<W: Wait>(
    lock: &TurnLock<Notes>,
    rt: &W,
    pass: &mut Pass<Notes>,
    actor: u32,
    number: u32,
) -> bool
    requires belongs { Belongs pass.old lock.now }
    requires actor { actor < ACTORS }
    requires speaks { (k : ℕ) × Has (known pass.old).kept actor k }
    ensures belongs { Belongs pass.new lock.now }
    ensures actors { actors_of (known pass.new).kept ≡ actors_of (known pass.old).kept }
{
    lock.turn(
        rt,
        pass,
        |notes: &mut Notes| -> bool
            requires { actor < ACTORS }
            ensures journal { Begins notes.entry.now.entries.items notes.exit.now.entries.items }
            ensures others { (a : ℕ) → (a ≡ actor → ⊥) → slice_index notes.exit.now.counts a ≡ slice_index notes.entry.now.counts a }
            ensures name { notes.exit.now.name ≡ notes.entry.now.name }
        { notes.add(actor, number) },
    )
}

/// A turn that adds no entry. The answer is how many there are.
pub fn count<W: Wait>(lock: &TurnLock<Notes>, rt: &W, pass: &mut Pass<Notes>) -> u64
    requires belongs { Belongs pass.old lock.now }
    ensures belongs { Belongs pass.new lock.now }
    ensures none { (known pass.new).own ≡ (known pass.old).own }
    ensures seen { length (known pass.new).seen ≡ result }
{
    lock.turn(
        rt,
        pass,
        |notes: &mut Notes| -> u64
            ensures same { notes.exit.now ≡ notes.entry.now }
            ensures count { result ≡ length notes.entry.now.entries.items }
        { notes.entries.len() as u64 },
    )
}

/// The notes of one actor, a turn for each, by a pass that speaks for `actors` actors from `first` up.
pub fn write<W: Wait>(
    lock: &TurnLock<Notes>,
    rt: &W,
    mut pass: Pass<Notes>,
    first: u32,
    actor: u32,
    notes: u32,
) -> Pass<Notes>
    requires belongs { Belongs pass lock.now }
    requires actor { (first ≤ actor) × (actor < ACTORS) }
    requires speaks { (n : ℕ) × (actor < first + n) × (actors_of (known pass).kept ≡ from_up first n) }
    ensures belongs { Belongs result lock.now }
    ensures speaks { actors_of (known result).kept ≡ actors_of (known pass).kept }
{
    for number in 0..notes {
        note(lock, rt, &mut pass, actor, number);
    }
    pass
}

/// Two passes of one: the first `lower` of its actors, and the `upper` others.
pub fn halves(
    lock: &TurnLock<Notes>,
    mut pass: Pass<Notes>,
    first: u32,
    lower: u32,
    upper: u32,
) -> (Pass<Notes>, Pass<Notes>)
    requires belongs { Belongs pass lock.now }
    requires sizes { (0 < lower) × (0 < upper) × ((first + lower) + upper ≤ ACTORS) }
    requires speaks { actors_of (known pass).kept ≡ from_up first (lower + upper) }
    ensures belongs { Belongs result.0 lock.now × Belongs result.1 lock.now }
    ensures lower { actors_of (known result.0).kept ≡ from_up first lower }
    ensures upper { actors_of (known result.1).kept ≡ from_up (first + lower) upper }
{
    let other = lock.split(&mut pass, first + lower);
    (pass, other)
}

/// Each of the actors from `first` up writes its notes in a thread of its own, with a pass of its own.
pub fn write_in_threads<R: Threads + Wait + Sync>(
    lock: &TurnLock<Notes>,
    rt: &R,
    pass: Pass<Notes>,
    first: u32,
    actors: u32,
    notes: u32,
) -> Pass<Notes>
    requires sync { IsSync R.row }
    requires belongs { Belongs pass lock.now }
    requires range { (0 < actors) × (first + actors ≤ ACTORS) }
    requires speaks { actors_of (known pass).kept ≡ from_up first actors }
    ensures belongs { Belongs result lock.now }
{
    if actors == 1 {
        return write(lock, rt, pass, first, first, notes);
    }
    let half = actors / 2;
    let middle = first + half;
    let rest = actors - half;
    let (lower, upper) = halves(lock, pass, first, half, rest);
    let (mut lower, upper) = thread::join(
        rt,
        move || -> Pass<Notes>
            requires sync { IsSync R.row }
            requires belongs { Belongs lower lock.now }
            requires range { (0 < half) × (first + half ≤ ACTORS) }
            requires speaks { actors_of (known lower).kept ≡ from_up first half }
            ensures { Belongs result lock.entry.now }
        { write_in_threads(lock, rt, lower, first, half, notes) },
        move || -> Pass<Notes>
            requires sync { IsSync R.row }
            requires belongs { Belongs upper lock.now }
            requires range { (0 < rest) × (middle + rest ≤ ACTORS) }
            requires speaks { actors_of (known upper).kept ≡ from_up middle rest }
            ensures { Belongs result lock.entry.now }
        { write_in_threads(lock, rt, upper, middle, rest, notes) },
    );
    lock.join(&mut lower, upper);
    lower
}
