// The calls of the lock.
ghost use Rattle.std.specs.Prelude.{ℕ, ◌≡◌, ◌<◌, ◌++◌, ◌∷◌, [], length, IfOk, IsOk, Some};
ghost use Rattle.std.specs.Fn.{FnOnceReturnsAtMut, FnOnceTakesAtMut};
ghost use Rattle.turn_lock.specs.declared.recorded.TheConstants.{ACTORS};
ghost use Rattle.turn_lock.specs.Lists.{Begins, Apart, below, above};
ghost use Rattle.turn_lock.specs.Passes.{known, first_ticket, Belongs};
ghost use Rattle.turn_lock.specs.Views.{CanTake, GivesBack, KeepsRecord, TookTurn, first_view, joined};
ghost use Rattle.turn_lock.specs.Views.{kept_below, kept_from, own_entries};

use crate::lock::{LockFault, TurnLock};
use crate::pass::Pass;
use crate::recorded::Recorded;
use crate::rule::{HOME, SERVING, Start, TICKETS};
use crate::step::{cut, draw, give, publish, serve, take, unite, wait};
use atomic_table::Table;
use std::alloc::{AllocError, Global};
use std::marker::Brand;
use std::snapshot::Snapshot;
use std::sync::Wait;

// The slot in which the value lies.
fn home_of<T: Drop>(alloc: Global, value: T) -> Result<Vec<Option<T>>, AllocError>
    ensures { IfOk result (λ v. v.items ≡ Some value ∷ []) }
{
    let mut slots = Vec::new(alloc);
    slots.push(Some(value))?;
    Ok(slots)
}

// The one call of a turn's function.
fn call<T, A, F: FnOnce(&mut T) -> A>(f: F, value: &mut T) -> A
    requires { FnOnceTakesAtMut F.FnOnce f value.old }
    ensures { FnOnceReturnsAtMut F.FnOnce f value.old result value.new }
{
    f(value)
}

impl<T: Recorded> TurnLock<T> {
    /// A lock round the value, with the pass that speaks for all actors, has seen the whole journal
    /// and owns no entry of it.
    pub fn new(alloc: Global, value: T) -> Result<(TurnLock<T>, Pass<T>), LockFault>
    where
        T: Drop,
        ensures belongs { IfOk result (λ r. Belongs r.1 r.0) }
        ensures pass { IfOk result (λ r. known r.1 ≡ first_view T.journal T.origin T.kept value) }
        ensures ticket { IfOk result (λ r. first_ticket r.0 ≡ 0) }
    {
        TurnLock::from_ticket(alloc, value, 0)
    }

    /// The same, and the first ticket has this number. After 2^64 - 1 comes 0.
    pub fn from_ticket(
        alloc: Global,
        value: T,
        ticket: u64,
    ) -> Result<(TurnLock<T>, Pass<T>), LockFault>
    where
        T: Drop,
        ensures belongs { IfOk result (λ r. Belongs r.1 r.0) }
        ensures pass { IfOk result (λ r. known r.1 ≡ first_view T.journal T.origin T.kept value) }
        ensures ticket { IfOk result (λ r. first_ticket r.0 ≡ ticket) }
    {
        let words = [ticket, ticket, value.entries()];
        let about = Start {
            value: Snapshot::of(&value),
            ticket: Snapshot::of(&ticket),
        };
        let slots = home_of(alloc, value)?;
        let (table, seat) = Table::new(alloc, &words, slots, &about)?;
        Ok((TurnLock { table }, Pass { seat }))
    }

    /// Waits for its turn, calls the function once on the value, and answers what it answered.
    /// The function may append to the journal, and changes what is kept for the pass's actors alone.
    pub fn turn<R, F: FnOnce(&mut T) -> R, W: Wait>(&self, rt: &W, pass: &mut Pass<T>, f: F) -> R
        requires belongs { Belongs pass.old self.now }
        requires safe { CanTake T.journal T.origin T.kept (FnOnceTakesAtMut F.FnOnce f) (known pass.old) }
        requires lawful { KeepsRecord T.journal T.origin T.kept (FnOnceReturnsAtMut F.FnOnce f) (known pass.old) }
        ensures belongs { Belongs pass.new self.now }
        ensures turned { TookTurn T.journal T.origin T.kept
            (λ x y. FnOnceReturnsAtMut F.FnOnce f x result y) (known pass.old) (known pass.new) }
    {
        let shared = &self.table.shared;
        let seat = &mut pass.seat;
        let ticket = draw(shared, seat);
        wait(shared, rt, seat, ticket);
        let mut value = take(shared, seat);
        let answer = call(f, &mut value);
        let entries = value.entries();
        // Before the value goes back, so that what a pass has seen changes at steps on words alone.
        publish::<T, Brand>(shared, seat, &value, entries);
        give(shared, seat, value);
        serve(shared, seat, ticket);
        answer
    }

    /// The new pass speaks for the actors from `from` up; each of the two keeps at least one.
    /// It has seen what the other has seen, and owns no entry yet.
    pub fn split(&self, pass: &mut Pass<T>, from: u32) -> Pass<T>
        requires belongs { Belongs pass.old self.now }
        requires lower { 0 < length (below from (known pass.old).kept) }
        requires upper { 0 < length (above from (known pass.old).kept) }
        ensures belongs { Belongs pass.new self.now × Belongs result self.now }
        ensures stays { known pass.new ≡ kept_below from (known pass.old) }
        ensures goes { known result ≡ kept_from from (known pass.old) }
    {
        let seat = cut::<T, Brand>(&self.table.shared, &mut pass.seat, from);
        Pass { seat }
    }

    /// The pass has then seen the longer of the two prefixes, owns the entries of both, of which
    /// none is the same, and speaks for the actors of both.
    pub fn join(&self, pass: &mut Pass<T>, ended: Pass<T>)
        requires belongs { Belongs pass.old self.now × Belongs ended self.now }
        ensures belongs { Belongs pass.new self.now }
        ensures both { known pass.new ≡ joined (known pass.old) (known ended) }
        ensures this { Begins (known pass.old).seen (known pass.new).seen }
        ensures that { Begins (known ended).seen (known pass.new).seen }
        ensures apart { Apart (known pass.old).own (known ended).own }
        ensures entries { own_entries (known pass.new) ≡ own_entries (known pass.old) ++ own_entries (known ended) }
    {
        let Pass { seat } = ended;
        unite(&self.table.shared, &mut pass.seat, seat);
    }

    /// Gives the value back, which is as the pass knows it; always where the pass speaks for all
    /// actors. Another pass that was lost in the midst of a turn has taken the value with it.
    pub fn close(self, pass: Pass<T>) -> Result<T, LockFault>
    where
        T: Drop,
        requires belongs { Belongs pass self }
        ensures value { IfOk result (λ x. GivesBack T.journal T.origin T.kept x (known pass)) }
        ensures always { length (known pass).kept ≡ ACTORS → IsOk result }
    {
        let TurnLock { table } = self;
        let Pass { seat } = pass;
        let mut closed = table.close_with(seat);
        let all_served = closed.word(TICKETS) == closed.word(SERVING);
        let home = closed.take(HOME);
        closed.free();
        let Some(value) = home else {
            return Err(LockFault::Memory);
        };
        // A pass was lost in the midst of a turn, and what is in the slot may be any value.
        if !all_served {
            return Err(LockFault::Memory);
        }
        Ok(value)
    }
}
