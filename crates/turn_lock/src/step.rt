// The steps of a turn, each of which keeps the rule.
ghost use Rattle.std.specs.Prelude.{ℕ, ◌≡◌, ◌<◌, ◌%◌, ◌^◌, length, None, Some, [], ◌∷◌};
ghost use Rattle.turn_lock.specs.Lists.{below};
ghost use Rattle.turn_lock.specs.Views.{Extends, joining, kept_below, kept_from};
ghost use Rattle.turn_lock.specs.Steps.{Draws, Looks, Takes, Publishes, Serves, Settles, number};

use crate::recorded::Recorded;
use crate::rule::{HOME, LENGTH, LockSeat, LockShared, SERVING, TICKETS};
use crate::view::View;
use atomic_table::{Join, Play, Split};
use std::marker::{Brand, PhantomData};
use std::sync::Wait;

// How often a waiting thread looks before it sleeps.
const LOOKS: u32 = 100;

// The value that a turn leaves, told at a step that doesn't name it.
pub(crate) trait Left<T> {
    ghost use Rattle.std.specs.Prelude.{Option};

    ghost left: { Option T };
}

impl<T> Left<T> for Brand {
    ghost left = { None };
}

// The actor from which a pass is split.
pub(crate) trait Bound {
    ghost bound: { ℕ };
}

impl Bound for Brand {
    ghost bound = { 0 };
}

struct Drawing;

impl<T: Recorded> Play<Option<T>, View<T>> for Drawing {
    ghost use Rattle.turn_lock.specs.Steps.{Draws};

    ghost then = { λ s me found after. Draws me found after };
}

struct Looking;

impl<T: Recorded> Play<Option<T>, View<T>> for Looking {
    ghost use Rattle.turn_lock.specs.Steps.{Looks};

    ghost then = { λ s me found after. Looks T.journal T.origin T.kept me found after };
}

struct Publishing<V> {
    of: PhantomData<V>,
}

impl<T: Recorded, V: Left<T>> Play<Option<T>, View<T>> for Publishing<V> {
    ghost use Rattle.turn_lock.specs.Steps.{Publishes};

    ghost then = { λ s me found after. Publishes T.journal T.origin T.kept V.left me after };
}

struct Serving;

impl<T: Recorded> Play<Option<T>, View<T>> for Serving {
    ghost use Rattle.turn_lock.specs.Steps.{Serves};

    ghost then = { λ s me found after. Serves me found after };
}

struct Settling;

impl<T: Recorded> Play<Option<T>, View<T>> for Settling {
    ghost use Rattle.turn_lock.specs.Steps.{Settles};

    ghost then = { λ s me found after. Settles me found after };
}

struct CutAt<C> {
    of: PhantomData<C>,
}

impl<T: Recorded, C: Bound> Split<View<T>> for CutAt<C> {
    ghost use Rattle.turn_lock.specs.Views.{kept_below, kept_from};

    ghost left = { λ v. kept_below C.bound v };

    ghost right = { λ v. kept_from C.bound v };
}

struct Joining;

impl<T: Recorded> Join<View<T>> for Joining {
    ghost use Rattle.turn_lock.specs.Views.{joining, spent};

    ghost both = { λ v w. joining v w };

    ghost spent = { spent };
}

pub(crate) fn draw<T: Recorded>(shared: &LockShared<T>, seat: &mut LockSeat<T>) -> u64
    requires same { seat.old.table_id ≡ shared.now.table_id }
    requires words { shared.now.table_id.words ≡ 3 }
    requires idle { (seat.old.me.0.ticket ≡ None) × (seat.old.me.0.told ≡ None) }
    requires speaks { 0 < length seat.old.me.0.kept }
    ensures same { (seat.new.table_id ≡ seat.old.table_id) × (seat.new.id ≡ seat.old.id) }
    ensures drew { Draws seat.old.me result seat.new.me }
{
    shared.fetch_add::<Drawing>(seat, TICKETS, 1)
}

fn look<T: Recorded>(shared: &LockShared<T>, seat: &mut LockSeat<T>) -> u64
    requires same { seat.old.table_id ≡ shared.now.table_id }
    requires words { shared.now.table_id.words ≡ 3 }
    requires waits { (t : ℕ) × (seat.old.me.0.ticket ≡ Some t) }
    requires quiet { seat.old.me.0.told ≡ None }
    ensures same { (seat.new.table_id ≡ seat.old.table_id) × (seat.new.id ≡ seat.old.id) }
    ensures looked { Looks T.journal T.origin T.kept seat.old.me result seat.new.me }
{
    shared.load::<Looking>(seat, SERVING)
}

// Sleeps until the number served may have changed, once there were enough looks.
fn pause<T: Recorded, R: Wait>(shared: &LockShared<T>, rt: &R, looks: u32, found: u64)
    requires { shared.now.table_id.words ≡ 3 }
{
    if looks >= LOOKS {
        shared.park(rt, SERVING, (found & u64::from(u32::MAX)) as u32);
    }
}

// Waits until the ticket is served, and has the value then.
pub(crate) fn wait<T: Recorded, R: Wait>(
    shared: &LockShared<T>,
    rt: &R,
    seat: &mut LockSeat<T>,
    ticket: u64,
)
    requires same { seat.old.table_id ≡ shared.now.table_id }
    requires words { shared.now.table_id.words ≡ 3 }
    requires waits { (t : ℕ) × (seat.old.me.0.ticket ≡ Some t) }
    requires quiet { seat.old.me.0.told ≡ None }
    requires ticket { ticket ≡ number seat.old.me.0.ticket % 2 ^ 64 }
    ensures same { (seat.new.table_id ≡ seat.old.table_id) × (seat.new.id ≡ seat.old.id) }
    ensures takes { Takes T.journal T.origin T.kept seat.old.me seat.new.me }
{
    let mut looks = 0u32;
    for _ in rt.forever() {
        let found = look(shared, seat);
        if found == ticket {
            return;
        }
        looks = looks.saturating_add(1);
        pause(shared, rt, looks, found);
    }
    unreachable!()
}

pub(crate) fn take<T: Recorded>(shared: &LockShared<T>, seat: &mut LockSeat<T>) -> T
    requires same { seat.old.table_id ≡ shared.now.table_id }
    requires out { (x : T) × (seat.old.me.1 ≡ (0, Some x) ∷ []) }
    ensures same { (seat.new.table_id ≡ seat.old.table_id) × (seat.new.id ≡ seat.old.id) }
    ensures took { (seat.old.me.1 ≡ (0, Some result) ∷ []) × (seat.new.me ≡ (seat.old.me.0, (0, None) ∷ [])) }
{
    let Some(value) = shared.exchange(seat, HOME, None) else {
        unreachable!()
    };
    value
}

// Stores the journal's length while the value is out.
pub(crate) fn publish<T: Recorded, V: Left<T>>(
    shared: &LockShared<T>,
    seat: &mut LockSeat<T>,
    value: &T,
    entries: u64,
)
    requires left { V.left ≡ Some value.now }
    requires same { seat.old.table_id ≡ shared.now.table_id }
    requires words { shared.now.table_id.words ≡ 3 }
    requires out { (x : T) × (seat.old.me.0.told ≡ Some x) × Extends T.journal T.origin T.kept seat.old.me.0 x value.now }
    requires entries { entries ≡ length (T.journal value.now) }
    ensures same { (seat.new.table_id ≡ seat.old.table_id) × (seat.new.id ≡ seat.old.id) }
    ensures published { Publishes T.journal T.origin T.kept (Some value.now) seat.old.me seat.new.me }
{
    shared.store::<Publishing<V>>(seat, LENGTH, entries);
}

pub(crate) fn give<T: Recorded>(shared: &LockShared<T>, seat: &mut LockSeat<T>, value: T)
    requires same { seat.old.table_id ≡ shared.now.table_id }
    requires out { seat.old.me.1 ≡ (0, None) ∷ [] }
    ensures same { (seat.new.table_id ≡ seat.old.table_id) × (seat.new.id ≡ seat.old.id) }
    ensures gave { seat.new.me ≡ (seat.old.me.0, (0, Some value) ∷ []) }
{
    let old = shared.exchange(seat, HOME, Some(value));
    let None = old else { unreachable!() };
}

// Passes the number on, and wakes those who wait if there are any.
pub(crate) fn serve<T: Recorded>(shared: &LockShared<T>, seat: &mut LockSeat<T>, ticket: u64)
    requires same { seat.old.table_id ≡ shared.now.table_id }
    requires words { shared.now.table_id.words ≡ 3 }
    requires out { (y : T) × (seat.old.me.1 ≡ (0, Some y) ∷ []) × (seat.old.me.0.told ≡ Some y) }
    ensures same { (seat.new.table_id ≡ seat.old.table_id) × (seat.new.id ≡ seat.old.id) }
    ensures served { Serves seat.old.me 0 seat.new.me }
{
    shared.fetch_add::<Serving>(seat, SERVING, 1);
    // Who draws after this look finds the new number served.
    if shared.peek(TICKETS) != ticket.wrapping_add(1) {
        shared.wake_all(SERVING);
    }
}

pub(crate) fn cut<T: Recorded, C: Bound>(
    shared: &LockShared<T>,
    seat: &mut LockSeat<T>,
    from: u32,
) -> LockSeat<T>
    requires cut { C.bound ≡ from }
    requires same { seat.old.table_id ≡ shared.now.table_id }
    requires words { shared.now.table_id.words ≡ 3 }
    requires idle { (seat.old.me.0.ticket ≡ None) × (seat.old.me.0.told ≡ None) }
    requires lower { 0 < length (below from seat.old.me.0.kept) }
    ensures same { (seat.new.table_id ≡ seat.old.table_id) × (result.table_id ≡ seat.old.table_id) }
    ensures stays { seat.new.me ≡ (kept_below from seat.old.me.0, seat.old.me.1) }
    ensures goes { result.me ≡ (kept_from from seat.old.me.0, []) }
{
    shared.split_seat::<CutAt<C>>(seat)
}

// Two seats become one, and a look shows what the rule says of both.
pub(crate) fn unite<T: Recorded>(shared: &LockShared<T>, seat: &mut LockSeat<T>, other: LockSeat<T>)
    requires same { (seat.old.table_id ≡ shared.now.table_id) × (other.table_id ≡ shared.now.table_id) }
    requires words { shared.now.table_id.words ≡ 3 }
    requires idle { (seat.old.me.0.ticket ≡ None) × (seat.old.me.0.told ≡ None) }
    requires other { (other.me.0.ticket ≡ None) × (other.me.0.told ≡ None) × (other.me.1 ≡ []) }
    ensures same { seat.new.table_id ≡ seat.old.table_id }
    ensures both { Settles (joining seat.old.me.0 other.me.0, seat.old.me.1) 0 seat.new.me }
{
    shared.join_seat::<Joining>(seat, other);
    shared.load::<Settling>(seat, SERVING);
}
