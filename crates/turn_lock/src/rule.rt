// The rule of the lock, its three words and its slot.
use crate::recorded::Recorded;
use crate::view::View;
use atomic_table::{Seat, Shared, Table, TableRule};
use std::alloc::Global;
use std::marker::PhantomData;
use std::snapshot::Snapshot;

// The words: how many tickets were drawn, the number served, and the length of the journal.
pub(crate) const TICKETS: usize = 0;

pub(crate) const SERVING: usize = 1;

pub(crate) const LENGTH: usize = 2;

// The slot in which the value lies between two turns.
pub(crate) const HOME: usize = 0;

/// What the lock is made with: the value, and the number of the first ticket. It has no bytes.
#[derive(Drop)]
pub struct Start<T> {
    pub value: Snapshot<T>,
    pub ticket: Snapshot<u64>,
}

/// The rule of the lock's table.
pub struct LockRule<T> {
    of: PhantomData<T>,
}

impl<T: Recorded> TableRule<Option<T>, View<T>, Start<T>> for LockRule<T> {
    ghost use Rattle.turn_lock.specs.Rule.{LockHolds};
    ghost use Rattle.turn_lock.specs.Views.{first_view};

    ghost holds = { λ k s. LockHolds T.journal T.origin T.kept k.ticket.value s };

    ghost first = { λ k. first_view T.journal T.origin T.kept k.value.value };
}

pub(crate) type LockSeat<T> = Seat<Option<T>, View<T>>;

pub(crate) type LockShared<T> = Shared<Option<T>, View<T>, Start<T>, LockRule<T>>;

pub(crate) type LockTable<T> = Table<Option<T>, View<T>, Start<T>, LockRule<T>, Global>;
