// The right of some actors to take turns.
ghost use Rattle.std.specs.Prelude.{IsSome, length};
ghost use Rattle.turn_lock.specs.Lists.{Below, Distinct};
ghost use Rattle.turn_lock.specs.Views.{IsIdle};

use crate::recorded::Recorded;
use crate::view::View;
use atomic_table::Seat;

/// The right of some actors to take turns at one lock. It has no bytes.
/// What it knows is a `View`; between two turns its own positions lie in the prefix of the
/// journal that it has seen, each once.
#[derive(Drop)]
pub struct Pass<T: Recorded> {
    pub(crate) seat: Seat<Option<T>, View<T>>,
    pub ghost idle: { IsIdle seat.me },
    pub ghost begun: { IsSome seat.me.0.origin },
    pub ghost distinct: { Distinct seat.me.0.own },
    pub ghost within: { Below seat.me.0.own (length seat.me.0.seen) },
}
