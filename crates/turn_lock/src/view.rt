// What a pass knows.
use crate::recorded::Recorded;
use std::collections::LinkedList;

/// What a pass knows. Contracts alone see it; no value of it is made and it takes no memory.
pub struct View<T: Recorded> {
    /// The ticket that the pass has drawn, during a turn.
    pub ticket: Option<u64>,
    /// The value as the pass last told it, from the look that finds its ticket served until the
    /// number is passed on.
    pub told: Option<T>,
    /// The prefix of the journal that the pass has seen.
    pub seen: LinkedList<T::Entry>,
    /// The positions in the journal of the entries that the pass's own turns appended.
    pub own: LinkedList<u64>,
    /// How many turns the pass took, with those of the passes that were joined to it.
    pub turns: u64,
    /// The origin of the value. Only what is left of a joined pass has none.
    pub origin: Option<T::Origin>,
    /// The actors for which the pass speaks, and what the value keeps for each.
    pub kept: LinkedList<(u64, T::Kept)>,
    /// The shorter of two prefixes, while two passes are joined.
    pub other: LinkedList<T::Entry>,
}
