ghost use Rattle.std.specs.Prelude.{◌≡◌, ◌<◌, ◌≤◌, ◌+◌, ◌^◌, IfSome};
ghost use Rattle.defer_chain.specs.Stretch.{Reaches, StretchLaw, owners_of, stretch_count};

use span_recs::RefcRec;

/// The first blocks of a run that have one reference count, and that count: 1 where no record counts
/// them, since such blocks have one owner or none.
#[derive(Clone, Copy, Debug, PartialEq, Eq)]
pub struct Stretch {
    pub count: u32,
    pub owners: u32,
}

/// The stretch that a step of a reference count takes of `count` blocks from `block` on: it ends where
/// the record that counts the block ends, and where the next record begins. `over` is the record that
/// counts the block, the last one that begins at it or before and reaches it, and `next` the start of
/// the first record that begins behind it (XFS Algorithms and Data Structures, "Reference Count B+tree").
pub fn first_stretch(block: u32, count: u32, over: Option<RefcRec>, next: Option<u32>) -> Stretch
    requires over { IfSome over (λ r. Reaches r block) }
    requires next { IfSome next (λ s. block < s) }
    ensures count { result.count ≡ stretch_count block count over next }
    ensures some { 0 < count → 0 < result.count }
    ensures inside { result.count ≤ count }
    ensures owners { result.owners ≡ owners_of over }
{
    let (left, owners) = match over {
        Some(rec) => (count.min(rec.start + rec.count - block), rec.refcount),
        None => (count, 1),
    };
    let count = match next {
        Some(start) => left.min(start - block),
        None => left,
    };
    Stretch { count, owners }
}

/// A law: each block of a stretch is counted by the record that counts the first one, or by none as
/// that.
pub fn one_count()
    ensures { StretchLaw }
{}
