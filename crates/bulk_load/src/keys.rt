ghost use Rattle.std.specs.Prelude.{◌≡◌, ◌-◌, ◌^◌, ◌<◌, ◌≤◌, length, true, All};
ghost use Rattle.sblock.specs.Spans.{span_of};
ghost use Rattle.bulk_load.specs.Loaded.{piece, below};
ghost use Rattle.bulk_load.specs.Shapes.{width, first_record, HasLevel};

use crate::rows::Row;
use sblock::{Kind, RecKind, Span, span_of_records};

// How many records these are.
pub(crate) fn number_of<R>(list: &[R]) -> u64
    ensures exact { result ≡ length list.now }
    ensures fits { length list.now < 2 ^ 64 }
{
    list.len() as u64
}

// The items from one number on, below another.
pub(crate) fn part<R>(list: &[R], from: usize, to: usize) -> &[R]
    requires order { from ≤ to }
    requires inside { to ≤ length list.now }
    ensures exact { result.now ≡ piece list.now from to }
    ensures long { length result.now ≡ to - from }
{
    let (_, rest) = list.split_at(from);
    let (found, _) = rest.split_at(to - from);
    found
}

// The first record below block `i` of a level, or the number of records where `i` is the number of
// its blocks.
pub(crate) fn first_record(records: u64, kind: Kind, level: u32, i: u64) -> u64
    requires level { HasLevel kind records level }
    requires within { i ≤ width kind records level }
    ensures exact { result ≡ first_record kind records level i }
    ensures within { result ≤ records }
{
    let first = Row::of_level(records, kind, level).first(i);
    if level == 0 {
        return first;
    }
    first_record(records, kind, level - 1, first)
}

// The keys of the records below block `i` of a level.
pub(crate) fn keys_below<K: RecKind>(list: &[K::Rec], level: u32, i: u64) -> Option<Span<K::Key>>
    requires level { HasLevel K.form.kind (length list.now) level }
    requires within { i < width K.form.kind (length list.now) level }
    requires ends { All (λ r. K.form.has_end r ≡ true) list.now }
    ensures { result ≡ span_of K.form (below K.form list.now level i) }
{
    let records = number_of(list);
    let from = first_record(records, K::kind(), level, i);
    let to = first_record(records, K::kind(), level, i + 1);
    span_of_records::<K>(part(list, from as usize, to as usize))
}
