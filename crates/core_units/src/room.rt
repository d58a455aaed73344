// Whether records have room for one more at their end.
ghost use Rattle.std.specs.Prelude.{◌≡◌, IsTrue};
ghost use Rattle.sblock.specs.Lists.{Each};
ghost use Rattle.core_units.specs.Room.{has_room as has_room_of};

use rmap_recs::{RmapRec, is_fork_data};

// One more than the greatest offset.
const OFFSETS: u64 = 1 << 54;

// Whether the record's offsets and the block behind it have numbers.
#[tactic(auto, unfolding(rmap_recs::specs::Rmap::has_end))]
fn has_room(rec: &RmapRec) -> bool
    ensures { result ≡ has_room_of rec.now }
{
    let end = u64::from(rec.start) + u64::from(rec.count);
    rec.count >= 1
        && end <= 1 << 32
        && (!is_fork_data(rec.owner, rec.word)
            || rec.word % OFFSETS + u64::from(rec.count) <= OFFSETS)
        && end < 1 << 32
}

/// Whether the offsets of reverse mappings and the blocks behind them have numbers
/// (XFS Algorithms and Data Structures, "Reverse-Mapping B+tree").
pub fn have_room(recs: &[RmapRec]) -> bool
    ensures { IsTrue result → Each has_room_of recs.now }
{
    for rec in recs {
        if !has_room(rec) {
            return false;
        }
    }
    true
}
