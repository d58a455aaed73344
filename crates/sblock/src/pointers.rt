ghost use Rattle.std.specs.Prelude.{◌≡◌, ◌≢◌, ◌+◌, ◌<◌, ◌≤◌, ℕ, length};
ghost use Rattle.sblock.specs.Area.{child_of, with_child, pointer_place};
ghost use Rattle.sblock.specs.Kinds.{node_most_of};

use crate::kind::Kind;
use byte_fields::{get_u32, put_u32};

// Where pointer `i` stands: behind the room of the greatest number of keys.
fn place_of(kind: Kind, i: usize) -> usize
    requires { i < node_most_of kind }
    ensures place { result ≡ pointer_place kind i }
    ensures room { result + 4 ≤ 4040 }
{
    usize::from(kind.node_most()) * kind.key_width() + 4 * i
}

/// The group-relative block of entry `i` of a node. `area` is the 4,040 bytes behind the header,
/// with the pointers after the room of the greatest number of keys
/// (XFS Algorithms and Data Structures, "Short Format B+trees").
#[tactic(auto, unfolding(crate::specs::Area::child_of))]
pub fn child_at(kind: Kind, area: &[u8], i: usize) -> u32
    requires whole { length area.now ≡ 4040 }
    requires room { i < node_most_of kind }
    ensures { result ≡ child_of kind area.now i }
{
    get_u32(area, place_of(kind, i))
}

/// Writes the block of entry `i` of a node. It is read again as it was written, and the other
/// pointers stay; so do the keys, by the kind's law.
#[tactic(auto, using(crate::specs::AreaLaws::child_taken, crate::specs::AreaLaws::child_others), unfolding(crate::specs::Area::with_child))]
pub fn put_child(kind: Kind, area: &mut [u8], i: usize, child: u32)
    requires whole { length area.old ≡ 4040 }
    requires room { i < node_most_of kind }
    ensures written { area.new ≡ with_child kind area.old i child }
    ensures taken { child_of kind area.new i ≡ child }
    ensures others { (j : ℕ) → j < node_most_of kind → j ≢ i → child_of kind area.new j ≡ child_of kind area.old j }
{
    put_u32(area, place_of(kind, i), child);
}
