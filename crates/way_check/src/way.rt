// Whether a block that was made passes by itself, with the siblings of the old one.
ghost use Rattle.std.specs.Prelude.{◌≡◌, ◌+◌, ◌*◌, ◌^◌, ◌<◌, true};
ghost use Rattle.way_check.specs.Checks.{Passes};

use byte_fields::Block;
use place_plan::Spot;
use sblock::{RecKind, left_of, right_of};
use tree_blocks::lone_fault_of;
use tree_defs::Site;

/// Whether a block that was made passes by itself, with the siblings of the old one
/// (XFS Algorithms and Data Structures, "Short Format B+trees").
pub fn does_pass<K: RecKind>(site: &Site, spot: Spot, old: &Block, new: &Block) -> bool
    requires fits { 8 * (site.now.first + spot.block) < 2 ^ 64 }
    ensures { result ≡ true → Passes K.form site.now spot old.now.bytes new.now.bytes }
{
    if lone_fault_of::<K>(new, site, spot.level, spot.root, spot.block).is_some() {
        return false;
    }
    if left_of(new) != left_of(old) || right_of(new) != right_of(old) {
        return false;
    }
    true
}
