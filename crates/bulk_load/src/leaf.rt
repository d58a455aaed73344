ghost use Rattle.std.specs.Prelude.{◌≡◌, ◌+◌, ◌*◌, ◌^◌, ◌<◌, ◌≤◌, length, [], ◌∷◌};
ghost use Rattle.sblock.specs.Kinds.{leaf_most_of};
ghost use Rattle.bulk_load.specs.Leaf.{leaf_bytes};
ghost use Rattle.bulk_load.specs.Loaded.{IsLaid};

use crate::areas::{blank_area, put_records};
use crate::header::block_of;
use crate::load::NO_BLOCK;
use byte_fields::Block;
use sblock::{Frame, Header, RecKind};

/// The block of a tree of these records that is one leaf, for block `at` of its group. Each of its
/// bytes is told: what no record has is zero
/// (XFS Algorithms and Data Structures, "Short Format B+trees").
pub fn lone_leaf<K: RecKind>(list: &[K::Rec], frame: &Frame, at: u32) -> Block
    requires room { length list.now ≤ leaf_most_of K.form.kind }
    requires place { 8 * (frame.now.first + at) < 2 ^ 64 }
    ensures { result.bytes ≡ leaf_bytes K.form list.now frame.now at }
{
    let header = Header {
        level: 0,
        numrecs: list.len() as u16,
        left: NO_BLOCK,
        right: NO_BLOCK,
        lsn: frame.lsn,
    };
    let mut area = blank_area();
    put_records::<K>(&mut area, list);
    block_of(&area, K::kind(), &header, frame, at)
}
