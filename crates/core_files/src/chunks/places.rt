ghost use Rattle.std.specs.Prelude.{◌≡◌, ◌<◌, IfSome};
ghost use Rattle.geom.specs.Places.{HasInode};

use geom::{Geometry, InodePlace};
use ino_recs::{InoKey, InoRec};

// The inodes of a block, and those of a chunk.
const BLOCK_INODES: u64 = 8;

const CHUNK_INODES: u64 = 64;

/// The place of a chunk's inode, by its place in the chunk; none where the group has no such block
/// (XFS Algorithms and Data Structures, "Inode Numbers").
pub fn place_in(geo: &Geometry, g: u32, rec: &InoRec, slot: u8) -> Option<InodePlace>
    requires group { g < geo.now.agcount }
    ensures place { IfSome result (HasInode geo.now) }
    ensures group { IfSome result (λ place. place.group ≡ g) }
{
    let number = u64::from(rec.startino) + u64::from(slot);
    let block = number / BLOCK_INODES;
    if block >= u64::from(geo.group_len(g)) {
        return None;
    }
    Some(InodePlace {
        group: g,
        block: block as u32,
        slot: (number % BLOCK_INODES) as u8,
    })
}

/// The key of the record of an inode's chunk, and the inode's place in the chunk
/// (XFS Algorithms and Data Structures, "Inode B+trees").
pub fn chunk_of(place: &InodePlace) -> Option<(InoKey, u8)>
    ensures slot { IfSome result (λ found. found.1 < 64) }
{
    let number = u64::from(place.block) * BLOCK_INODES + u64::from(place.slot);
    let slot = number % CHUNK_INODES;
    let first = number - slot;
    if first > u64::from(u32::MAX) {
        return None;
    }
    Some((
        InoKey {
            startino: first as u32,
        },
        slot as u8,
    ))
}
