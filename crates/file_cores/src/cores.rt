// The core of an inode in its block, and what the inode itself shows of its data fork.
ghost use Rattle.std.specs.Prelude.{◌≡◌, ◌<◌, ◌≤◌, ◌*◌, length};
ghost use Rattle.dinode_core.specs.declared.mapping.Fork.TheVariants.{Data};
ghost use Rattle.dinode_core.specs.Shape.{size_of, room_of};
ghost use Rattle.geom.specs.Places.{HasBlock};

use byte_fields::Block;
use dinode_core::{
    Core3, Fork, Format, Mapping, decode_core, encode_core, first_bad, fork_area, fork_format,
    fork_room, fork_size, mapping_at, mapping_count,
};
use geom::{Geometry, InodePlace};

// The inodes of a block, and the bytes of one.
const BLOCK_INODES: u8 = 8;

const INODE_BYTES: usize = 512;

// The most mappings that stand in an inode.
const MOST_INLINE: usize = 21;

const NO_MAPPING: Mapping = Mapping {
    offset: 0,
    block: 0,
    count: 0,
    unwritten: false,
};

// The bytes of the inode in a slot of its block.
fn slot_of(block: &Block, slot: u8) -> &[u8]
    requires { slot < 8 }
    ensures whole { length result.now ≡ 512 }
{
    let (_, rest) = block.bytes.split_at(INODE_BYTES * usize::from(slot));
    let (own, _) = rest.split_at(INODE_BYTES);
    own
}

/// The core of the inode in a slot of its block; none where it doesn't verify
/// (XFS Algorithms and Data Structures, "On-disk Inode").
pub(crate) fn core_in(block: &Block, slot: u8, geo: &Geometry, ino: u64) -> Option<Core3>
    requires { slot < 8 }
{
    match decode_core(slot_of(block, slot), ino, &geo.uuid) {
        Ok(core) => Some(core),
        Err(_) => None,
    }
}

/// Whether all cores of a block verify.
pub(crate) fn are_cores_sound(block: &Block, geo: &Geometry, g: u32, b: u32) -> bool
    requires { HasBlock geo.now g b }
{
    for slot in 0..BLOCK_INODES {
        let place = InodePlace {
            group: g,
            block: b,
            slot,
        };
        let ino = geo.inode_number(place);
        if decode_core(slot_of(block, slot), ino, &geo.uuid).is_err() {
            return false;
        }
    }
    true
}

// Whether the mappings in the inode fit it, and none of them is bad.
fn are_mappings_sound(geo: &Geometry, core: &Core3) -> bool
    requires { core.now.forkoff < 42 }
{
    let room = fork_room(core, Fork::Data);
    let count = mapping_count(core, Fork::Data);
    if room > MOST_INLINE || count > room as u64 {
        return false;
    }
    let area = fork_area(core, Fork::Data);
    let mut list = [NO_MAPPING; MOST_INLINE];
    for i in 0..count as usize {
        list[i] = mapping_at(area, i);
    }
    first_bad(geo, Fork::Data, &list[..count as usize]).is_none()
}

// Whether the root of a btree in the inode has a level that it may have, and keys that fit.
fn is_root_sound(core: &Core3) -> bool
    requires { core.now.forkoff < 42 }
{
    let size = fork_size(core, Fork::Data);
    if size < 4 {
        return false;
    }
    let area = fork_area(core, Fork::Data);
    let level = u16::from(area[0]) * 256 + u16::from(area[1]);
    let keys = usize::from(area[2]) * 256 + usize::from(area[3]);
    1 <= level && level <= 9 && keys <= (size - 4) / 16
}

/// Whether the inode itself shows no fault of its data fork
/// (XFS Algorithms and Data Structures, "Data Fork").
pub(crate) fn is_fork_sound(geo: &Geometry, core: &Core3) -> bool {
    if core.forkoff >= 42 {
        return false;
    }
    match fork_format(core, Fork::Data) {
        None => false,
        Some(Format::Dev) => true,
        Some(Format::Local) => true,
        Some(Format::Extents) => are_mappings_sound(geo, core),
        Some(Format::Btree) => is_root_sound(core),
    }
}

/// Writes a core over the inode in a slot of its block.
pub(crate) fn put_core(block: &mut Block, slot: u8, core: &Core3)
    requires { slot < 8 }
{
    let at = INODE_BYTES * usize::from(slot);
    let mut own = [0; INODE_BYTES];
    own.copy_from_slice(&block.bytes[at..at + INODE_BYTES]);
    encode_core(core, &mut own);
    block.bytes[at..at + INODE_BYTES].copy_from_slice(&own);
}
