// The cores of inodes in their blocks.
ghost use Rattle.std.specs.Prelude.{◌≡◌, ◌<◌, ◌≤◌, ◌+◌, length};
ghost use Rattle.geom.specs.Places.{HasBlock};

use byte_fields::Block;
use dinode_core::{Core3, decode_core, encode_core, read_core};
use geom::{Geometry, InodePlace};
use inode_table::{free_block, fresh_core};

// The inodes of a block, and the bytes of one.
const BLOCK_INODES: u8 = 8;

const INODE_BYTES: usize = 512;

// The bytes of the inode in a slot of its block.
fn slot_of(block: &Block, slot: u8) -> &[u8]
    requires { slot < 8 }
    ensures whole { length result.now ≡ 512 }
{
    let (_, rest) = block.bytes.split_at(INODE_BYTES * usize::from(slot));
    let (own, _) = rest.split_at(INODE_BYTES);
    own
}

/// The core of the inode in a slot of its block; none where it doesn't verify
/// (XFS Algorithms and Data Structures, "On-disk Inode").
pub fn core_in(block: &Block, slot: u8, geo: &Geometry, ino: u64) -> Option<Core3>
    requires { slot < 8 }
{
    match decode_core(slot_of(block, slot), ino, &geo.uuid) {
        Ok(core) => Some(core),
        Err(_) => None,
    }
}

/// Whether all cores of a block verify (XFS Algorithms and Data Structures, "On-disk Inode").
pub fn are_cores_sound(block: &Block, geo: &Geometry, g: u32, b: u32) -> bool
    requires { HasBlock geo.now g b }
{
    for slot in 0..BLOCK_INODES {
        let place = InodePlace {
            group: g,
            block: b,
            slot,
        };
        let ino = geo.inode_number(place);
        if decode_core(slot_of(block, slot), ino, &geo.uuid).is_err() {
            return false;
        }
    }
    true
}

// The bytes of an inode with this core in the place of that which they have.
fn with_core(from: &[u8], core: &Core3) -> [u8; 512]
    requires { length from.now ≡ 512 }
{
    let mut own = [0; INODE_BYTES];
    own.copy_from_slice(from);
    encode_core(core, &mut own);
    own
}

// Puts the bytes of an inode into those of its block.
fn put_part(bytes: &mut [u8], at: usize, part: &[u8; 512])
    requires { at + 512 ≤ length bytes.old }
{
    bytes[at..at + INODE_BYTES].copy_from_slice(part);
}

/// The first block of a fresh chunk whose first inode is a new file of this owner, and all others free
/// (XFS Algorithms and Data Structures, "Inode Allocation").
pub fn taken_block(geo: &Geometry, g: u32, b: u32, uid: u32) -> Block
    requires { HasBlock geo.now g b }
{
    let free = free_block(geo, g, b);
    let own = slot_of(&free, 0);
    let core = read_core(own);
    let taken = with_core(own, &fresh_core(&core, uid));
    let mut bytes = free.bytes;
    put_part(&mut bytes, 0, &taken);
    Block { bytes }
}
