ghost use Rattle.std.specs.Prelude.{◌≡◌, ◌≢◌, ◌<◌, ◌≤◌, ◌+◌, ◌*◌, ℕ, None, length, replicate};
ghost use Rattle.std.specs.List.{splice};
ghost use Rattle.dinode_core.specs.Core.{core_fault, core_of};
ghost use Rattle.geom.specs.Layout.{inode_at};
ghost use Rattle.geom.specs.Places.{HasBlock, layout};
ghost use Rattle.inode_table.specs.Cores.{fresh_file, given_back, free_bytes, free_core, slot_of};

use byte_fields::Block;
use dinode_core::{Core3, encode_core};
use geom::{Geometry, InodePlace};

/// The mode of a new file: a regular one that its owner may read and write, and all others read
/// (XFS Algorithms and Data Structures, "On-disk Inode").
pub const FILE_MODE: u16 = 0x81a4;

// The format of a fork whose mappings stand in the inode.
const EXTENTS: u8 = 2;

// Bytes of an inode, and the inodes of a block.
const INODE: usize = 512;

const BLOCK_INODES: u8 = 8;

/// The core of an inode that a file of this owner takes: one link, both forks empty and kept as
/// lists of mappings, no flags. The rest of the core stays
/// (XFS Algorithms and Data Structures, "On-disk Inode").
#[tactic(auto, unfolding(crate::specs::Cores::fresh_file))]
pub fn fresh_core(core: &Core3, uid: u32) -> Core3
    ensures { result ≡ fresh_file core.now uid }
{
    Core3 {
        mode: FILE_MODE,
        format: EXTENTS,
        uid,
        nlink: 1,
        big_nextents: 0,
        nblocks: 0,
        nextents: 0,
        anextents: 0,
        forkoff: 0,
        aformat: EXTENTS,
        flags: 0,
        flags2: 0,
        ..*core
    }
}

/// The core of an inode that is given back: mode 0, and counts of 0. The rest of the core stays
/// (XFS Algorithms and Data Structures, "On-disk Inode").
#[tactic(auto, unfolding(crate::specs::Cores::given_back))]
pub fn given_core(core: &Core3) -> Core3
    ensures { result ≡ given_back core.now }
{
    Core3 {
        mode: 0,
        big_nextents: 0,
        nextents: 0,
        anextents: 0,
        ..*core
    }
}

#[tactic(auto, unfolding(crate::specs::Cores::free_core))]
fn core_of_free(ino: u64, uuid: &[u8; 16]) -> Core3
    ensures { result ≡ free_core ino uuid.now }
{
    Core3 {
        mode: 0,
        format: 0,
        uid: 0,
        nlink: 0,
        big_nextents: 0,
        nblocks: 0,
        nextents: 0,
        anextents: 0,
        forkoff: 0,
        aformat: 0,
        flags: 0,
        next_unlinked: 0xffff_ffff,
        changecount: 0,
        lsn: 0,
        flags2: 0,
        ino,
        uuid: *uuid,
        literal: [0; 336],
    }
}

// The bytes of a free inode.
#[tactic(auto, unfolding(crate::specs::Cores::free_core))]
fn free_inode(ino: u64, uuid: &[u8; 16]) -> [u8; 512]
    ensures bytes { result ≡ free_bytes ino uuid.now }
    ensures core { core_of result ≡ free_core ino uuid.now }
    ensures sound { core_fault result ino uuid.now ≡ None }
{
    let mut bytes = [0; INODE];
    encode_core(&core_of_free(ino, uuid), &mut bytes);
    bytes
}

fn put_part(bytes: &mut [u8], at: usize, part: &[u8; 512])
    requires { at + 512 ≤ length bytes.old }
    ensures { bytes.new ≡ splice bytes.old at (at + 512) part.now }
{
    bytes[at..at + INODE].copy_from_slice(part);
}

// Puts the bytes of an inode into this slot of a block; the other slots stay.
#[tactic(auto, using(ag_headers::proofs::SectorLemmas::sector_there, ag_headers::proofs::SectorLemmas::sector_stays))]
fn put_slot(bytes: &mut [u8], slot: usize, inode: &[u8; 512])
    requires long { length bytes.old ≡ 4096 }
    requires inside { slot < 8 }
    requires whole { length inode.now ≡ 512 }
    ensures there { slot_of bytes.new slot ≡ inode.now }
    ensures others { (s : ℕ) → s ≢ slot → slot_of bytes.new s ≡ slot_of bytes.old s }
{
    put_part(bytes, INODE * slot, inode);
}

// Puts eight free inodes into a block.
fn put_inodes(geo: &Geometry, group: u32, block: u32, bytes: &mut [u8])
    requires place { HasBlock geo.now group block }
    requires long { length bytes.old ≡ 4096 }
    ensures slots { (s : ℕ) → s < 8 → slot_of bytes.new s ≡ free_bytes (inode_at (layout geo.now) group block s) geo.now.uuid }
    ensures cores { (s : ℕ) → s < 8 → core_of (slot_of bytes.new s) ≡ free_core (inode_at (layout geo.now) group block s) geo.now.uuid }
    ensures sound { (s : ℕ) → s < 8 → core_fault (slot_of bytes.new s) (inode_at (layout geo.now) group block s) geo.now.uuid ≡ None }
{
    for slot in 0..BLOCK_INODES {
        let ino = geo.inode_number(InodePlace { group, block, slot });
        put_slot(bytes, usize::from(slot), &free_inode(ino, &geo.uuid));
    }
}

/// A block of a fresh chunk, at this place of a group: eight free inodes, each with a core that
/// verifies (XFS Algorithms and Data Structures, "Inode Allocation").
pub fn free_block(geo: &Geometry, group: u32, block: u32) -> Block
    requires { HasBlock geo.now group block }
    ensures slots { (s : ℕ) → s < 8 → slot_of result.bytes s ≡ free_bytes (inode_at (layout geo.now) group block s) geo.now.uuid }
    ensures cores { (s : ℕ) → s < 8 → core_of (slot_of result.bytes s) ≡ free_core (inode_at (layout geo.now) group block s) geo.now.uuid }
    ensures sound { (s : ℕ) → s < 8 → core_fault (slot_of result.bytes s) (inode_at (layout geo.now) group block s) geo.now.uuid ≡ None }
{
    let mut bytes = [0; 4096];
    put_inodes(geo, group, block, &mut bytes);
    Block { bytes }
}
