ghost use Rattle.std.specs.Prelude.{◌≡◌, ◌≢◌, ◌+◌, ◌/◌, ◌<◌, ℕ, length, if◌then◌else◌};
ghost use Rattle.byte_fields.specs.Fields.{field, with_field};
ghost use Rattle.ino_recs.specs.Chunks.{ino_at, with_ino, ino_key_at, with_ino_key, is_ino_in_range, is_whole as is_whole_of};

use byte_fields::{get_u16, get_u32, get_u64, put_u16, put_u32, put_u64};
use sblock::Bounds;

/// A chunk of `count` inodes from the group-relative inode number `startino` on, of which
/// `freecount` are free: bit i of `free` is set where inode `startino + i` is. Each bit of
/// `holemask` that is set stands for four inodes that aren't there
/// (XFS Algorithms and Data Structures, "Inode B+trees" and "Sparse Inodes").
#[derive(Clone, Copy, Debug, PartialEq, Eq)]
pub struct InoRec {
    pub startino: u32,
    pub holemask: u16,
    pub count: u8,
    pub freecount: u8,
    pub free: u64,
}

/// The first inode number of a chunk, relative to its group
/// (XFS Algorithms and Data Structures, "Inode B+trees").
#[derive(Clone, Copy, Debug, PartialEq, Eq)]
pub struct InoKey {
    pub startino: u32,
}

// The inodes of a chunk, those in a block, and the blocks of a chunk.
const CHUNK_INODES: u32 = 64;

const BLOCK_INODES: u32 = 8;

const CHUNK_BLOCKS: u32 = 8;

#[tactic(auto, using(crate::proofs::ByteLemmas::byte_is_field))]
fn get_byte(area: &[u8], at: usize) -> u8
    requires { at < length area.now }
    ensures { result ≡ field 1 area.now at }
{
    area[at]
}

#[tactic(auto, using(crate::proofs::ByteLemmas::set_is_field))]
fn put_byte(area: &mut [u8], at: usize, value: u8)
    requires { at < length area.old }
    ensures { area.new ≡ with_field 1 area.old at value }
{
    area[at] = value;
}

/// Record `i` of a leaf.
#[tactic(auto, unfolding(crate::specs::Chunks::startino_at, crate::specs::Chunks::holemask_at, crate::specs::Chunks::count_at, crate::specs::Chunks::freecount_at, crate::specs::Chunks::free_at))]
pub fn read_chunk(area: &[u8], i: usize) -> InoRec
    requires whole { length area.now ≡ 4040 }
    requires room { i < 252 }
    ensures { result ≡ ino_at area.now i }
{
    InoRec {
        startino: get_u32(area, 16 * i),
        holemask: get_u16(area, 16 * i + 4),
        count: get_byte(area, 16 * i + 6),
        freecount: get_byte(area, 16 * i + 7),
        free: get_u64(area, 16 * i + 8),
    }
}

/// Writes record `i` of a leaf.
#[tactic(auto, using(crate::proofs::ChunkLemmas::ino_taken, crate::proofs::ChunkLemmas::ino_others), unfolding(crate::specs::Chunks::with_ino))]
pub fn put_chunk(area: &mut [u8], i: usize, rec: &InoRec)
    requires whole { length area.old ≡ 4040 }
    requires room { i < 252 }
    ensures written { area.new ≡ with_ino area.old i rec.now }
    ensures taken { ino_at area.new i ≡ rec.now }
    ensures others { (j : ℕ) → j ≢ i → ino_at area.new j ≡ ino_at area.old j }
{
    put_u32(area, 16 * i, rec.startino);
    put_u16(area, 16 * i + 4, rec.holemask);
    put_byte(area, 16 * i + 6, rec.count);
    put_byte(area, 16 * i + 7, rec.freecount);
    put_u64(area, 16 * i + 8, rec.free);
}

/// The key of entry `i` of a node.
#[tactic(auto, unfolding(crate::specs::Chunks::key_startino_at))]
pub fn read_key(area: &[u8], i: usize) -> InoKey
    requires whole { length area.now ≡ 4040 }
    requires room { i < 505 }
    ensures { result ≡ ino_key_at area.now i }
{
    InoKey {
        startino: get_u32(area, 4 * i),
    }
}

#[tactic(auto, unfolding(crate::specs::Chunks::with_ino_key))]
fn put_startino(area: &mut [u8], i: usize, startino: u32)
    requires whole { length area.old ≡ 4040 }
    requires room { i < 505 }
    ensures { area.new ≡ with_ino_key area.old i (record { startino = startino }) }
{
    put_u32(area, 4 * i, startino);
}

/// Writes the key of entry `i` of a node.
#[tactic(auto, using(crate::proofs::ChunkLemmas::key_taken, crate::proofs::ChunkLemmas::key_others))]
pub fn put_key(area: &mut [u8], i: usize, key: &InoKey)
    requires whole { length area.old ≡ 4040 }
    requires room { i < 505 }
    ensures written { area.new ≡ with_ino_key area.old i key.now }
    ensures taken { ino_key_at area.new i ≡ key.now }
    ensures others { (j : ℕ) → j ≢ i → ino_key_at area.new j ≡ ino_key_at area.old j }
{
    put_startino(area, i, key.startino);
}

/// Whether the chunk has no holes.
#[tactic(auto, unfolding(crate::specs::Chunks::is_whole))]
pub fn is_whole(rec: &InoRec) -> bool
    ensures { result ≡ is_whole_of rec.now }
{
    rec.holemask == 0
}

/// The block of the chunk's first inode.
pub fn first_block(key: &InoKey) -> u32
    ensures { result ≡ key.now.startino / 8 }
{
    key.startino / BLOCK_INODES
}

/// How many blocks the chunk covers; one with holes isn't said to cover any.
pub fn blocks_of(rec: &InoRec) -> u32
    ensures { result ≡ (if is_whole_of rec.now then 8 else 0) }
{
    if is_whole(rec) { CHUNK_BLOCKS } else { 0 }
}

/// Whether the chunk is a whole one that lies in the group and behind its first 8 blocks, with as
/// many free inodes as bits are set.
#[tactic(auto, unfolding(crate::specs::Chunks::is_ino_in_range))]
pub fn is_chunk(rec: &InoRec, bounds: &Bounds) -> bool
    ensures { result ≡ is_ino_in_range bounds.now rec.now }
{
    rec.startino % CHUNK_INODES == 0
        && rec.startino >= CHUNK_INODES
        && rec.startino / BLOCK_INODES + CHUNK_BLOCKS <= bounds.length
        && u32::from(rec.count) == CHUNK_INODES
        && u32::from(rec.freecount) == rec.free.count_ones()
}
