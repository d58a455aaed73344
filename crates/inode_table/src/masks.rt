ghost use Rattle.std.specs.Prelude.{◌≡◌, ◌≢◌, ◌<◌, ◌+◌, ◌-◌, ◌^◌, ◌↔◌, ℕ, count_ones, IfSome, IsNone};
ghost use Rattle.std.specs.Int.{bit_at};
ghost use Rattle.inode_table.specs.Masks.{IsFree, fino_of, unused_chunk};

use ino_recs::InoRec;

/// The inodes of a chunk (XFS Algorithms and Data Structures, "Inode B+trees").
pub const CHUNK_INODES: u8 = 64;

// The inodes of a block.
const BLOCK_INODES: u32 = 8;

// The lowest bit that is set.
fn lowest_bit(mask: u64) -> Option<u8>
    ensures set { IfSome result (λ s. (s < 64) × (bit_at mask s ≡ 1)) }
    ensures lowest { IfSome result (λ s. (i : ℕ) → i < s → bit_at mask i ≡ 0) }
    ensures none { IsNone result ↔ (mask ≡ 0) }
{
    if mask == 0 {
        return None;
    }
    Some(mask.trailing_zeros() as u8)
}

// The mask without this bit, which is set.
fn cleared(mask: u64, slot: u8) -> u64
    requires inside { slot < 64 }
    requires set { bit_at mask slot ≡ 1 }
    ensures turned { bit_at result slot ≡ 0 }
    ensures others { (i : ℕ) → i ≢ slot → bit_at result i ≡ bit_at mask i }
    ensures ones { count_ones mask ≡ count_ones result + 1 }
{
    mask & !(1u64 << slot)
}

// The mask with this bit, which isn't set.
fn set(mask: u64, slot: u8) -> u64
    requires inside { slot < 64 }
    requires clear { bit_at mask slot ≡ 0 }
    ensures turned { bit_at result slot ≡ 1 }
    ensures others { (i : ℕ) → i ≢ slot → bit_at result i ≡ bit_at mask i }
    ensures ones { count_ones result ≡ count_ones mask + 1 }
{
    mask | (1u64 << slot)
}

/// The lowest free inode of a chunk, by its place there; None exactly where none is free
/// (XFS Algorithms and Data Structures, "Inode B+trees").
pub fn lowest_free(rec: &InoRec) -> Option<u8>
    ensures free { IfSome result (λ s. IsFree rec.now s) }
    ensures lowest { IfSome result (λ s. (i : ℕ) → i < s → bit_at rec.now.free i ≡ 0) }
    ensures none { IsNone result ↔ (rec.now.free ≡ 0) }
{
    lowest_bit(rec.free)
}

/// The record of a chunk once the inode at this place of it, which is free, is taken: its bit and the
/// count of free inodes alone change. Both inode btrees have it, the second one by `fino_record`
/// (XFS Algorithms and Data Structures, "Inode B+trees").
pub fn take(rec: &InoRec, slot: u8) -> InoRec
    requires free { IsFree rec.now slot }
    requires count { 0 < rec.now.freecount }
    ensures only { result ≡ record rec.now { freecount = rec.now.freecount - 1; free = result.free } }
    ensures turned { bit_at result.free slot ≡ 0 }
    ensures others { (i : ℕ) → i ≢ slot → bit_at result.free i ≡ bit_at rec.now.free i }
    ensures counts { rec.now.freecount ≡ count_ones rec.now.free → result.freecount ≡ count_ones result.free }
{
    InoRec {
        freecount: rec.freecount - 1,
        free: cleared(rec.free, slot),
        ..*rec
    }
}

/// The record of a chunk once the inode at this place of it, which is allocated, is given back: its
/// bit and the count of free inodes alone change
/// (XFS Algorithms and Data Structures, "Inode B+trees").
pub fn give(rec: &InoRec, slot: u8) -> InoRec
    requires inside { slot < CHUNK_INODES }
    requires allocated { bit_at rec.now.free slot ≡ 0 }
    requires count { rec.now.freecount < CHUNK_INODES }
    ensures only { result ≡ record rec.now { freecount = rec.now.freecount + 1; free = result.free } }
    ensures turned { bit_at result.free slot ≡ 1 }
    ensures others { (i : ℕ) → i ≢ slot → bit_at result.free i ≡ bit_at rec.now.free i }
    ensures counts { rec.now.freecount ≡ count_ones rec.now.free → result.freecount ≡ count_ones result.free }
{
    InoRec {
        freecount: rec.freecount + 1,
        free: set(rec.free, slot),
        ..*rec
    }
}

/// What the btree of chunks with free inodes has of a chunk: its record, or none where no inode of it
/// is free (XFS Algorithms and Data Structures, "Inode B+trees").
pub fn fino_record(rec: &InoRec) -> Option<InoRec>
    ensures { result ≡ fino_of rec.now }
{
    if rec.freecount == 0 {
        return None;
    }
    Some(*rec)
}

/// The record of a fresh chunk, whose first block is this one of its group: 64 inodes, all free
/// (XFS Algorithms and Data Structures, "Inode Allocation").
pub fn fresh_chunk(block: u32) -> InoRec
    requires { block < 2 ^ 29 }
    ensures { result ≡ unused_chunk block }
{
    InoRec {
        startino: BLOCK_INODES * block,
        holemask: 0,
        count: CHUNK_INODES,
        freecount: CHUNK_INODES,
        free: u64::MAX,
    }
}
