ghost use Rattle.std.specs.Prelude.{◌≡◌, ◌+◌, ◌<◌, ◌≤◌, IfSome};
ghost use Rattle.ino_recs.specs.Chunks.{ino_form};
ghost use Rattle.sblock.specs.Blocks.{numrecs, records_of};
ghost use Rattle.sblock.specs.Kinds.{leaf_most_of};
ghost use Rattle.sblock.specs.declared.kind.Kind.TheVariants.{Ino};
ghost use Rattle.inode_scan.specs.Chunk.{is_free as is_free_of, is_sought as is_sought_of, first_of as first_is, first_in};

use byte_fields::Block;
use ino_recs::{InoKind, InoRec};
use sblock::{RecKind, count_of, data_area};

/// How many inodes a chunk has (XFS Algorithms and Data Structures, "Inode B+trees").
pub const CHUNK_INODES: u32 = 64;

// Whether the inode of the chunk is free.
#[tactic(auto, using(std::proofs::lemmas::Nat::one_shl), unfolding(crate::specs::Chunk::is_free))]
fn is_free(rec: &InoRec, slot: u32) -> bool
    requires { slot < 64 }
    ensures { result ≡ is_free_of rec.now slot }
{
    rec.free / (1u64 << slot) % 2 == 1
}

// Whether it is allocated, with a number from `from` on and below `end`.
#[tactic(auto, unfolding(crate::specs::Chunk::is_sought))]
fn is_sought(rec: &InoRec, slot: u32, from: u32, end: u32) -> bool
    requires { slot < 64 }
    ensures { result ≡ is_sought_of from end rec.now slot }
{
    let number = u64::from(rec.startino) + u64::from(slot);
    u64::from(from) <= number && number < u64::from(end) && !is_free(rec, slot)
}

/// The lowest allocated inode of a chunk whose number, relative to the group, lies from `from` on and
/// below `end`.
pub fn first_of(rec: &InoRec, from: u32, end: u32) -> Option<u32>
    ensures value { result ≡ first_is from end rec.now }
    ensures range { IfSome result (λ n. (from ≤ n) × (n < end)) }
{
    for slot in 0..CHUNK_INODES {
        if is_sought(rec, slot, from, end) {
            return Some((u64::from(rec.startino) + u64::from(slot)) as u32);
        }
    }
    None
}

/// The lowest one of a leaf's chunks.
pub fn first_in_leaf(block: &Block, from: u32, end: u32) -> Option<u32>
    requires { numrecs block.now.bytes ≤ leaf_most_of Ino }
    ensures value { result ≡ first_in from end (records_of ino_form block.now.bytes) }
    ensures range { IfSome result (λ n. (from ≤ n) × (n < end)) }
{
    let area = data_area(block);
    for i in 0..count_of(block) {
        let rec = InoKind::record_at(area, i as usize);
        let found = first_of(&rec, from, end);
        if found.is_some() {
            return found;
        }
    }
    None
}
