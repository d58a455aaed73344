ghost use Rattle.std.specs.Prelude.{◌≡◌, ◌+◌, ◌≤◌, ◌^◌, All, List, if◌then◌else◌, length, true};
ghost use Rattle.dinode_core.specs.Inline.{in_range};
ghost use Rattle.fork_read.specs.Pieces.{AreInRange};
ghost use Rattle.geom.specs.Layout.{split_of};
ghost use Rattle.geom.specs.Places.{layout};
ghost use Rattle.rmap_recs.specs.Owners.{is_inode};
ghost use Rattle.rmap_recs.specs.declared.tuples.Tuple.{Tuple};
ghost use Rattle.run_edits.specs.EditLaws.{AreUntied};
ghost use Rattle.run_edits.specs.Edits.{HasRoom};
ghost use Rattle.shadow_rmap.specs.Kept.{KeepsTuples};
ghost use Rattle.shadow_rmap.specs.Union.{AreUnion};
ghost use Rattle.fs_state.specs.Claims.{blocks_at, fork_tree, mapping_claims, tree_block_at, unwritten, word_of as word_is};
ghost use Rattle.core_scan.specs.Gains.{Gains, block_claims, claim_of, claims_of, flag_of as flag_is};

use dinode_core::{Fork, Mapping};
use fork_read::ForkPiece;
use geom::Geometry;
use rmap_recs::{ATTRIBUTE, FORK_TREE, RmapRec, UNWRITTEN};
use shadow_rmap::Shadow;

fn flag_of(fork: Fork) -> u64
    ensures { result ≡ flag_is fork }
{
    match fork {
        Fork::Data => 0,
        Fork::Attr => ATTRIBUTE,
    }
}

fn unwritten_flag(m: &Mapping) -> u64
    ensures { result ≡ (if m.now.unwritten then unwritten else 0) }
{
    if m.unwritten { UNWRITTEN } else { 0 }
}

// The offset word of a mapping.
fn word_of(fork: Fork, m: &Mapping) -> u64
    requires { m.now.offset ≤ 2 ^ 54 }
    ensures { result ≡ word_is (flag_is fork) m.now }
{
    m.offset + flag_of(fork) + unwritten_flag(m)
}

// The reverse mapping of a mapping of a fork, where it lies at this block.
fn mapping_record(fork: Fork, ino: u64, m: &Mapping, start: u32) -> RmapRec
    requires { m.now.offset ≤ 2 ^ 54 }
    ensures { result ≡ record { start = start; count = m.now.count; owner = ino; word = word_is (flag_is fork) m.now } }
{
    RmapRec {
        start,
        count: m.count,
        owner: ino,
        word: word_of(fork, m),
    }
}

/// Puts a record into a shadow that has room for it
/// (XFS Online Fsck Design, "Case Study: Rebuilding Reverse Mapping Records").
pub fn add_record(shadow: &mut Shadow, rec: &RmapRec)
    requires rec { HasRoom rec.now }
    requires room { 1 ≤ shadow.old.room }
    ensures kept { (ts us : List Tuple) → AreUntied us → AreUnion ts us rec.now → KeepsTuples ts shadow.old → KeepsTuples us shadow.new }
    ensures group { shadow.new.group ≡ shadow.old.group }
    ensures room { shadow.old.room ≤ shadow.new.room + 1 }
{
    match shadow.add(rec) {
        Ok(()) => {}
        Err(_) => unreachable!(),
    }
}

// Puts the blocks of a mapping of an inode into the shadow, where they lie in its group.
fn give_mapping(shadow: &mut Shadow, geo: &Geometry, fork: Fork, ino: u64, m: &Mapping)
    requires range { in_range (layout geo.now) fork m.now ≡ true }
    requires inode { is_inode ino ≡ true }
    requires room { 1 ≤ shadow.old.room }
    ensures gains { Gains shadow.old shadow.new (λ g. blocks_at g (claim_of fork ino) ino (flag_is fork) m.now (split_of (layout geo.now) m.now.block)) }
    ensures room { shadow.old.room ≤ shadow.new.room + 1 }
{
    let Some(place) = geo.split_fs_block(m.block) else {
        return;
    };
    if place.0 != shadow.group() {
        return;
    }
    let len = geo.group_len(place.0);
    let rec = mapping_record(fork, ino, m, place.1);
    prove!(len <= u32::MAX);
    add_record(shadow, &rec);
}

// The same of all these mappings.
fn give_mappings(shadow: &mut Shadow, geo: &Geometry, fork: Fork, ino: u64, mappings: &[Mapping])
    requires range { All (λ m. in_range (layout geo.now) fork m ≡ true) mappings.now }
    requires inode { is_inode ino ≡ true }
    requires room { length mappings.now ≤ shadow.old.room }
    ensures gains { Gains shadow.old shadow.new (λ g. mapping_claims (layout geo.now) g (claim_of fork ino) ino (flag_is fork) mappings.now) }
    ensures room { shadow.old.room ≤ shadow.new.room + length mappings.now }
{
    for m in mappings {
        give_mapping(shadow, geo, fork, ino, m);
    }
}

// Puts a block of a fork's btree into the shadow, where it lies in its group.
fn give_block(shadow: &mut Shadow, geo: &Geometry, fork: Fork, ino: u64, block: u64)
    requires inode { is_inode ino ≡ true }
    requires room { 1 ≤ shadow.old.room }
    ensures gains { Gains shadow.old shadow.new (λ g. tree_block_at g ino (flag_is fork) (split_of (layout geo.now) block)) }
    ensures room { shadow.old.room ≤ shadow.new.room + 1 }
{
    let Some(place) = geo.split_fs_block(block) else {
        return;
    };
    if place.0 != shadow.group() {
        return;
    }
    let len = geo.group_len(place.0);
    let rec = RmapRec {
        start: place.1,
        count: 1,
        owner: ino,
        word: FORK_TREE + flag_of(fork),
    };
    prove!(len <= u32::MAX);
    add_record(shadow, &rec);
}

// The same of all these blocks.
fn give_blocks(shadow: &mut Shadow, geo: &Geometry, fork: Fork, ino: u64, blocks: &[u64])
    requires inode { is_inode ino ≡ true }
    requires room { length blocks.now ≤ shadow.old.room }
    ensures gains { Gains shadow.old shadow.new (λ g. block_claims (layout geo.now) g ino (flag_is fork) blocks.now) }
    ensures room { shadow.old.room ≤ shadow.new.room + length blocks.now }
{
    for block in blocks {
        give_block(shadow, geo, fork, ino, *block);
    }
}

/// Puts what a piece of a fork claims into a shadow that has room for it, as far as it lies in its group
/// (XFS Online Fsck Design, "Case Study: Rebuilding Reverse Mapping Records").
pub fn give_piece(shadow: &mut Shadow, geo: &Geometry, fork: Fork, ino: u64, piece: &ForkPiece)
    requires range { AreInRange (layout geo.now) fork piece.now }
    requires inode { is_inode ino ≡ true }
    requires room { length piece.now.mappings.items + length piece.now.tree_blocks.items ≤ shadow.old.room }
    ensures gains { Gains shadow.old shadow.new (claims_of (layout geo.now) fork ino piece.now) }
    ensures room { shadow.old.room ≤ shadow.new.room + (length piece.now.mappings.items + length piece.now.tree_blocks.items) }
{
    give_mappings(shadow, geo, fork, ino, piece.mappings.as_slice());
    give_blocks(shadow, geo, fork, ino, piece.tree_blocks.as_slice());
}
