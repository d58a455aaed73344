ghost use Rattle.std.specs.Prelude.{◌≡◌, ◌+◌, ◌≤◌, ◌^◌, All, IfErr, OnOk, if◌then◌else◌, length, true};
ghost use Rattle.dinode_core.specs.Inline.{in_range};
ghost use Rattle.fork_pass.specs.Pieces.{block_pieces, block_piece, claim_of as claim_is, flag_of as flag_is, mapping_piece, mapping_pieces, piece_where};
ghost use Rattle.fork_pass.specs.Sets.{Adds};
ghost use Rattle.fs_state.specs.Claims.{word_of as word_is, unwritten};
ghost use Rattle.geom.specs.Layout.{split_of};
ghost use Rattle.geom.specs.Places.{layout};

use crate::sets::put_piece;
use dinode_core::{Fork, Mapping};
use fs_model::Claim;
use geom::Geometry;
use inode_pass::PassStop;
use rmap_recs::{ATTRIBUTE, FORK_TREE, UNWRITTEN};
use run_sets::Run;
use unit_plan::{ClaimSet, Piece};

fn claim_of(fork: Fork, ino: u64) -> Claim
    ensures { result ≡ claim_is fork ino }
{
    match fork {
        Fork::Data => Claim::Data(ino),
        Fork::Attr => Claim::Attr(ino),
    }
}

fn flag_of(fork: Fork) -> u64
    ensures { result ≡ flag_is fork }
{
    match fork {
        Fork::Data => 0,
        Fork::Attr => ATTRIBUTE,
    }
}

fn unwritten_flag(m: &Mapping) -> u64
    ensures { result ≡ (if m.now.unwritten then unwritten else 0) }
{
    if m.unwritten { UNWRITTEN } else { 0 }
}

// The offset word of a mapping.
fn word_of(fork: Fork, m: &Mapping) -> u64
    requires { m.now.offset ≤ 2 ^ 54 }
    ensures { result ≡ word_is (flag_is fork) m.now }
{
    m.offset + flag_of(fork) + unwritten_flag(m)
}

/// Puts the blocks of a mapping of a fork into the set of the group in which they lie
/// (XFS Online Fsck Design, "Cross-Referencing Space Metadata").
pub fn put_mapping(
    sets: &mut [ClaimSet],
    geo: &Geometry,
    fork: Fork,
    ino: u64,
    m: &Mapping,
) -> Result<(), PassStop>
    requires groups { length sets.old ≡ geo.now.agcount }
    requires range { in_range (layout geo.now) fork m.now ≡ true }
    ensures put { OnOk result (Adds sets.old sets.new (λ g. piece_where g (mapping_piece fork ino m.now) (split_of (layout geo.now) m.now.block))) }
    ensures groups { length sets.new ≡ length sets.old }
    ensures memory { IfErr result (λ stop. stop ≡ PassStop.Memory) }
{
    let Some(place) = geo.split_fs_block(m.block) else {
        return Ok(());
    };
    let piece = Piece {
        claim: claim_of(fork, ino),
        run: Run {
            start: place.1,
            count: m.count,
        },
        owner: ino,
        word: word_of(fork, m),
    };
    put_piece(sets, place.0, piece)?;
    Ok(())
}

/// Puts the blocks of these mappings of a fork, each into the set of the group in which they lie
/// (XFS Online Fsck Design, "Cross-Referencing Space Metadata").
pub fn put_mappings(
    sets: &mut [ClaimSet],
    geo: &Geometry,
    fork: Fork,
    ino: u64,
    mappings: &[Mapping],
) -> Result<(), PassStop>
    requires groups { length sets.old ≡ geo.now.agcount }
    requires range { All (λ m. in_range (layout geo.now) fork m ≡ true) mappings.now }
    ensures put { OnOk result (Adds sets.old sets.new (mapping_pieces (layout geo.now) fork ino mappings.now)) }
    ensures groups { length sets.new ≡ length sets.old }
    ensures memory { IfErr result (λ stop. stop ≡ PassStop.Memory) }
{
    for m in mappings {
        put_mapping(sets, geo, fork, ino, m)?;
    }
    Ok(())
}

// Puts a block of a fork's btree into the set of the group in which it lies.
fn put_block(
    sets: &mut [ClaimSet],
    geo: &Geometry,
    fork: Fork,
    ino: u64,
    block: u64,
) -> Result<(), PassStop>
    requires groups { length sets.old ≡ geo.now.agcount }
    ensures put { OnOk result (Adds sets.old sets.new (λ g. piece_where g (block_piece fork ino) (split_of (layout geo.now) block))) }
    ensures groups { length sets.new ≡ length sets.old }
    ensures memory { IfErr result (λ stop. stop ≡ PassStop.Memory) }
{
    let Some(place) = geo.split_fs_block(block) else {
        return Ok(());
    };
    let piece = Piece {
        claim: Claim::ForkTree(ino),
        run: Run {
            start: place.1,
            count: 1,
        },
        owner: ino,
        word: FORK_TREE + flag_of(fork),
    };
    put_piece(sets, place.0, piece)?;
    Ok(())
}

/// Puts these blocks of a fork's btree, each into the set of the group in which it lies
/// (XFS Online Fsck Design, "Cross-Referencing Space Metadata").
pub fn put_blocks(
    sets: &mut [ClaimSet],
    geo: &Geometry,
    fork: Fork,
    ino: u64,
    blocks: &[u64],
) -> Result<(), PassStop>
    requires groups { length sets.old ≡ geo.now.agcount }
    ensures put { OnOk result (Adds sets.old sets.new (block_pieces (layout geo.now) fork ino blocks.now)) }
    ensures groups { length sets.new ≡ length sets.old }
    ensures memory { IfErr result (λ stop. stop ≡ PassStop.Memory) }
{
    for block in blocks {
        put_block(sets, geo, fork, ino, *block)?;
    }
    Ok(())
}
