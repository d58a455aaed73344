ghost use Rattle.std.specs.Prelude.{◌≡◌, ◌++◌, ◌∷◌, ◌<◌, ◌^◌, [], All, OnOk, map};
ghost use Rattle.group_trees.specs.Metadata.{block_piece, chunk_piece, log_pieces, piece_of};
ghost use Rattle.rmap_recs.specs.Owners.{number_of};
ghost use Rattle.rmap_recs.specs.declared.owner.Owner.TheVariants.{Fs};
ghost use Rattle.unit_plan.specs.Sets.{pieces_of};

use fs_model::Claim;
use geom::Run3;
use rmap_recs::Owner;
use run_sets::Run;
use unit_plan::{ClaimSet, Memory, Piece};

// The blocks of a chunk.
const CHUNK_BLOCKS: u32 = 8;

// Puts a claim on a run of blocks.
fn put_run(
    set: &mut ClaimSet,
    claim: Claim,
    owner: u64,
    start: u32,
    count: u32,
) -> Result<(), Memory>
    ensures { OnOk result (pieces_of set.new ≡ pieces_of set.old ++ piece_of claim owner start count ∷ []) }
{
    set.put(Piece {
        claim,
        run: Run { start, count },
        owner,
        word: 0,
    })
}

/// Puts the claims of a group's heads and of its part of the log
/// (XFS Algorithms and Data Structures, "Allocation Groups").
pub fn put_fixed(set: &mut ClaimSet, log: Option<Run3>, g: u32) -> Result<(), Memory>
    ensures { OnOk result (pieces_of set.new ≡ pieces_of set.old ++ block_piece Claim.Heads (number_of Fs) 0 ∷ log_pieces log g) }
{
    put_run(set, Claim::Heads, Owner::Fs.number(), 0, 1)?;
    let Some(run) = log else {
        return Ok(());
    };
    if run.group != g {
        return Ok(());
    }
    put_run(set, Claim::Log, Owner::Log.number(), run.start, run.count)
}

/// Puts a claim on each of these blocks
/// (XFS Online Fsck Design, "Cross-Referencing Space Metadata").
pub fn put_blocks(
    set: &mut ClaimSet,
    claim: Claim,
    owner: u64,
    blocks: &[u32],
) -> Result<(), Memory>
    ensures { OnOk result (pieces_of set.new ≡ pieces_of set.old ++ map (block_piece claim owner) blocks.now) }
{
    for block in blocks {
        put_run(set, claim, owner, *block, 1)?;
    }
    Ok(())
}

/// Puts the claims of chunks, by the numbers of their units
/// (XFS Algorithms and Data Structures, "Inode B+trees").
pub fn put_chunks(set: &mut ClaimSet, chunks: &[u32]) -> Result<(), Memory>
    requires { All (λ u. u < 2 ^ 26) chunks.now }
    ensures { OnOk result (pieces_of set.new ≡ pieces_of set.old ++ map chunk_piece chunks.now) }
{
    for unit in chunks {
        put_run(
            set,
            Claim::Chunk,
            Owner::Inodes.number(),
            CHUNK_BLOCKS * *unit,
            CHUNK_BLOCKS,
        )?;
    }
    Ok(())
}
