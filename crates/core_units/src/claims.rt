// Who claims which blocks of the group, put together from what was gathered.
ghost use Rattle.std.specs.Prelude.{◌≡◌, ◌<◌, ◌^◌, ◌++◌, ◌∷◌, [], All, OnOk, map};
ghost use Rattle.core_units.specs.Claims.{fork_claim as fork_claim_of, group_pieces, limbo_piece, owner_piece, rmap_pieces};
ghost use Rattle.fs_state.specs.Records.{tree_owner as owner_of_tree};
ghost use Rattle.group_trees.specs.Group.{tree_blocks};
ghost use Rattle.group_trees.specs.Metadata.{tree_pieces};
ghost use Rattle.rmap_recs.specs.Owners.{number_of};
ghost use Rattle.unit_plan.specs.Sets.{pieces_of};

use block_reap::LimboRun;
use fs_model::Claim;
use geom::Run3;
use group_trees::{GroupTrees, blocks_of, put_blocks, put_chunks, put_fixed};
use rmap_recs::{ATTRIBUTE, FORK_TREE, Owner, RmapRec};
use run_sets::Run;
use sblock::Kind;
use unit_plan::{ClaimSet, Memory, Piece};

/// Puts what waits to be freed
/// (XFS Online Fsck Design, "Reaping After Repairing Ondisk Metadata").
pub fn put_limbo(set: &mut ClaimSet, limbo: &[LimboRun]) -> Result<(), Memory>
    ensures { OnOk result (pieces_of set.new ≡ pieces_of set.old ++ map limbo_piece limbo.now) }
{
    for run in limbo {
        set.put(Piece {
            claim: Claim::Limbo,
            run: Run {
                start: run.start,
                count: run.count,
            },
            owner: run.owner,
            word: 0,
        })?;
    }
    Ok(())
}

// Which claim a run of a fork's owner is.
fn fork_claim(run: &RmapRec) -> Claim
    ensures { result ≡ fork_claim_of run.now }
{
    if run.word & FORK_TREE > 0 {
        return Claim::ForkTree(run.owner);
    }
    if run.word & ATTRIBUTE > 0 {
        return Claim::Attr(run.owner);
    }
    Claim::Data(run.owner)
}

/// Puts the runs of the forks' owners, as a scan has them
/// (XFS Online Fsck Design, "Case Study: Rebuilding Reverse Mapping Records").
pub fn put_owners(set: &mut ClaimSet, runs: &[RmapRec]) -> Result<(), Memory>
    ensures { OnOk result (pieces_of set.new ≡ pieces_of set.old ++ map owner_piece runs.now) }
{
    for run in runs {
        set.put(Piece {
            claim: fork_claim(run),
            run: Run {
                start: run.start,
                count: run.count,
            },
            owner: run.owner,
            word: run.word,
        })?;
    }
    Ok(())
}

// The owner of a tree's blocks, by its number.
fn tree_owner(kind: Kind) -> u64
    ensures { result ≡ owner_of_tree kind }
{
    match kind {
        Kind::Bno | Kind::Cnt | Kind::Rmap => Owner::Ag.number(),
        Kind::Refc => Owner::Refc.number(),
        Kind::Ino | Kind::Fino => Owner::Inobt.number(),
    }
}

// The blocks of the tree of this kind.
fn blocks_of_kind(trees: &GroupTrees, kind: Kind) -> &[u32]
    ensures { result.now ≡ tree_blocks trees.now kind }
{
    match kind {
        Kind::Bno => blocks_of(&trees.bno),
        Kind::Cnt => blocks_of(&trees.cnt),
        Kind::Rmap => blocks_of(&trees.rmap),
        Kind::Refc => blocks_of(&trees.refc),
        Kind::Ino => blocks_of(&trees.ino),
        Kind::Fino => blocks_of(&trees.fino),
    }
}

// Puts the blocks of a tree.
fn put_tree(set: &mut ClaimSet, trees: &GroupTrees, kind: Kind) -> Result<(), Memory>
    ensures { OnOk result (pieces_of set.new ≡ pieces_of set.old ++ tree_pieces (tree_blocks trees.now) kind) }
{
    let owner = tree_owner(kind);
    put_blocks(set, Claim::Tree(kind), owner, blocks_of_kind(trees, kind))
}

// Puts those of the reverse mappings, unless they are left out.
fn put_rmap(set: &mut ClaimSet, trees: &GroupTrees, with_rmap: bool) -> Result<(), Memory>
    ensures { OnOk result (pieces_of set.new ≡ pieces_of set.old ++ rmap_pieces with_rmap (tree_blocks trees.now)) }
{
    if !with_rmap {
        return Ok(());
    }
    put_tree(set, trees, Kind::Rmap)
}

/// Puts the claims of the group's own metadata: its heads, its part of the log, its free list, its
/// btrees, what waits to be freed, and its chunks by the numbers of their units. The blocks of the old
/// reverse mappings may be left out (XFS Online Fsck Design, "Cross-Referencing Space Metadata").
pub fn put_group(
    set: &mut ClaimSet,
    log: Option<Run3>,
    g: u32,
    list: &[u32],
    trees: &GroupTrees,
    with_rmap: bool,
    limbo: &[LimboRun],
    chunks: &[u32],
) -> Result<(), Memory>
    requires { All (λ u. u < 2 ^ 26) chunks.now }
    ensures { OnOk result (pieces_of set.new ≡ pieces_of set.old ++ group_pieces log g list.now with_rmap (tree_blocks trees.now) limbo.now chunks.now) }
{
    put_fixed(set, log, g)?;
    put_blocks(set, Claim::List, Owner::Ag.number(), list)?;
    put_tree(set, trees, Kind::Bno)?;
    put_tree(set, trees, Kind::Cnt)?;
    put_rmap(set, trees, with_rmap)?;
    put_tree(set, trees, Kind::Refc)?;
    put_tree(set, trees, Kind::Ino)?;
    put_tree(set, trees, Kind::Fino)?;
    put_limbo(set, limbo)?;
    put_chunks(set, chunks)
}
