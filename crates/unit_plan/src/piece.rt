ghost use Rattle.std.specs.Prelude.{◌≡◌, ◌+◌, ◌≤◌, ◌&&◌, not};
ghost use Rattle.run_sets.specs.Runs.{is_within};
ghost use Rattle.unit_plan.specs.Pieces.{is_hard as is_hard_of, has_block as has_block_of, is_looked_at as is_looked_at_of};

use fs_model::Claim;
use rmap_recs::UNWRITTEN;
use run_sets::Run;
use std::alloc::{AllocError, AllocFailed};
use std::mem::size_of;
use thiserror::Error;

/// Blocks of a group that one structure claims: a run of them, group-relative, and the owner and the
/// offset word that a reverse mapping of the run has. The word's unwritten flag tells of a mapping
/// of file data that its blocks hold no data yet
/// (XFS Online Fsck Design, "Cross-Referencing Space Metadata").
#[derive(Clone, Copy, Debug, PartialEq, Eq)]
pub struct Piece {
    pub claim: Claim,
    pub run: Run,
    pub owner: u64,
    pub word: u64,
}

/// At most so many bytes does a piece take.
pub const PIECE_BYTES: usize = 40;

const _: () = prove!(size_of::<Piece>() <= PIECE_BYTES);

/// Which claims are looked at: all, or those of the group's own metadata, which are all but file
/// data, attributes and blocks of a fork's btree.
#[derive(Clone, Copy, Debug, PartialEq, Eq)]
pub enum Among {
    All,
    Metadata,
}

/// There was no memory for a piece, or for an answer.
#[derive(Clone, Copy, Debug, PartialEq, Eq, Error)]
#[error("memory")]
pub struct Memory;

impl From<AllocFailed<Piece>> for Memory {
    ghost from_gives = { λ _ e. e ≡ record {} };

    fn from(_: AllocFailed<Piece>) -> Self {
        Memory
    }
}

impl From<AllocError> for Memory {
    ghost from_gives = { λ _ e. e ≡ record {} };

    fn from(_: AllocError) -> Self {
        Memory
    }
}

/// Whether claims of this sort are looked at.
pub fn is_looked_at(among: Among, claim: &Claim) -> bool
    ensures { result ≡ is_looked_at_of among claim.now }
{
    match among {
        Among::All => true,
        Among::Metadata => {
            !matches!(claim, Claim::Data(_) | Claim::Attr(_) | Claim::ForkTree(_))
        }
    }
}

/// Whether the piece stands beside no other: it isn't written file data.
pub fn is_hard(piece: &Piece) -> bool
    ensures { result ≡ is_hard_of piece.now }
{
    piece.word & UNWRITTEN > 0 || !matches!(piece.claim, Claim::Data(_))
}

/// Whether the piece is looked at and has the block.
pub fn has_block(among: Among, piece: &Piece, block: u32) -> bool
    ensures { result ≡ has_block_of among block piece.now }
{
    let end = u64::from(piece.run.start) + u64::from(piece.run.count);
    is_looked_at(among, &piece.claim) && (piece.run.start <= block && u64::from(block) < end)
}
