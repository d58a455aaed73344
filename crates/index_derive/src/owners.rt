ghost use Rattle.std.specs.Prelude.{◌≡◌, ℕ, IfOk, length};
ghost use Rattle.fs_state.specs.Own.{rmap_of};
ghost use Rattle.fs_state.specs.State.{State};
ghost use Rattle.run_edits.specs.Pieces.{ArePieces, joined_pieces};
ghost use Rattle.index_derive.specs.Owners.{AreClaimed};

use rmap_recs::{Memory, RmapRec};
use run_edits::{count_runs, join_pieces};
use std::alloc::Global;

/// What the reverse mapping btree of a group must hold, from the claims on its blocks by pieces: the
/// maximal runs of consecutive blocks with the same owner and flags and, for blocks that a fork
/// maps, consecutive offsets. The pieces rise in the order of reverse mappings, and no two of them
/// claim one block for one owner and offset. It costs two binary searches for each piece, however
/// many blocks that has (XFS Online Fsck Design, "Case Study: Rebuilding Reverse Mapping Records").
pub fn reverse_mappings(alloc: Global, pieces: &[RmapRec]) -> Result<Vec<RmapRec>, Memory>
    requires { ArePieces pieces.now }
    ensures value { IfOk result (λ recs. recs.items ≡ joined_pieces pieces.now) }
    ensures exact { (a : State) (g : ℕ) → AreClaimed a g pieces.now → IfOk result (λ recs. recs.items ≡ rmap_of a g) }
{
    join_pieces(alloc, pieces)
}

/// How many records the reverse mapping btree of a group must hold, from the claims on its blocks by
/// pieces as above. It takes no memory, so that a rebuild can ask it each time it has taken a block
/// (XFS Online Fsck Design, "Case Study: Rebuilding Reverse Mapping Records").
pub fn count_mappings(pieces: &[RmapRec]) -> usize
    requires { ArePieces pieces.now }
    ensures value { result ≡ length (joined_pieces pieces.now) }
    ensures exact { (a : State) (g : ℕ) → AreClaimed a g pieces.now → result ≡ length (rmap_of a g) }
{
    count_runs(pieces)
}
