ghost use Rattle.std.specs.Prelude.{◌≡◌, ◌<◌, ◌+◌, ◌^◌, true, not, filter, length};
ghost use Rattle.std.specs.List.{list_any};
ghost use Rattle.rmap_recs.specs.Rmap.{can_join as can_join_of};
ghost use Rattle.run_edits.specs.Edits.{is_before as is_before_of};
ghost use Rattle.run_edits.specs.Pieces.{ArePieces, is_last, joined_pieces};
ghost use Rattle.sblock.specs.Lists.{Rises};

use crate::pieces::place_behind;
use rmap_recs::RmapRec;

// Whether no piece goes on from this one.
fn ends_run(pieces: &[RmapRec], piece: &RmapRec) -> bool
    requires sorted { Rises is_before_of pieces.now }
    requires room { piece.now.start + piece.now.count < 2 ^ 32 }
    ensures { result ≡ is_last pieces.now piece.now }
{
    match place_behind(pieces, piece) {
        Some(_) => false,
        None => true,
    }
}

// How many pieces end a run.
fn count_ends(pieces: &[RmapRec]) -> usize
    requires { ArePieces pieces.now }
    ensures { result ≡ length (filter (is_last pieces.now) pieces.now) }
{
    let mut count = 0;
    for piece in pieces {
        if ends_run(pieces, piece) {
            count += 1;
        }
    }
    count
}

/// How many maximal runs `join_pieces` makes of these pieces. It takes no memory, and costs a
/// binary search for each piece, however many blocks that has
/// (XFS Online Fsck Design, "Case Study: Rebuilding Reverse Mapping Records").
pub fn count_runs(pieces: &[RmapRec]) -> usize
    requires { ArePieces pieces.now }
    ensures { result ≡ length (joined_pieces pieces.now) }
{
    count_ends(pieces)
}
