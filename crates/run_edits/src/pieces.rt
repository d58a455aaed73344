ghost use Rattle.std.specs.Prelude.{◌≡◌, ◌<◌, ◌≤◌, ◌+◌, ◌^◌, ◌||◌, ℕ, true, false, All, Contains, List, IfOk, IfSome, IsNone, Some, find, get_or, length};
ghost use Rattle.sblock.specs.Lists.{Rises};
ghost use Rattle.rmap_recs.specs.Rmap.{can_join as can_join_of};
ghost use Rattle.rmap_recs.specs.Runs.{AreRuns};
ghost use Rattle.rmap_recs.specs.Words.{word_goes_on};
ghost use Rattle.rmap_recs.specs.declared.records.RmapRec.{RmapRec as GhostRec};
ghost use Rattle.rmap_recs.specs.declared.tuples.Tuple.{Tuple};
ghost use Rattle.run_edits.specs.Edits.{HasRoom, is_before as is_before_of};
ghost use Rattle.run_edits.specs.Pieces.{ArePieces, AreTuplesOf, is_followed, run_of as run_is, joined_pieces};

use crate::edits::{is_before, joined};
use rmap_recs::{Memory, OFFSETS, RmapRec, is_fork_data};
use std::alloc::{AllocError, Global};

// The offset word that a record would have that goes on behind the run.
fn word_behind(run: &RmapRec) -> Option<u64>
    ensures { (next : ℕ) → word_goes_on run.now.owner run.now.word run.now.count next ≡ true → result ≡ Some next }
{
    if !is_fork_data(run.owner, run.word) {
        return Some(run.word);
    }
    if run.word % OFFSETS + u64::from(run.count) >= OFFSETS {
        return None;
    }
    Some(run.word + u64::from(run.count))
}

// Where the piece stands that comes not before this one.
fn place_of(pieces: &[RmapRec], next: &RmapRec) -> usize
    requires { Rises is_before_of pieces.now }
    ensures within { result ≤ length pieces.now }
    ensures before { (k : ℕ) (d : GhostRec) → k < result → is_before_of (get_or pieces.now k d) next.now ≡ true }
    ensures others { (k : ℕ) (d : GhostRec) → result ≤ k → k < length pieces.now → is_before_of (get_or pieces.now k d) next.now ≡ false }
{
    pieces.partition_point(|other| is_before(other, next))
}

/// The place of the piece that goes on behind the run, where there is one.
pub fn place_behind(pieces: &[RmapRec], run: &RmapRec) -> Option<usize>
    requires sorted { Rises is_before_of pieces.now }
    requires room { run.now.start + run.now.count < 2 ^ 32 }
    ensures found { IfSome result (λ i. (i < length pieces.now) × ((d : GhostRec) → can_join_of run.now (get_or pieces.now i d) ≡ true)) }
    ensures none { IsNone result → (q : GhostRec) → Contains pieces.now q → can_join_of run.now q ≡ false }
{
    let word = word_behind(run)?;
    let next = RmapRec {
        start: run.start + run.count,
        count: 1,
        owner: run.owner,
        word,
    };
    let place = place_of(pieces, &next);
    if place < pieces.len() && run.can_join(&pieces[place]) {
        return Some(place);
    }
    None
}

// The piece that goes on behind the run.
fn follower(pieces: &[RmapRec], run: &RmapRec) -> Option<RmapRec>
    requires sorted { Rises is_before_of pieces.now }
    requires room { run.now.start + run.now.count < 2 ^ 32 }
    ensures { result ≡ find (can_join_of run.now) pieces.now }
{
    let place = place_behind(pieces, run)?;
    Some(pieces[place])
}

// The piece with those that go on from it, one after the other.
fn run_from(pieces: &[RmapRec], piece: &RmapRec) -> RmapRec
    requires sorted { Rises is_before_of pieces.now }
    requires records { All HasRoom pieces.now }
    requires piece { HasRoom piece.now }
    ensures { result ≡ run_is pieces.now piece.now }
{
    let mut run = *piece;
    while let Some(next) = follower(pieces, &run) {
        run = joined(&run, &next);
    }
    run
}

// Marks the piece that goes on behind another one.
fn mark_follower(pieces: &[RmapRec], piece: &RmapRec, marks: &mut Vec<bool>)
    requires sorted { Rises is_before_of pieces.now }
    requires room { piece.now.start + piece.now.count < 2 ^ 32 }
    requires all { length marks.old.items ≡ length pieces.now }
    ensures all { length marks.new.items ≡ length pieces.now }
    ensures exact { (j : ℕ) (d : GhostRec) → j < length pieces.now
        → get_or marks.new.items j false ≡ (get_or marks.old.items j false || can_join_of piece.now (get_or pieces.now j d)) }
{
    if let Some(place) = place_behind(pieces, piece) {
        marks[place] = true;
    }
}

// Which pieces go on from another one.
fn followed(alloc: Global, pieces: &[RmapRec]) -> Result<Vec<bool>, AllocError>
    requires sorted { Rises is_before_of pieces.now }
    requires records { All HasRoom pieces.now }
    ensures all { IfOk result (λ marks. length marks.items ≡ length pieces.now) }
    ensures exact { IfOk result (λ marks. (j : ℕ) (d : GhostRec) → j < length pieces.now → get_or marks.items j false ≡ is_followed pieces.now (get_or pieces.now j d)) }
{
    let mut marks = vec![in alloc; false; pieces.len()]?;
    for piece in pieces {
        mark_follower(pieces, piece, &mut marks);
    }
    Ok(marks)
}

fn joined_by(alloc: Global, pieces: &[RmapRec]) -> Result<Vec<RmapRec>, AllocError>
    requires sorted { Rises is_before_of pieces.now }
    requires records { All HasRoom pieces.now }
    ensures { IfOk result (λ runs. runs.items ≡ joined_pieces pieces.now) }
{
    let marks = followed(alloc, pieces)?;
    let marks = marks.as_slice();
    let mut runs = Vec::new(alloc);
    for i in 0..pieces.len() {
        if !marks[i] {
            runs.push(run_from(pieces, &pieces[i]))?;
        }
    }
    Ok(runs)
}

/// The maximal runs of all tuples of these pieces, which rise in the order of reverse mappings, of
/// which no two have a common tuple, and whose numbers and those of the blocks behind them fit. It
/// costs two binary searches and a byte for each piece, however many blocks that has
/// (XFS Online Fsck Design, "Case Study: Rebuilding Reverse Mapping Records").
pub fn join_pieces(alloc: Global, pieces: &[RmapRec]) -> Result<Vec<RmapRec>, Memory>
    requires { ArePieces pieces.now }
    ensures value { IfOk result (λ runs. runs.items ≡ joined_pieces pieces.now) }
    ensures exact { (ts : List Tuple) → AreTuplesOf ts pieces.now → IfOk result (λ runs. AreRuns ts runs.items) }
{
    Ok(joined_by(alloc, pieces)?)
}
