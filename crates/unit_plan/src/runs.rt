// The maximal runs of the owners, made of the pieces in their places.
ghost use Rattle.std.specs.Prelude.{◌≡◌, ◌↔◌, ◌≢◌, ◌<◌, ◌≤◌, ◌+◌, ◌^◌, ℕ, true, false, All, Contains, IfSome, IsNone, IsTrue, List, Some, get_or, length, map};
ghost use Rattle.std.specs.List.Sorted.{IsPermutation};
ghost use Rattle.rmap_recs.specs.Rmap.{can_join as can_join_of};
ghost use Rattle.rmap_recs.specs.Words.{word_goes_on};
ghost use Rattle.rmap_recs.specs.declared.records.RmapRec.{RmapRec as GhostRec};
ghost use Rattle.run_edits.specs.Edits.{is_before as is_before_of};
ghost use Rattle.run_edits.specs.Pieces.{ArePieces, joined_pieces};
ghost use Rattle.sblock.specs.Lists.{IsAhead, Rises};
ghost use Rattle.unit_plan.specs.Joined.{AreJoinedFrom, ClaimOnce, Fits, StandInRow, counted, key_in_order};
ghost use Rattle.unit_plan.specs.Lost.{of_piece};

use crate::piece::Piece;
use rmap_recs::{OFFSETS, RmapKind, RmapRec, is_fork_data};
use sblock::RecKind;
use std::alloc::{AllocError, Global};

/// The maximal runs of consecutive blocks with one owner and the same flags and, for blocks that a fork
/// maps, consecutive offsets, in the order of reverse mappings. They stand where the pieces stood that
/// they are made of.
#[derive(Drop)]
pub struct OwnerRuns {
    pieces: Vec<Piece>,
}

fn rec_of(piece: &Piece) -> RmapRec
    ensures { result ≡ of_piece piece.now }
{
    RmapRec {
        start: piece.run.start,
        count: piece.run.count,
        owner: piece.owner,
        word: piece.word,
    }
}

// What pieces are put in order by: start, owner, and the word without its unwritten flag.
fn sort_key(piece: &Piece) -> (u32, u64, u64)
    ensures { result ≡ key_in_order piece.now }
{
    let key = RmapKind::key_of(&rec_of(piece));
    (key.start, key.owner, key.word)
}

// Whether the piece comes before the record.
fn is_before(piece: &Piece, next: &RmapRec) -> bool
    ensures { result ≡ is_before_of (of_piece piece.now) next.now }
{
    RmapKind::is_before(&RmapKind::key_of(&rec_of(piece)), &RmapKind::key_of(next))
}

// The offset word that a record would have that goes on behind the run.
fn word_behind(run: &RmapRec) -> Option<u64>
    ensures { (next : ℕ) → word_goes_on run.now.owner run.now.word run.now.count next ≡ true → result ≡ Some next }
{
    if !is_fork_data(run.owner, run.word) {
        return Some(run.word);
    }
    if run.word % OFFSETS + u64::from(run.count) >= OFFSETS {
        return None;
    }
    Some(run.word + u64::from(run.count))
}

// Where the first piece stands that doesn't come before this record, halving what lies between two
// places: those in front of the first come before it, those from the second on don't.
fn place_between(pieces: &[Piece], from: usize, to: usize, next: &RmapRec) -> usize
    requires sorted { Rises is_before_of (map of_piece pieces.now) }
    requires order { from ≤ to }
    requires within { to ≤ length pieces.now }
    requires before { (k : ℕ) (d : GhostRec) → k < from → is_before_of (get_or (map of_piece pieces.now) k d) next.now ≡ true }
    requires others { (k : ℕ) (d : GhostRec) → to ≤ k → k < length pieces.now → is_before_of (get_or (map of_piece pieces.now) k d) next.now ≡ false }
    ensures within { result ≤ length pieces.now }
    ensures before { (k : ℕ) (d : GhostRec) → k < result → is_before_of (get_or (map of_piece pieces.now) k d) next.now ≡ true }
    ensures others { (k : ℕ) (d : GhostRec) → result ≤ k → k < length pieces.now → is_before_of (get_or (map of_piece pieces.now) k d) next.now ≡ false }
{
    let mut low = from;
    let mut high = to;
    while low < high {
        let middle = low + (high - low) / 2;
        if is_before(&pieces[middle], next) {
            low = middle + 1;
        } else {
            high = middle;
        }
    }
    low
}

// The same from one place on, by steps that double: they find a piece close by in one or two.
fn place_from(pieces: &[Piece], from: usize, next: &RmapRec) -> usize
    requires sorted { Rises is_before_of (map of_piece pieces.now) }
    requires within { from ≤ length pieces.now }
    requires before { (k : ℕ) (d : GhostRec) → k < from → is_before_of (get_or (map of_piece pieces.now) k d) next.now ≡ true }
    ensures within { result ≤ length pieces.now }
    ensures before { (k : ℕ) (d : GhostRec) → k < result → is_before_of (get_or (map of_piece pieces.now) k d) next.now ≡ true }
    ensures others { (k : ℕ) (d : GhostRec) → result ≤ k → k < length pieces.now → is_before_of (get_or (map of_piece pieces.now) k d) next.now ≡ false }
{
    let mut low = from;
    let mut stride = 1;
    while stride <= pieces.len() - low {
        let last = low + stride - 1;
        if !is_before(&pieces[last], next) {
            return place_between(pieces, low, last, next);
        }
        low = last + 1;
        stride = low - from;
    }
    place_between(pieces, low, pieces.len(), next)
}

// The same, looked for from the piece at the place on, where that comes before the record.
fn place_near(pieces: &[Piece], at: usize, next: &RmapRec) -> usize
    requires sorted { Rises is_before_of (map of_piece pieces.now) }
    requires within { at < length pieces.now }
    ensures within { result ≤ length pieces.now }
    ensures before { (k : ℕ) (d : GhostRec) → k < result → is_before_of (get_or (map of_piece pieces.now) k d) next.now ≡ true }
    ensures others { (k : ℕ) (d : GhostRec) → result ≤ k → k < length pieces.now → is_before_of (get_or (map of_piece pieces.now) k d) next.now ≡ false }
{
    if !is_before(&pieces[at], next) {
        return place_between(pieces, 0, at, next);
    }
    place_from(pieces, at + 1, next)
}

// The place of the piece that goes on behind the run of the piece at a place, where there is one.
fn place_behind(pieces: &[Piece], at: usize, run: &RmapRec) -> Option<usize>
    requires sorted { Rises is_before_of (map of_piece pieces.now) }
    requires within { at < length pieces.now }
    requires room { run.now.start + run.now.count < 2 ^ 32 }
    ensures found { IfSome result (λ i. (i < length pieces.now) × ((d : GhostRec) → can_join_of run.now (get_or (map of_piece pieces.now) i d) ≡ true)) }
    ensures none { IsNone result → (q : GhostRec) → Contains (map of_piece pieces.now) q → can_join_of run.now q ≡ false }
{
    let word = word_behind(run)?;
    let next = RmapRec {
        start: run.start + run.count,
        count: 1,
        owner: run.owner,
        word,
    };
    let place = place_near(pieces, at, &next);
    if place < pieces.len() && run.can_join(&rec_of(&pieces[place])) {
        return Some(place);
    }
    None
}

// Gives the piece so many blocks.
fn set_count(pieces: &mut [Piece], at: usize, count: u32)
    requires { at < length pieces.old }
    ensures long { length pieces.new ≡ length pieces.old }
    ensures there { (d : GhostRec) → get_or (map of_piece pieces.new) at d ≡ counted count (get_or (map of_piece pieces.old) at d) }
    ensures others { (k : ℕ) (d : GhostRec) → k ≢ at → get_or (map of_piece pieces.new) k d ≡ get_or (map of_piece pieces.old) k d }
{
    pieces[at].run.count = count;
}

// Joins the piece with the one that goes on behind it, where the later ones are joined.
fn join_at(pieces: &mut [Piece], at: usize)
    requires within { at < length pieces.old }
    requires sorted { Rises is_before_of (map of_piece pieces.old) }
    requires rooms { All Fits (map of_piece pieces.old) }
    ensures long { length pieces.new ≡ length pieces.old }
    ensures sorted { Rises is_before_of (map of_piece pieces.new) }
    ensures rooms { All Fits (map of_piece pieces.new) }
    ensures joined { (recs : List GhostRec) → ArePieces recs → AreJoinedFrom recs (at + 1) (map of_piece pieces.old) → AreJoinedFrom recs at (map of_piece pieces.new) }
{
    let run = rec_of(&pieces[at]);
    if let Some(behind) = place_behind(pieces, at, &run) {
        let more = pieces[behind].run.count;
        set_count(pieces, at, run.count + more);
        set_count(pieces, behind, 0);
    }
}

// Joins all of them, from the last to the first.
fn join_all(pieces: &mut [Piece])
    requires sorted { Rises is_before_of (map of_piece pieces.old) }
    requires rooms { All Fits (map of_piece pieces.old) }
    ensures long { length pieces.new ≡ length pieces.old }
    ensures sorted { Rises is_before_of (map of_piece pieces.new) }
    ensures joined { ArePieces (map of_piece pieces.old) → AreJoinedFrom (map of_piece pieces.old) 0 (map of_piece pieces.new) }
{
    let mut left = pieces.len();
    while left > 0 {
        left -= 1;
        join_at(pieces, left);
    }
}

// Whether a block behind the piece has a number.
fn fits(piece: &Piece) -> bool
    ensures { IsTrue result ↔ Fits (of_piece piece.now) }
{
    u64::from(piece.run.start) + u64::from(piece.run.count) < 1 << 32
}

// Whether the piece comes before the first of those behind it.
fn is_ahead(piece: &Piece, later: &[Piece]) -> bool
    ensures { IsTrue result ↔ IsAhead is_before_of (of_piece piece.now) (map of_piece later.now) }
{
    match later.split_first() {
        None => true,
        Some((next, _)) => is_before(piece, &rec_of(next)),
    }
}

// Whether the pieces rise in the order of reverse mappings, and a block behind each has a number.
fn stand_in_row(pieces: &[Piece]) -> bool
    ensures { IsTrue result ↔ StandInRow (map of_piece pieces.now) }
{
    let mut rest = pieces;
    while let Some((piece, later)) = rest.split_first() {
        if !fits(piece) || !is_ahead(piece, later) {
            return false;
        }
        rest = later;
    }
    true
}

// Puts pieces in a row, and says whether they stand in one; they are sorted only where they don't yet.
fn put_in_row(pieces: &mut Vec<Piece>) -> bool
    ensures kept { IsPermutation pieces.old.items pieces.new.items }
    ensures row { IsTrue result → StandInRow (map of_piece pieces.new.items) }
    ensures once { ClaimOnce pieces.old.items → IsTrue result }
{
    if stand_in_row(pieces.as_slice()) {
        return true;
    }
    pieces.sort_unstable_by_key(|piece| sort_key(piece));
    stand_in_row(pieces.as_slice())
}

// Joins pieces that stand in a row, and leaves those that are left.
fn joined(mut pieces: Vec<Piece>) -> Vec<Piece>
    requires { StandInRow (map of_piece pieces.items) }
    ensures rising { Rises is_before_of (map of_piece result.items) }
    ensures exact { ArePieces (map of_piece pieces.items) → map of_piece result.items ≡ joined_pieces (map of_piece pieces.items) }
{
    join_all(&mut pieces);
    pieces.retain(|piece| piece.run.count > 0);
    pieces
}

impl OwnerRuns {
    ghost use Rattle.std.specs.Prelude.{◌≡◌, ◌<◌, IfOk, List, get_or, length};
    ghost use Rattle.rmap_recs.specs.Runs.{AreRuns};
    ghost use Rattle.rmap_recs.specs.declared.records.RmapRec.{RmapRec as OneRec};
    ghost use Rattle.rmap_recs.specs.declared.tuples.Tuple.{Tuple};
    ghost use Rattle.run_edits.specs.Edits.{is_before};
    ghost use Rattle.run_edits.specs.Pieces.{AreTuplesOf};
    ghost use Rattle.sblock.specs.Lists.{Rises};
    ghost use Rattle.unit_plan.specs.Joined.{ClaimOnce, runs_of};

    // The runs of these pieces; none where some two of them have a common block, owner and offset, or
    // a block behind one has no number.
    pub(crate) fn of_pieces(mut pieces: Vec<Piece>) -> Self
        ensures rising { Rises is_before (runs_of result) }
        ensures exact { ClaimOnce pieces.items → (ts : List Tuple) → AreTuplesOf ts (map of_piece pieces.items) → AreRuns ts (runs_of result) }
    {
        if !put_in_row(&mut pieces) {
            pieces.clear();
            return OwnerRuns { pieces };
        }
        OwnerRuns {
            pieces: joined(pieces),
        }
    }

    /// How many runs there are.
    pub fn len(&self) -> usize
        ensures { result ≡ length (runs_of self.now) }
    {
        self.pieces.len()
    }

    /// Run number `i`, counted from 0, in the order of reverse mappings.
    pub fn run(&self, i: usize) -> RmapRec
        requires { i < length (runs_of self.now) }
        ensures { (d : OneRec) → result ≡ get_or (runs_of self.now) i d }
    {
        rec_of(&self.pieces[i])
    }

    /// All runs, in the order of reverse mappings.
    pub(crate) fn records(&self, alloc: Global) -> Result<Vec<RmapRec>, AllocError>
        ensures { IfOk result (λ recs. recs.items ≡ runs_of self.now) }
    {
        self.pieces.iter().map(|piece| rec_of(piece)).collect(alloc)
    }
}
