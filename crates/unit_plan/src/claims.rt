use crate::lost::{of_old, unclaimed, unlisted};
use crate::order::shown;
use crate::piece::{Among, Memory, Piece};
use crate::runs::OwnerRuns;
use crate::sorting::sort_by_start;
use crate::spare::{SpaceTrust, lowest_for, may_spare};
use crate::sweep::{first_met, firsts_on};
use fs_model::{Evidence, Unit};
use rmap_recs::RmapRec;
use run_sets::Run;
use span_recs::SpanRec;
use std::alloc::Global;

/// The claims on the blocks of a group, as pieces that are handed in in any order. A piece takes
/// at most 40 bytes, however many blocks it has
/// (XFS Online Fsck Design, "Cross-Referencing Space Metadata").
#[derive(Drop)]
pub struct ClaimSet {
    pieces: Vec<Piece>,
}

impl ClaimSet {
    ghost use Rattle.std.specs.Prelude.{◌≡◌, [], ◌∷◌, ◌++◌, map, IfOk, OnOk, OnErr};
    ghost use Rattle.std.specs.List.Sorted.{IsPermutation};
    ghost use Rattle.derive_defs.specs.Mappings.{EndWithin};
    ghost use Rattle.run_sets.specs.Runs.{AreRunsBelow, EndWithin as RunsEnd};
    ghost use Rattle.rmap_recs.specs.Rmap.{rmap_form};
    ghost use Rattle.run_edits.specs.Edits.{is_before};
    ghost use Rattle.sblock.specs.Blocks.{IsRising};
    ghost use Rattle.sblock.specs.Lists.{Rises};
    ghost use Rattle.unit_plan.specs.Joined.{AreRunsOf, ClaimOnce, runs_of};
    ghost use Rattle.unit_plan.specs.Lost.{is_of_old, is_unclaimed, is_unlisted};
    ghost use Rattle.unit_plan.specs.Sets.{pieces_of, IsFirstOverlap, LieBelow};
    ghost use Rattle.unit_plan.specs.Spans.{MappingsRise, SpansFit, span_run};
    ghost use Rattle.unit_plan.specs.Spare.{IsLowest, is_spare};

    /// No claims. It takes no memory.
    pub fn new(alloc: Global) -> Self
        ensures { pieces_of result ≡ [] }
    {
        ClaimSet {
            pieces: Vec::new(alloc),
        }
    }

    /// Adds a piece. Without memory the set stays as it is.
    pub fn put(&mut self, piece: Piece) -> Result<(), Memory>
        ensures added { OnOk result (pieces_of self.new ≡ pieces_of self.old ++ piece ∷ []) }
        ensures unchanged { OnErr result (pieces_of self.new ≡ pieces_of self.old) }
    {
        self.pieces.push(piece)?;
        Ok(())
    }

    /// The lowest block with two claims that can't stand together, and the first two claims on it
    /// in the claims' order; two claims can where both are written file data. It takes no memory.
    /// The pieces are sorted in their place, for little where they rise but for a few, and then
    /// walked along twice.
    pub fn first_overlap(&mut self, among: Among) -> Option<Evidence>
        ensures exact { IsFirstOverlap among (pieces_of self.old) result }
        ensures kept { IsPermutation (pieces_of self.old) (pieces_of self.new) }
    {
        sort_by_start(&mut self.pieces);
        let pieces = self.pieces.as_slice();
        match first_met(pieces, among) {
            None => None,
            Some(block) => shown(firsts_on(pieces, among, block), block),
        }
    }

    /// The lowest spare block for the unit: of free space, a block of the derived free space, where
    /// the reverse mappings aren't sick; of reverse mappings, one that the btree by start lists and
    /// nothing claims, where that btree isn't sick; of the others, one that it lists, no reverse
    /// mapping covers and none of the group's own metadata claims, where none of the three is sick.
    /// `free` are the records of the first list named. It takes no memory
    /// (XFS Online Fsck Design, "Metadata Repair").
    pub fn lowest_spare(
        &mut self,
        unit: Unit,
        trust: SpaceTrust,
        free: &[SpanRec],
        mappings: &[RmapRec],
    ) -> Option<u32>
        requires free { SpansFit free.now }
        requires mappings { MappingsRise mappings.now }
        ensures exact { IsLowest (is_spare unit trust free.now mappings.now (pieces_of self.old)) result }
        ensures kept { IsPermutation (pieces_of self.old) (pieces_of self.new) }
    {
        sort_by_start(&mut self.pieces);
        if !may_spare(unit, trust) {
            return None;
        }
        lowest_for(unit, free, mappings, self.pieces.as_slice())
    }

    /// The maximal runs of all owners: what the reverse mapping btree of a group must hold whose claims
    /// these are. The runs are made of the pieces in their places: it takes no memory, sorts pieces that
    /// aren't in order yet, and finds the one that goes on behind a piece in steps that double, mostly in
    /// one or two. Of pieces that claim a block twice for one owner at one offset only the order of the
    /// answer is said
    /// (XFS Online Fsck Design, "Case Study: Rebuilding Reverse Mapping Records").
    pub fn into_runs(self) -> OwnerRuns
        ensures rising { Rises is_before (runs_of result) }
        ensures exact { ClaimOnce (pieces_of self) → AreRunsOf (pieces_of self) (runs_of result) }
    {
        OwnerRuns::of_pieces(self.pieces)
    }

    /// The same as a list of records, with memory for a record a run
    /// (XFS Online Fsck Design, "Case Study: Rebuilding Reverse Mapping Records").
    pub fn into_mappings(self, alloc: Global) -> Result<Vec<RmapRec>, Memory>
        ensures rising { IfOk result (λ recs. IsRising rmap_form recs.items) }
        ensures exact { ClaimOnce (pieces_of self) → IfOk result (λ recs. AreRunsOf (pieces_of self) recs.items) }
    {
        Ok(self.into_runs().records(alloc)?)
    }

    /// The limbo of a switch of reverse mappings: the maximal runs of the blocks of a group of `length`
    /// blocks that nothing claims, the old btree of reverse mappings aside, and that the btree of free
    /// space by start doesn't list. `free` are its records; where it can't be read, nothing is lost.
    /// It takes memory for a record a piece, however many blocks that has
    /// (XFS Online Fsck Design, "Reaping After Repairing Ondisk Metadata").
    pub fn lost_unlisted(
        &self,
        alloc: Global,
        length: u32,
        free: &[SpanRec],
    ) -> Result<Vec<Run>, Memory>
        requires pieces { LieBelow length (pieces_of self.now) }
        requires free { RunsEnd length (map span_run free.now) }
        ensures { IfOk result (λ runs. AreRunsBelow (is_unlisted free.now (pieces_of self.now)) length runs.items) }
    {
        Ok(unlisted(alloc, length, self.pieces.as_slice(), free)?)
    }

    /// The limbo of a switch of inodes: the maximal runs of the blocks of a group of `length` blocks that
    /// the old inode btrees have which could be read; `ino` and `fino` say whether each could. It takes
    /// memory for a record a piece (XFS Online Fsck Design, "Reaping After Repairing Ondisk Metadata").
    pub fn lost_trees(
        &self,
        alloc: Global,
        length: u32,
        ino: bool,
        fino: bool,
    ) -> Result<Vec<Run>, Memory>
        requires { LieBelow length (pieces_of self.now) }
        ensures { IfOk result (λ runs. AreRunsBelow (is_of_old ino fino (pieces_of self.now)) length runs.items) }
    {
        Ok(of_old(alloc, length, self.pieces.as_slice(), ino, fino)?)
    }

    /// The limbo of a switch of free space or of reference counts: the maximal runs of the blocks of a group of `length`
    /// blocks that the reverse mappings give to the unit's owner and that nothing claims, the unit's old
    /// btrees aside. It takes memory for a record a piece and for the owner's mappings
    /// (XFS Online Fsck Design, "Reaping After Repairing Ondisk Metadata").
    pub fn lost_unclaimed(
        &self,
        alloc: Global,
        unit: Unit,
        length: u32,
        owner: u64,
        mappings: &[RmapRec],
    ) -> Result<Vec<Run>, Memory>
        requires pieces { LieBelow length (pieces_of self.now) }
        requires mappings { EndWithin length mappings.now }
        ensures { IfOk result (λ runs. AreRunsBelow (is_unclaimed unit owner mappings.now (pieces_of self.now)) length runs.items) }
    {
        let pieces = self.pieces.as_slice();
        Ok(unclaimed(alloc, unit, length, pieces, owner, mappings)?)
    }
}
