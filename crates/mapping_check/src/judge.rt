ghost use Rattle.std.specs.Prelude.{◌≡◌, ◌+◌, ◌<◌, ◌≤◌, ◌^◌, All, Some, IfErr, IfOk, List};
ghost use Rattle.blk_device.specs.Causes.{HasCause};
ghost use Rattle.blk_device.specs.Contents.{Contents};
ghost use Rattle.blk_device.specs.Reading.{OnlyRead};
ghost use Rattle.blk_device.specs.declared.device.Region.TheVariants.{Image};
ghost use Rattle.fs_state.specs.Kinds.{Image as ImageOf, heads_of};
ghost use Rattle.geom.specs.Layout.{group_len_of};
ghost use Rattle.geom.specs.Places.{layout};
ghost use Rattle.group_trees.specs.Counted.{trees_most};
ghost use Rattle.group_trees.specs.Group.{AreInside, AreSoundTrees};
ghost use Rattle.group_trees.specs.Heads.{heads_seen};
ghost use Rattle.group_trees.specs.Trees.{RisesIfRead, reading_of};
ghost use Rattle.inode_pass.specs.Stops.{is_failed};
ghost use Rattle.mapping_check.specs.Mapped.{AreMaps, IsApartJudged, IsClaimDecided, IsForkDecided, IsMappingJudged, WhereRead, mapping_faults as mapping_faults_of};
ghost use Rattle.rmap_recs.specs.Rmap.{rmap_form};
ghost use Rattle.sblock.specs.Blocks.{IsRising};
ghost use Rattle.tree_walk.specs.Trails.{LieInside};
ghost use Rattle.unit_plan.specs.Sets.{pieces_of};
ghost use Rattle.unit_plan.specs.declared.piece.Piece.{Piece as PieceOf};

use ag_headers::Agf;
use blk_cache::BlkCache;
use blk_device::Device;
use byte_fields::Steps;
use claim_laws::{good_forks, mappings_of_group, overlap_of_group};
use fs_model::{Counter, Fault};
use geom::Geometry;
use group_trees::{GroupHeads, GroupTrees, TreeSeen, put_metadata, read_trees};
use inode_pass::PassStop;
use quiet_check::{Judged, add_counter, blocks_in, index_faults, later_in};
use rmap_recs::{RmapKind, RmapRec};
use sblock::Kind;
use std::alloc::{AllocError, Global};
use std::sync::ledger::Ledger;
use unit_plan::{Among, ClaimSet};

// The faults of the btree against what is derived, and of its counter.
#[tactic(auto, unfolding(crate::specs::Mapped::mapping_faults))]
fn mapping_faults(
    alloc: Global,
    agf: &Agf,
    recs: &[RmapRec],
    rmap: &TreeSeen<RmapRec>,
) -> Result<Vec<Fault>, AllocError>
    requires recs { IsRising rmap_form recs.now }
    requires rmap { RisesIfRead rmap_form rmap.now }
    ensures { IfOk result (λ faults. faults.items ≡ mapping_faults_of agf.now recs.now (reading_of rmap.now)) }
{
    let mut faults = index_faults::<RmapKind>(alloc, rmap, recs)?;
    let blocks = blocks_in(true, rmap);
    add_counter(&mut faults, Counter::RmapBlocks, agf.rmap_blocks, blocks)?;
    Ok(faults)
}

// Judges by the claims, where no two of them overlap.
fn judge_records(
    alloc: Global,
    geo: &Geometry,
    g: u32,
    agf: &Agf,
    trees: &GroupTrees,
    set: ClaimSet,
) -> Result<Judged, PassStop>
    requires group { g < geo.now.agcount }
    requires trees { AreSoundTrees (layout geo.now) g trees.now }
    ensures exact { IfOk result (λ judged. (image : ImageOf) (ps : List PieceOf) → IsApartJudged (layout geo.now) image g agf.now trees.now ps (pieces_of set) judged) }
    ensures own { IfErr result (λ stop. stop ≡ PassStop.Memory) }
{
    mappings_of_group();
    good_forks();
    let recs = set.into_mappings(alloc).map_err(|_| PassStop::Memory)?;
    let faults = mapping_faults(alloc, agf, recs.as_slice(), &trees.rmap)?;
    Ok(Judged::Faults(faults))
}

// Judges by all claims on the group's blocks.
fn judge_claims(
    alloc: Global,
    geo: &Geometry,
    g: u32,
    agf: &Agf,
    trees: &GroupTrees,
    mut set: ClaimSet,
) -> Result<Judged, PassStop>
    requires group { g < geo.now.agcount }
    requires trees { AreSoundTrees (layout geo.now) g trees.now }
    ensures exact { IfOk result (λ judged. (image : ImageOf) → AreMaps (layout geo.now) image g agf.now trees.now (pieces_of set) → IsClaimDecided (layout geo.now) image g judged) }
    ensures own { IfErr result (λ stop. stop ≡ PassStop.Memory) }
{
    overlap_of_group();
    good_forks();
    match set.first_overlap(Among::All) {
        Some(found) => Ok(Judged::GaveUp(found)),
        None => judge_records(alloc, geo, g, agf, trees, set),
    }
}

// Puts the group's own metadata to the claims of the forks, and judges by all.
fn judge_all_claims(
    alloc: Global,
    geo: &Geometry,
    g: u32,
    heads: &GroupHeads,
    trees: &GroupTrees,
    chunks: &[u32],
    mut set: ClaimSet,
) -> Result<Judged, PassStop>
    requires group { g < geo.now.agcount }
    requires list { LieInside (group_len_of (layout geo.now) g) heads.now.list.items }
    requires trees { AreSoundTrees (layout geo.now) g trees.now }
    requires chunks { AreInside (group_len_of (layout geo.now) g) chunks.now }
    requires small { All (λ u. u < 2 ^ 26) chunks.now }
    ensures exact { IfOk result (λ judged. WhereRead (layout geo.now) g heads.now trees.now (λ image. IsForkDecided (layout geo.now) image g chunks.now set judged)) }
    ensures own { IfErr result (λ stop. stop ≡ PassStop.Memory) }
{
    let list = heads.list.as_slice();
    put_metadata(&mut set, geo.log, g, list, trees, chunks).map_err(|_| PassStop::Memory)?;
    judge_claims(alloc, geo, g, &heads.agf, trees, set)
}

// Judges by the trees and the claims of the forks.
fn judge_trees(
    alloc: Global,
    geo: &Geometry,
    g: u32,
    heads: &GroupHeads,
    trees: &GroupTrees,
    chunks: &[u32],
    set: ClaimSet,
) -> Result<Judged, PassStop>
    requires group { g < geo.now.agcount }
    requires list { LieInside (group_len_of (layout geo.now) g) heads.now.list.items }
    requires trees { AreSoundTrees (layout geo.now) g trees.now }
    requires chunks { AreInside (group_len_of (layout geo.now) g) chunks.now }
    requires small { All (λ u. u < 2 ^ 26) chunks.now }
    ensures exact { IfOk result (λ judged. WhereRead (layout geo.now) g heads.now trees.now (λ image. IsMappingJudged (layout geo.now) image g chunks.now set judged)) }
    ensures own { IfErr result (λ stop. stop ≡ PassStop.Memory) }
{
    match later_in(Kind::Rmap, &trees.rmap) {
        Some(found) => Ok(Judged::GaveUp(found)),
        None => judge_all_claims(alloc, geo, g, heads, trees, chunks, set),
    }
}

/// Judges the reverse mappings of group `g`, whose heads were accepted, once the forks of all inodes
/// were read and none is bad: `chunks` are the units of the group's chunks, and `set` has the claims of
/// all forks on its blocks. The first evidence that contradicts the derivation, or else the faults of
/// the btree and of its counter. A device that failed and want of memory are the refusals, and nothing
/// is written (XFS Online Fsck Design, "Cross-Referencing Space Metadata").
pub fn judge_mappings<D: Device, L: Ledger>(
    alloc: Global,
    dev: &mut D,
    geo: &Geometry,
    g: u32,
    heads: &GroupHeads,
    chunks: &[u32],
    set: ClaimSet,
    steps: &mut Steps<L>,
) -> Result<Judged, PassStop>
    requires group { g < geo.now.agcount }
    requires room { geo.now.dblocks ≤ D.blocks dev.old Image }
    requires list { LieInside (group_len_of (layout geo.now) g) heads.now.list.items }
    requires chunks { AreInside (group_len_of (layout geo.now) g) chunks.now }
    requires small { All (λ u. u < 2 ^ 26) chunks.now }
    requires heads { (c : Contents) → D.content dev.old ≡ Some c → heads_seen heads.now ≡ heads_of (layout geo.now) (c Image) g }
    ensures exact { IfOk result (λ judged. (c : Contents) → D.content dev.old ≡ Some c → IsMappingJudged (layout geo.now) (c Image) g chunks.now set judged) }
    ensures reading { OnlyRead D.Device dev.old dev.new steps.old steps.new }
    ensures cause { HasCause is_failed (D.faults dev.old) (D.faults dev.new) result }
    ensures counted { (c : Contents) → D.content dev.old ≡ Some c → steps.new.reads ≤ steps.old.reads + trees_most (layout geo.now) (c Image) g }
{
    let mut cache = BlkCache::new(alloc, 0).map_err(|_| PassStop::Memory)?;
    let trees = read_trees(alloc, dev, &mut cache, geo, g, heads, steps)?;
    judge_trees(alloc, geo, g, heads, &trees, chunks, set)
}
