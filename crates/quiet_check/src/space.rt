ghost use Rattle.std.specs.Prelude.{◌≡◌, ◌<◌, ◌≤◌, Some, IfOk, IfErr};
ghost use Rattle.blk_device.specs.Causes.{HasCause};
ghost use Rattle.blk_device.specs.Contents.{Contents};
ghost use Rattle.blk_device.specs.Reading.{OnlyRead};
ghost use Rattle.blk_device.specs.declared.device.Region.TheVariants.{Image};
ghost use Rattle.derive_defs.specs.Mappings.{StartsRise, EndWithin};
ghost use Rattle.geom.specs.Places.{layout};
ghost use Rattle.quiet_check.specs.Counted.{shared_reads};
ghost use Rattle.quiet_check.specs.Space.{IsFreeDecided, IsFreeJudged, IsSharedDecided, IsSharedJudged, later_read};
ghost use Rattle.rmap_recs.specs.Rmap.{rmap_form};
ghost use Rattle.space_check.specs.Groups.{free_reads};
ghost use Rattle.space_check.specs.Progress.{is_failed, HasRead, IsOutside};
ghost use Rattle.space_check.specs.Reads.{reading_of, RisesIfRead};
ghost use Rattle.span_recs.specs.Refcounts.{refc_form};
ghost use Rattle.span_recs.specs.Spans.{bno_form, cnt_form};
ghost use Rattle.tree_defs.specs.Sites.{bounds_of};
ghost use Rattle.tree_walk.specs.Trails.{AreSound};

use crate::evidence::later_fault;
use crate::judge::Judged;
use ag_headers::Agf;
use blk_cache::BlkCache;
use blk_device::Device;
use byte_fields::Steps;
use fs_model::Evidence;
use geom::Geometry;
use rmap_recs::RmapRec;
use sblock::Kind;
use space_check::{
    Halt, IndexRead, bno_tree, cnt_tree, judge_free, judge_shared, read_index, refc_tree,
};
use span_recs::{BnoKind, CntKind, RefcKind, RefcRec, SpanRec};
use std::alloc::{AllocError, Global};
use std::sync::ledger::Ledger;
use tree_walk::TreeRead;

// A tree with a form that isn't supported yet.
fn later_in<R>(kind: Kind, index: &IndexRead<R>) -> Option<Evidence>
    ensures { result ≡ later_read kind (reading_of index.now) }
{
    match index {
        IndexRead::Whole(_) => None,
        IndexRead::Bad { block, fault } => later_fault(kind, *block, *fault),
    }
}

// Judges free space by its trees.
fn judge_free_trees(
    alloc: Global,
    len: u32,
    agf: &Agf,
    mapped: &TreeRead<RmapRec>,
    bno: &IndexRead<SpanRec>,
    cnt: &IndexRead<SpanRec>,
) -> Result<Judged, AllocError>
    requires rising { StartsRise mapped.now.recs.items }
    requires within { EndWithin len mapped.now.recs.items }
    requires bno { RisesIfRead bno_form bno.now }
    requires cnt { RisesIfRead cnt_form cnt.now }
    ensures { IfOk result (IsFreeDecided len agf.now mapped.now bno.now cnt.now) }
{
    if let Some(found) = later_in(Kind::Bno, bno) {
        return Ok(Judged::GaveUp(found));
    }
    if let Some(found) = later_in(Kind::Cnt, cnt) {
        return Ok(Judged::GaveUp(found));
    }
    let faults = judge_free(alloc, len, agf, mapped, bno, cnt)?;
    Ok(Judged::Faults(faults))
}

// Judges reference counts by their tree.
fn judge_shared_tree(
    alloc: Global,
    agf: &Agf,
    mappings: &[RmapRec],
    refc: &IndexRead<RefcRec>,
) -> Result<Judged, AllocError>
    requires within { EndWithin 4294967295 mappings.now }
    requires refc { RisesIfRead refc_form refc.now }
    ensures { IfOk result (IsSharedDecided agf.now mappings.now refc.now) }
{
    if let Some(found) = later_in(Kind::Refc, refc) {
        return Ok(Judged::GaveUp(found));
    }
    let faults = judge_shared(alloc, agf, mappings, refc)?;
    Ok(Judged::Faults(faults))
}

/// Judges the free space of group `g`, by its AGF and by its reverse mappings as they were read: that
/// one of its two btrees has a form that isn't supported yet, or else the faults of the two and of
/// their counters. Each block of the two is read once. A device that failed and want of memory are the
/// refusals, and nothing is written
/// (XFS Online Fsck Design, "Cross-Referencing Space Metadata").
pub fn judge_free_space<D: Device, L: Ledger>(
    alloc: Global,
    dev: &mut D,
    geo: &Geometry,
    g: u32,
    agf: &Agf,
    mapped: &TreeRead<RmapRec>,
    steps: &mut Steps<L>,
) -> Result<Judged, Halt>
    requires group { g < geo.now.agcount }
    requires sound { AreSound rmap_form (bounds_of (layout geo.now) g) mapped.now.recs.items }
    requires room { geo.now.dblocks ≤ D.blocks dev.old Image }
    ensures exact { IfOk result (λ judged. (c : Contents) → D.content dev.old ≡ Some c → IsFreeJudged (layout geo.now) (c Image) g agf.now mapped.now judged) }
    ensures outside { IfErr result IsOutside }
    ensures counted { (c : Contents) → D.content dev.old ≡ Some c
        → HasRead steps.old.reads (free_reads (layout geo.now) (c Image) g agf.now) steps.new.reads result }
    ensures reading { OnlyRead D.Device dev.old dev.new steps.old steps.new }
    ensures cause { HasCause is_failed (D.faults dev.old) (D.faults dev.new) result }
{
    let mut cache = BlkCache::new(alloc, 0)?;
    let by_start = bno_tree(agf, g);
    let by_count = cnt_tree(agf, g);
    let bno = read_index::<BnoKind, D, L>(alloc, dev, &mut cache, geo, &by_start, steps)?;
    let cnt = read_index::<CntKind, D, L>(alloc, dev, &mut cache, geo, &by_count, steps)?;
    let judged = judge_free_trees(alloc, geo.group_len(g), agf, mapped, &bno, &cnt)?;
    Ok(judged)
}

/// Judges the reference counts of group `g`, by its AGF and by its reverse mappings as they were read:
/// that their btree has a form that isn't supported yet, or else the faults of it and of its counter.
/// Each of its blocks is read once. A device that failed and want of memory are the refusals, and
/// nothing is written (XFS Online Fsck Design, "Cross-Referencing Space Metadata").
pub fn judge_counts<D: Device, L: Ledger>(
    alloc: Global,
    dev: &mut D,
    geo: &Geometry,
    g: u32,
    agf: &Agf,
    mapped: &TreeRead<RmapRec>,
    steps: &mut Steps<L>,
) -> Result<Judged, Halt>
    requires group { g < geo.now.agcount }
    requires sound { AreSound rmap_form (bounds_of (layout geo.now) g) mapped.now.recs.items }
    requires room { geo.now.dblocks ≤ D.blocks dev.old Image }
    ensures exact { IfOk result (λ judged. (c : Contents) → D.content dev.old ≡ Some c → IsSharedJudged (layout geo.now) (c Image) g agf.now mapped.now judged) }
    ensures outside { IfErr result IsOutside }
    ensures counted { (c : Contents) → D.content dev.old ≡ Some c
        → HasRead steps.old.reads (shared_reads (layout geo.now) (c Image) g agf.now) steps.new.reads result }
    ensures reading { OnlyRead D.Device dev.old dev.new steps.old steps.new }
    ensures cause { HasCause is_failed (D.faults dev.old) (D.faults dev.new) result }
{
    let mut cache = BlkCache::new(alloc, 0)?;
    let counts = refc_tree(agf, g);
    let refc = read_index::<RefcKind, D, L>(alloc, dev, &mut cache, geo, &counts, steps)?;
    let judged = judge_shared_tree(alloc, agf, mapped.recs.as_slice(), &refc)?;
    Ok(judged)
}
