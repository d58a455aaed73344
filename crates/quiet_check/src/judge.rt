ghost use Rattle.std.specs.Prelude.{◌≡◌, ◌+◌, ◌<◌, ◌≤◌, [], Some, None, IfOk, IfErr};
ghost use Rattle.blk_cache.specs.Cache.{AgreesTold};
ghost use Rattle.blk_device.specs.Causes.{HasCause};
ghost use Rattle.blk_device.specs.Contents.{Contents};
ghost use Rattle.blk_device.specs.Reading.{OnlyRead};
ghost use Rattle.blk_device.specs.declared.device.Region.TheVariants.{Image};
ghost use Rattle.fs_model.specs.declared.unit.Unit.TheVariants as units;
ghost use Rattle.fs_state.specs.Kinds.{heads_of};
ghost use Rattle.geom.specs.Layout.{group_len_of};
ghost use Rattle.geom.specs.Places.{layout};
ghost use Rattle.inode_pass.specs.Notes.{AreFit};
ghost use Rattle.inode_pass.specs.Stops.{is_failed};
ghost use Rattle.inode_pass.specs.Units.{opened_state};
ghost use Rattle.group_trees.specs.Group.{AreSoundTrees};
ghost use Rattle.group_trees.specs.Heads.{heads_seen};
ghost use Rattle.quiet_check.specs.Chunks.{chunk_numbers};
ghost use Rattle.quiet_check.specs.Counted.{inodes_most, unless_decided};
ghost use Rattle.quiet_check.specs.Judged.{AreUnitsOf, IsCoreJudged, IsCoreJudgedBy, IsFaultJudged, IsInodeJudgedBy, IsJudged, IsOverlapJudged, WhereGathered, cores_in, overlap_of};
ghost use Rattle.quiet_check.specs.Kept.{IsInside, IsKeptAs, IsKeptBy, IsKeptOf, WhereNoted};
ghost use Rattle.quiet_check.specs.Units.{AreListed, evidence_in};
ghost use Rattle.quiet_check.specs.declared.judge.Judged.TheVariants.{GaveUp};
ghost use Rattle.tree_walk.specs.Trails.{LieInside};

use crate::chunks::{chunks_of, first_bad_chunk};
use crate::evidence::tree_evidence;
use crate::faults::inode_faults;
use crate::units::{Listed, list_units};
use blk_cache::BlkCache;
use blk_device::Device;
use byte_fields::Steps;
use fs_model::{Evidence, Fault};
use geom::Geometry;
use group_trees::{GroupHeads, GroupTrees, metadata_overlap, read_trees};
use index_derive::{UnitCores, inode_records};
use inode_pass::{ForkNote, GroupInodes, PassStop, UnitSeen, see_units};
use std::alloc::{AllocError, Global};
use std::sync::ledger::Ledger;

/// What the check of a unit found: its faults, in the order of a report, or the first evidence for
/// which it can't be judged (XFS Online Fsck Design, "Metadata Scrubbing").
#[derive(Drop)]
pub enum Judged {
    Faults(Vec<Fault>),
    GaveUp(Evidence),
}

/// What the check of a group's inodes found, and what is kept of them for what claims their forks: the
/// group's chunks, and what the cores show of the forks; nothing where the inodes couldn't be judged
/// (XFS Online Fsck Design, "Metadata Scrubbing").
#[derive(Drop)]
pub struct InodesJudged {
    pub judged: Judged,
    pub inodes: GroupInodes,
}

// The inodes can't be judged, so nothing of them is kept.
fn given_up(alloc: Global, evidence: Evidence) -> InodesJudged
    ensures judged { result.judged ≡ GaveUp evidence }
    ensures chunks { result.inodes.chunks.items ≡ [] }
    ensures notes { result.inodes.notes.items ≡ [] }
{
    InodesJudged {
        judged: Judged::GaveUp(evidence),
        inodes: GroupInodes {
            chunks: Vec::new(alloc),
            notes: Vec::new(alloc),
        },
    }
}

// What the cores of the units say.
fn cores_of(alloc: Global, seen: &[UnitSeen]) -> Result<Vec<UnitCores>, AllocError>
    ensures { IfOk result (λ cores. cores.items ≡ cores_in seen.now) }
{
    let mut cores = Vec::new(alloc);
    for unit in seen {
        cores.push(unit.cores)?;
    }
    Ok(cores)
}

// The faults of the inode btrees, where nothing stands in the way.
fn judge_records(
    alloc: Global,
    geo: &Geometry,
    g: u32,
    heads: &GroupHeads,
    trees: &GroupTrees,
    seen: &[UnitSeen],
) -> Result<Judged, PassStop>
    requires group { g < geo.now.agcount }
    requires trees { AreSoundTrees (layout geo.now) g trees.now }
    requires units { AreUnitsOf (layout geo.now) g trees.now seen.now }
    ensures exact { IfOk result (λ judged. WhereGathered (layout geo.now) g heads.now trees.now seen.now (λ image. IsFaultJudged (layout geo.now) image g judged)) }
    ensures own { IfErr result (λ stop. stop ≡ PassStop.Memory) }
{
    let cores = cores_of(alloc, seen)?;
    let recs = inode_records(alloc, cores.as_slice())?;
    let faults = inode_faults(alloc, geo.inobtcount, &heads.agi, recs.as_slice(), trees)?;
    Ok(Judged::Faults(faults))
}

// The first overlap of the group's own metadata, with these chunks, whose cores all verify.
fn overlap_in(
    alloc: Global,
    geo: &Geometry,
    g: u32,
    heads: &GroupHeads,
    trees: &GroupTrees,
    seen: &[UnitSeen],
    chunks: &[u32],
) -> Result<Option<Evidence>, PassStop>
    requires group { g < geo.now.agcount }
    requires list { LieInside (group_len_of (layout geo.now) g) heads.now.list.items }
    requires trees { AreSoundTrees (layout geo.now) g trees.now }
    requires units { AreUnitsOf (layout geo.now) g trees.now seen.now }
    requires chunks { chunks.now ≡ chunk_numbers seen.now }
    ensures exact { IfOk result (λ found. WhereGathered (layout geo.now) g heads.now trees.now seen.now (λ image. found ≡ overlap_of (opened_state (layout geo.now) image) g)) }
    ensures own { IfErr result (λ stop. stop ≡ PassStop.Memory) }
{
    let list = heads.list.as_slice();
    metadata_overlap(alloc, geo, g, list, trees, chunks).map_err(|_| PassStop::Memory)
}

// The faults of the inode btrees, where nothing stands in the way, with what is kept of the inodes.
fn judge_kept(
    alloc: Global,
    geo: &Geometry,
    g: u32,
    heads: &GroupHeads,
    trees: &GroupTrees,
    seen: &[UnitSeen],
    inodes: GroupInodes,
) -> Result<InodesJudged, PassStop>
    requires group { g < geo.now.agcount }
    requires trees { AreSoundTrees (layout geo.now) g trees.now }
    requires units { AreUnitsOf (layout geo.now) g trees.now seen.now }
    requires chunks { inodes.chunks.items ≡ chunk_numbers seen.now }
    requires fit { AreFit (layout geo.now) g inodes.notes.items }
    ensures exact { IfOk result (λ found. WhereGathered (layout geo.now) g heads.now trees.now seen.now (λ image. IsFaultJudged (layout geo.now) image g found.judged)) }
    ensures kept { IfOk result (λ found. WhereNoted (layout geo.now) g heads.now trees.now seen.now inodes.notes.items (λ image. IsKeptAs (layout geo.now) image g found)) }
    ensures inside { IfOk result (λ found. IsInside (layout geo.now) g found.inodes) }
    ensures own { IfErr result (λ stop. stop ≡ PassStop.Memory) }
{
    let judged = judge_records(alloc, geo, g, heads, trees, seen)?;
    Ok(InodesJudged { judged, inodes })
}

// What decides once the cores of all chunks verify: an overlap of the group's own metadata, or the
// faults. The chunks and notes are kept where it is these.
fn judge_chunks(
    alloc: Global,
    geo: &Geometry,
    g: u32,
    heads: &GroupHeads,
    trees: &GroupTrees,
    seen: &[UnitSeen],
    notes: Vec<ForkNote>,
) -> Result<InodesJudged, PassStop>
    requires group { g < geo.now.agcount }
    requires list { LieInside (group_len_of (layout geo.now) g) heads.now.list.items }
    requires trees { AreSoundTrees (layout geo.now) g trees.now }
    requires units { AreUnitsOf (layout geo.now) g trees.now seen.now }
    requires fit { AreFit (layout geo.now) g notes.items }
    ensures exact { IfOk result (λ found. WhereGathered (layout geo.now) g heads.now trees.now seen.now (λ image. IsOverlapJudged (layout geo.now) image g found.judged)) }
    ensures kept { IfOk result (λ found. WhereNoted (layout geo.now) g heads.now trees.now seen.now notes.items (λ image. IsKeptAs (layout geo.now) image g found)) }
    ensures inside { IfOk result (λ found. IsInside (layout geo.now) g found.inodes) }
    ensures own { IfErr result (λ stop. stop ≡ PassStop.Memory) }
{
    let chunks = chunks_of(alloc, seen)?;
    let found = overlap_in(alloc, geo, g, heads, trees, seen, chunks.as_slice())?;
    match found {
        Some(found) => Ok(given_up(alloc, found)),
        None => {
            let inodes = GroupInodes { chunks, notes };
            judge_kept(alloc, geo, g, heads, trees, seen, inodes)
        }
    }
}

// What decides once the cores were read: a core of a chunk that doesn't verify, or what is left.
fn judge_gathered(
    alloc: Global,
    geo: &Geometry,
    g: u32,
    heads: &GroupHeads,
    trees: &GroupTrees,
    listed: &Listed,
    seen: &[UnitSeen],
    notes: Vec<ForkNote>,
) -> Result<InodesJudged, PassStop>
    requires group { g < geo.now.agcount }
    requires list { LieInside (group_len_of (layout geo.now) g) heads.now.list.items }
    requires trees { AreSoundTrees (layout geo.now) g trees.now }
    requires listed { AreListed (group_len_of (layout geo.now) g) trees.now listed.now }
    requires units { AreUnitsOf (layout geo.now) g trees.now seen.now }
    requires fit { AreFit (layout geo.now) g notes.items }
    ensures exact { IfOk result (λ found. WhereGathered (layout geo.now) g heads.now trees.now seen.now (λ image. IsCoreJudged (layout geo.now) image g found.judged)) }
    ensures kept { IfOk result (λ found. WhereNoted (layout geo.now) g heads.now trees.now seen.now notes.items (λ image. IsKeptAs (layout geo.now) image g found)) }
    ensures inside { IfOk result (λ found. IsInside (layout geo.now) g found.inodes) }
    ensures own { IfErr result (λ stop. stop ≡ PassStop.Memory) }
{
    let by_inodes = listed.by_inodes.as_slice();
    let by_owners = listed.by_owners.as_slice();
    match first_bad_chunk(by_inodes, by_owners, seen) {
        Some(found) => Ok(given_up(alloc, found)),
        None => judge_chunks(alloc, geo, g, heads, trees, seen, notes),
    }
}

// Reads the cores of the units that the trees list, and judges by them.
fn judge_cores<D: Device, L: Ledger>(
    alloc: Global,
    dev: &mut D,
    geo: &Geometry,
    g: u32,
    heads: &GroupHeads,
    trees: &GroupTrees,
    steps: &mut Steps<L>,
) -> Result<InodesJudged, PassStop>
    requires group { g < geo.now.agcount }
    requires room { geo.now.dblocks ≤ D.blocks dev.old Image }
    requires list { LieInside (group_len_of (layout geo.now) g) heads.now.list.items }
    requires trees { AreSoundTrees (layout geo.now) g trees.now }
    ensures exact { IfOk result (λ found. (c : Contents) → D.content dev.old ≡ Some c → IsCoreJudgedBy (layout geo.now) (c Image) g heads.now trees.now found.judged) }
    ensures kept { IfOk result (λ found. (c : Contents) → D.content dev.old ≡ Some c → IsKeptBy (layout geo.now) (c Image) g heads.now trees.now found) }
    ensures inside { IfOk result (λ found. IsInside (layout geo.now) g found.inodes) }
    ensures reading { OnlyRead D.Device dev.old dev.new steps.old steps.new }
    ensures cause { HasCause is_failed (D.faults dev.old) (D.faults dev.new) result }
    ensures few { steps.new.reads ≤ steps.old.reads + group_len_of (layout geo.now) g }
{
    let listed = list_units(alloc, geo.group_len(g), trees)?;
    let units = listed.either.as_slice();
    let mut notes = Vec::new(alloc);
    let seen = see_units(alloc, dev, geo, g, units, &mut notes, steps)?;
    judge_gathered(alloc, geo, g, heads, trees, &listed, seen.as_slice(), notes)
}

// Judges the inodes of a group by its trees.
fn judge_trees<D: Device, L: Ledger>(
    alloc: Global,
    dev: &mut D,
    geo: &Geometry,
    g: u32,
    heads: &GroupHeads,
    trees: &GroupTrees,
    steps: &mut Steps<L>,
) -> Result<InodesJudged, PassStop>
    requires group { g < geo.now.agcount }
    requires room { geo.now.dblocks ≤ D.blocks dev.old Image }
    requires list { LieInside (group_len_of (layout geo.now) g) heads.now.list.items }
    requires trees { AreSoundTrees (layout geo.now) g trees.now }
    ensures exact { IfOk result (λ found. (c : Contents) → D.content dev.old ≡ Some c → IsInodeJudgedBy (layout geo.now) (c Image) g heads.now trees.now found.judged) }
    ensures kept { IfOk result (λ found. (c : Contents) → D.content dev.old ≡ Some c → IsKeptBy (layout geo.now) (c Image) g heads.now trees.now found) }
    ensures inside { IfOk result (λ found. IsInside (layout geo.now) g found.inodes) }
    ensures reading { OnlyRead D.Device dev.old dev.new steps.old steps.new }
    ensures cause { HasCause is_failed (D.faults dev.old) (D.faults dev.new) result }
    ensures few { steps.new.reads ≤ steps.old.reads + unless_decided (evidence_in trees.now) (group_len_of (layout geo.now) g) }
{
    match tree_evidence(trees) {
        Some(found) => Ok(given_up(alloc, found)),
        None => judge_cores(alloc, dev, geo, g, heads, trees, steps),
    }
}

/// Judges the inodes of group `g`, whose heads were accepted: the first evidence that contradicts
/// their derivation, or else the faults of the two inode btrees and of their counters; with these the
/// group's chunks and what their cores show of the forks. The six btrees of the group are read, and then,
/// where these don't decide, the cores of each unit that one of the two lists, once. A device that failed
/// and want of memory are the refusals, and nothing is written
/// (XFS Online Fsck Design, "Metadata Scrubbing").
pub fn judge_inodes<D: Device, L: Ledger>(
    alloc: Global,
    dev: &mut D,
    cache: &mut BlkCache,
    geo: &Geometry,
    g: u32,
    heads: &GroupHeads,
    steps: &mut Steps<L>,
) -> Result<InodesJudged, PassStop>
    requires group { g < geo.now.agcount }
    requires room { geo.now.dblocks ≤ D.blocks dev.old Image }
    requires agreed { AgreesTold cache.old (D.content dev.old) }
    requires list { LieInside (group_len_of (layout geo.now) g) heads.now.list.items }
    requires heads { (c : Contents) → D.content dev.old ≡ Some c → heads_seen heads.now ≡ heads_of (layout geo.now) (c Image) g }
    ensures exact { IfOk result (λ found. (c : Contents) → D.content dev.old ≡ Some c
        → IsJudged (opened_state (layout geo.now) (c Image)) g units.Inode found.judged) }
    ensures kept { IfOk result (λ found. (c : Contents) → D.content dev.old ≡ Some c → IsKeptOf (layout geo.now) (c Image) g found.inodes) }
    ensures inside { IfOk result (λ found. IsInside (layout geo.now) g found.inodes) }
    ensures reading { OnlyRead D.Device dev.old dev.new steps.old steps.new }
    ensures cause { HasCause is_failed (D.faults dev.old) (D.faults dev.new) result }
    ensures agrees { AgreesTold cache.new (D.content dev.new) }
    ensures counted { (c : Contents) → D.content dev.old ≡ Some c → steps.new.reads ≤ steps.old.reads + inodes_most (layout geo.now) (c Image) g }
{
    let trees = read_trees(alloc, dev, cache, geo, g, heads, steps)?;
    judge_trees(alloc, dev, geo, g, heads, &trees, steps)
}
