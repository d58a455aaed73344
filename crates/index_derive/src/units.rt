ghost use Rattle.std.specs.Prelude.{◌≡◌, ℕ, ◌+◌, ◌*◌, ◌/◌, ◌<◌, ◌≤◌, IfOk, get_or, length, map, filter};
ghost use Rattle.std.specs.List.Sorted.{IsNonDecreasingBy, IsPermutation};
ghost use Rattle.derive_defs.specs.Mappings.{StartsRise, blocks_of, EndWithin as MappingsEndWithin};
ghost use Rattle.fs_state.specs.State.{State};
ghost use Rattle.run_sets.specs.declared.run.Run.{Run as GhostRun};
ghost use Rattle.run_sets.specs.Runs.{most, runs_below, holds, AreMaximal};
ghost use Rattle.index_derive.specs.Units.{AreListedUnits, AreListings, has_chunks, has_inodes, is_listed_by, is_unit_below, listing_runs, unit_listed, units_in};

use crate::runs::joined_runs;
use ino_recs::InoRec;
use rmap_recs::RmapRec;
use run_sets::Run;
use std::alloc::{AllocError, Global};

// The blocks and the inodes of a unit.
const UNIT_BLOCKS: u64 = 8;

const UNIT_INODES: u32 = 64;

// The owner of chunks: -7 in two's complement.
const INODES: u64 = 0xffff_ffff_ffff_fff9;

// The blocks that reverse mappings give to chunks.
fn chunk_runs(alloc: Global, mappings: &[RmapRec]) -> Result<Vec<Run>, AllocError>
    ensures { IfOk result (λ runs. runs.items ≡ map blocks_of (filter has_inodes mappings.now)) }
{
    mappings
        .iter()
        .filter(|mapping| mapping.owner == INODES)
        .map(|mapping| Run {
            start: mapping.start,
            count: mapping.count,
        })
        .collect(alloc)
}

// The units, below a number, of which each block lies in the run.
#[tactic(auto, unfolding(crate::specs::Units::units_in))]
fn units_of(run: &Run, units: u32) -> Run
    ensures { result ≡ units_in units run.now }
{
    let end = u64::from(run.start) + u64::from(run.count);
    let end = (end / UNIT_BLOCKS).min(u64::from(units));
    let start = ((u64::from(run.start) + 7) / UNIT_BLOCKS).min(end);
    Run {
        start: start as u32,
        count: (end - start) as u32,
    }
}

// The units, below a number, that records of the inode btree list.
fn listed_chunks(alloc: Global, ino: &[InoRec], units: u32) -> Result<Vec<Run>, AllocError>
    ensures { IfOk result (λ runs. runs.items ≡ map unit_listed (filter (is_unit_below units) ino.now)) }
{
    ino.iter()
        .filter(|rec| rec.startino % UNIT_INODES == 0 && rec.startino / UNIT_INODES < units)
        .map(|rec| Run {
            start: rec.startino / UNIT_INODES,
            count: 1,
        })
        .collect(alloc)
}

// The units, below a number, of which all blocks lie in one of the runs.
fn whole_units(alloc: Global, blocks: &[Run], units: u32) -> Result<Vec<Run>, AllocError>
    ensures { IfOk result (λ runs. runs.items ≡ map (units_in units) blocks.now) }
{
    blocks.iter().map(|run| units_of(run, units)).collect(alloc)
}

// The units that one of the two btrees lists, as runs that rise by their starts and may overlap.
fn found_units(
    alloc: Global,
    units: u32,
    ino: &[InoRec],
    blocks: &[Run],
) -> Result<Vec<Run>, AllocError>
    ensures found { IfOk result (λ found. IsPermutation (listing_runs units ino.now blocks.now) found.items) }
    ensures rising { IfOk result (λ found. IsNonDecreasingBy (λ r. r.start) found.items) }
{
    let mut found = listed_chunks(alloc, ino, units)?;
    let whole = whole_units(alloc, blocks, units)?;
    found.extend_from_slice(whole.as_slice())?;
    found.sort_unstable_by_key(|run| run.start);
    Ok(found)
}

// The blocks of chunks, as maximal runs.
fn chunk_blocks(alloc: Global, mappings: &[RmapRec]) -> Result<Vec<Run>, AllocError>
    requires rising { StartsRise mappings.now }
    requires within { MappingsEndWithin most mappings.now }
    ensures maximal { IfOk result (λ runs. AreMaximal 0 runs.items) }
    ensures exact { IfOk result (λ runs. (b : ℕ) → holds runs.items b ≡ has_chunks mappings.now b) }
{
    let runs = chunk_runs(alloc, mappings)?;
    joined_runs(alloc, runs.as_slice())
}

fn units_by(
    alloc: Global,
    units: u32,
    ino: &[InoRec],
    blocks: &[Run],
) -> Result<Vec<Run>, AllocError>
    requires { units ≤ most }
    ensures maximal { IfOk result (λ found. AreMaximal 0 found.items) }
    ensures exact { IfOk result (λ found. (u : ℕ) → holds found.items u ≡ holds (listing_runs units ino.now blocks.now) u) }
{
    let found = found_units(alloc, units, ino, blocks)?;
    joined_runs(alloc, found.as_slice())
}

/// The aligned units of 64 inodes, by their number from the group's first block on, that one of two
/// btrees lists: the inode btree by a record, or the reverse mappings by giving all 8 blocks to
/// chunks. They are the maximal runs of units that lie within the group's length. A btree that can't be read
/// lists none. It costs two sorts, however many blocks a record has
/// (XFS Online Fsck Design, "Case Study: Rebuilding the AG Inode Records").
pub fn listed_units(
    alloc: Global,
    length: u32,
    ino: &[InoRec],
    mappings: &[RmapRec],
) -> Result<Vec<Run>, AllocError>
    requires rising { StartsRise mappings.now }
    requires within { MappingsEndWithin most mappings.now }
    ensures maximal { IfOk result (λ units. AreMaximal 0 units.items) }
    ensures value { IfOk result (λ units. units.items ≡ runs_below (is_listed_by ino.now mappings.now) (length / 8)) }
    ensures exact { (a : State) (g : ℕ) → AreListings a g length ino.now mappings.now
        → IfOk result (λ units. AreListedUnits a g length units.items) }
{
    let blocks = chunk_blocks(alloc, mappings)?;
    let units = (u64::from(length) / UNIT_BLOCKS) as u32;
    units_by(alloc, units, ino, blocks.as_slice())
}

// How many of the runs begin at the unit or before it.
fn begun(units: &[Run], unit: u32) -> usize
    requires { AreMaximal 0 units.now }
    ensures within { result ≤ length units.now }
    ensures begun { (k : ℕ) (d : GhostRun) → k < result → (get_or units.now k d).start ≤ unit }
    ensures later { (k : ℕ) (d : GhostRun) → result ≤ k → k < length units.now → unit < (get_or units.now k d).start }
{
    units.partition_point(|run| run.start <= unit)
}

/// Whether the unit lies in one of these maximal runs of units, as `listed_units` answers them. It costs
/// a binary search, and takes no memory
/// (XFS Online Fsck Design, "Case Study: Rebuilding the AG Inode Records").
pub fn has_unit(units: &[Run], unit: u32) -> bool
    requires { AreMaximal 0 units.now }
    ensures { result ≡ holds units.now unit }
{
    let index = begun(units, unit);
    if index == 0 {
        return false;
    }
    let run = units[index - 1];
    unit - run.start < run.count
}
