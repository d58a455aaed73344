// What a walk of a tree at block 1 answers, and what such a tree claims.
ghost use Rattle.std.specs.Prelude.{◌≡◌, length};

use crate::build::{LENGTH, UUID};
use blk_cache::BlkCache;
use blk_device::{Device, MemDevice, Region};
use byte_fields::Steps;
use geom::Geometry;
use ino_recs::{FinoKind, InoKind};
use rmap_recs::RmapKind;
use run_sets::{Run, RunSet};
use sblock::{Kind, RecKind};
use span_recs::{BnoKind, CntKind, RefcKind};
use std::alloc::Global;
use std::marker::Brand;
use std::sync::ledger::{Blank, Ledger};
use tree_walk::{TreeAt, TreeRead, WalkFault, claimed, walk};

/// The group, which is the only one.
pub fn one_group() -> Geometry
    ensures group { result.agcount ≡ 1 }
    ensures blocks { result.dblocks ≡ 1048576 }
{
    Geometry {
        agblocks: 1_048_576,
        agcount: 1,
        dblocks: 1_048_576,
        agblklog: 20,
        uuid: UUID,
        log: None,
        kept: [192, 193, 194, 0, 0, 0],
        inobtcount: true,
    }
}

/// The tree of this kind with this root and so many levels.
pub fn tree_at(kind: Kind, root: u32, levels: u32) -> TreeAt
    ensures kind { result.kind ≡ kind }
    ensures group { result.group ≡ 0 }
{
    TreeAt {
        kind,
        group: 0,
        root,
        levels,
        lsn: 0,
    }
}

fn walked<K: RecKind, L: Ledger>(
    alloc: Global,
    device: &mut MemDevice,
    levels: u32,
    blank: Blank,
) -> Result<TreeRead<K::Rec>, WalkFault>
    requires name { blank.name ≡ L.name }
    requires parts { blank.parts ≡ L.parts }
    requires three { blank.parts ≡ 3 }
{
    let geo = one_group();
    let tree = tree_at(K::kind(), 1, levels);
    if device.size(Region::Image) < u64::from(LENGTH) {
        return Err(WalkFault::Failed);
    }
    let Ok(mut cache) = BlkCache::new(alloc, 8) else {
        return Err(WalkFault::Memory);
    };
    let mut steps = Steps::<L>::new(blank);
    walk::<K, MemDevice, L>(alloc, device, &mut cache, &geo, &tree, &mut steps)
}

/// What a walk of the tree with so many levels reads, for a caller that counts no steps.
pub fn read_tree<K: RecKind>(
    alloc: Global,
    device: &mut MemDevice,
    levels: u32,
) -> Result<TreeRead<K::Rec>, WalkFault> {
    let blank = Blank::new(3);
    walked::<K, Brand>(alloc, device, levels, blank)
}

fn claimed_in<K: RecKind, L: Ledger>(
    alloc: Global,
    device: &mut MemDevice,
    root: u32,
    levels: u32,
    blank: Blank,
) -> Result<RunSet, WalkFault>
    requires name { blank.name ≡ L.name }
    requires parts { blank.parts ≡ L.parts }
    requires three { blank.parts ≡ 3 }
{
    let geo = one_group();
    let tree = tree_at(K::kind(), root, levels);
    if device.size(Region::Image) < u64::from(LENGTH) {
        return Err(WalkFault::Failed);
    }
    let Ok(mut cache) = BlkCache::new(alloc, 8) else {
        return Err(WalkFault::Memory);
    };
    let mut steps = Steps::<L>::new(blank);
    claimed::<K, MemDevice, L>(alloc, device, &mut cache, &geo, &tree, &mut steps)
}

/// What the tree with this root and so many levels claims, for a caller that counts no steps.
pub fn claims_of<K: RecKind>(
    alloc: Global,
    device: &mut MemDevice,
    root: u32,
    levels: u32,
) -> Result<RunSet, WalkFault> {
    let blank = Blank::new(3);
    claimed_in::<K, Brand>(alloc, device, root, levels, blank)
}

/// The numbers of records and blocks that a walk read, and the last block.
#[derive(Clone, Copy, Debug, PartialEq, Eq)]
pub struct Counts {
    pub records: usize,
    pub blocks: usize,
    pub last: u32,
}

// The last block; 0 where there is none.
fn last_block(blocks: &[u32]) -> u32 {
    match blocks.last() {
        Some(block) => *block,
        None => 0,
    }
}

fn counts_of<K: RecKind>(
    alloc: Global,
    device: &mut MemDevice,
    levels: u32,
) -> Result<Counts, WalkFault> {
    let read = read_tree::<K>(alloc, device, levels)?;
    Ok(Counts {
        records: read.recs.len(),
        blocks: read.blocks.len(),
        last: last_block(read.blocks.as_slice()),
    })
}

/// The counts of a walk of a tree of this kind.
pub fn counted(
    alloc: Global,
    device: &mut MemDevice,
    kind: Kind,
    levels: u32,
) -> Result<Counts, WalkFault> {
    match kind {
        Kind::Bno => counts_of::<BnoKind>(alloc, device, levels),
        Kind::Cnt => counts_of::<CntKind>(alloc, device, levels),
        Kind::Rmap => counts_of::<RmapKind>(alloc, device, levels),
        Kind::Refc => counts_of::<RefcKind>(alloc, device, levels),
        Kind::Ino => counts_of::<InoKind>(alloc, device, levels),
        Kind::Fino => counts_of::<FinoKind>(alloc, device, levels),
    }
}

/// The runs that a tree of this kind claims.
pub fn claims_by_kind(
    alloc: Global,
    device: &mut MemDevice,
    kind: Kind,
    root: u32,
    levels: u32,
) -> Result<RunSet, WalkFault> {
    match kind {
        Kind::Bno => claims_of::<BnoKind>(alloc, device, root, levels),
        Kind::Cnt => claims_of::<CntKind>(alloc, device, root, levels),
        Kind::Rmap => claims_of::<RmapKind>(alloc, device, root, levels),
        Kind::Refc => claims_of::<RefcKind>(alloc, device, root, levels),
        Kind::Ino => claims_of::<InoKind>(alloc, device, root, levels),
        Kind::Fino => claims_of::<FinoKind>(alloc, device, root, levels),
    }
}

/// A run of no block.
pub const NO_RUN: Run = Run { start: 0, count: 0 };

fn run_at(runs: &[Run], i: usize) -> Run {
    match runs.get(i) {
        Some(run) => *run,
        None => NO_RUN,
    }
}

/// The first four runs; empty ones where there are fewer.
pub fn first_runs(set: &RunSet) -> [Run; 4] {
    let runs = set.runs();
    [
        run_at(runs, 0),
        run_at(runs, 1),
        run_at(runs, 2),
        run_at(runs, 3),
    ]
}
