ghost use Rattle.std.specs.Prelude.{◌≡◌, ◌+◌, ◌<◌, ◌≤◌, ◌^◌, ◌++◌, All, Some, IfOk, OnOk, flat_map};
ghost use Rattle.blk_cache.specs.Cache.{AgreesTold};
ghost use Rattle.blk_device.specs.Causes.{HasCause};
ghost use Rattle.blk_device.specs.Contents.{Contents};
ghost use Rattle.blk_device.specs.Reading.{OnlyRead};
ghost use Rattle.blk_device.specs.declared.device.Region.TheVariants.{Image};
ghost use Rattle.fs_state.specs.Kinds.{heads_of};
ghost use Rattle.geom.specs.Places.{layout};
ghost use Rattle.inode_pass.specs.Stops.{is_failed};
ghost use Rattle.group_trees.specs.Counted.{trees_most};
ghost use Rattle.group_trees.specs.Heads.{heads_seen};
ghost use Rattle.group_trees.specs.Group.{AreTrees, AreSoundTrees, first_kinds, last_kinds, tree_blocks};
ghost use Rattle.group_trees.specs.Metadata.{metadata_pieces, tree_pieces};
ghost use Rattle.unit_plan.specs.Sets.{pieces_of};

use crate::heads::GroupHeads;
use crate::metadata::{put_blocks, put_chunks, put_fixed};
use crate::reads::TreeSeen;
use crate::trees::{blocks_of, read_kind};
use blk_cache::BlkCache;
use blk_device::Device;
use byte_fields::Steps;
use fs_model::Claim;
use geom::{Geometry, Run3};
use ino_recs::{FinoKind, InoKind, InoRec};
use inode_pass::PassStop;
use rmap_recs::{Owner, RmapKind, RmapRec};
use sblock::Kind;
use span_recs::{BnoKind, CntKind, RefcKind, RefcRec, SpanRec};
use std::alloc::Global;
use std::sync::ledger::Ledger;
use unit_plan::{ClaimSet, Memory};

/// The six btrees of a group as they were read
/// (XFS Algorithms and Data Structures, "Allocation Groups").
#[derive(Drop)]
pub struct GroupTrees {
    pub bno: TreeSeen<SpanRec>,
    pub cnt: TreeSeen<SpanRec>,
    pub rmap: TreeSeen<RmapRec>,
    pub refc: TreeSeen<RefcRec>,
    pub ino: TreeSeen<InoRec>,
    pub fino: TreeSeen<InoRec>,
}

/// Reads the six btrees of group `g`, each block of a readable one once
/// (XFS Algorithms and Data Structures, "Allocation Groups").
pub fn read_trees<D: Device, L: Ledger>(
    alloc: Global,
    dev: &mut D,
    cache: &mut BlkCache,
    geo: &Geometry,
    g: u32,
    heads: &GroupHeads,
    steps: &mut Steps<L>,
) -> Result<GroupTrees, PassStop>
    requires group { g < geo.now.agcount }
    requires room { geo.now.dblocks ≤ D.blocks dev.old Image }
    requires agreed { AgreesTold cache.old (D.content dev.old) }
    requires heads { (c : Contents) → D.content dev.old ≡ Some c → heads_seen heads.now ≡ heads_of (layout geo.now) (c Image) g }
    ensures exact { IfOk result (λ trees. (c : Contents) → D.content dev.old ≡ Some c → AreTrees (layout geo.now) (c Image) g trees) }
    ensures sound { IfOk result (AreSoundTrees (layout geo.now) g) }
    ensures reading { OnlyRead D.Device dev.old dev.new steps.old steps.new }
    ensures cause { HasCause is_failed (D.faults dev.old) (D.faults dev.new) result }
    ensures agrees { AgreesTold cache.new (D.content dev.new) }
    ensures counted { (c : Contents) → D.content dev.old ≡ Some c → steps.new.reads ≤ steps.old.reads + trees_most (layout geo.now) (c Image) g }
{
    let bno = read_kind::<BnoKind, D, L>(alloc, dev, cache, geo, g, heads, steps)?;
    let cnt = read_kind::<CntKind, D, L>(alloc, dev, cache, geo, g, heads, steps)?;
    let rmap = read_kind::<RmapKind, D, L>(alloc, dev, cache, geo, g, heads, steps)?;
    let refc = read_kind::<RefcKind, D, L>(alloc, dev, cache, geo, g, heads, steps)?;
    let ino = read_kind::<InoKind, D, L>(alloc, dev, cache, geo, g, heads, steps)?;
    let fino = read_kind::<FinoKind, D, L>(alloc, dev, cache, geo, g, heads, steps)?;
    Ok(GroupTrees {
        bno,
        cnt,
        rmap,
        refc,
        ino,
        fino,
    })
}

// Puts the claims of three of the trees.
fn put_space_trees(set: &mut ClaimSet, trees: &GroupTrees) -> Result<(), Memory>
    ensures { OnOk result (pieces_of set.new ≡ pieces_of set.old ++ flat_map (tree_pieces (tree_blocks trees.now)) first_kinds) }
{
    put_blocks(
        set,
        Claim::Tree(Kind::Bno),
        Owner::Ag.number(),
        blocks_of(&trees.bno),
    )?;
    put_blocks(
        set,
        Claim::Tree(Kind::Cnt),
        Owner::Ag.number(),
        blocks_of(&trees.cnt),
    )?;
    put_blocks(
        set,
        Claim::Tree(Kind::Rmap),
        Owner::Ag.number(),
        blocks_of(&trees.rmap),
    )
}

// Puts the claims of the other three.
fn put_other_trees(set: &mut ClaimSet, trees: &GroupTrees) -> Result<(), Memory>
    ensures { OnOk result (pieces_of set.new ≡ pieces_of set.old ++ flat_map (tree_pieces (tree_blocks trees.now)) last_kinds) }
{
    put_blocks(
        set,
        Claim::Tree(Kind::Refc),
        Owner::Refc.number(),
        blocks_of(&trees.refc),
    )?;
    put_blocks(
        set,
        Claim::Tree(Kind::Ino),
        Owner::Inobt.number(),
        blocks_of(&trees.ino),
    )?;
    put_blocks(
        set,
        Claim::Tree(Kind::Fino),
        Owner::Inobt.number(),
        blocks_of(&trees.fino),
    )
}

/// Puts the claims of a group's own metadata: its heads, its part of the log, its free list, its
/// btrees, and its chunks by the numbers of their units, in this order
/// (XFS Online Fsck Design, "Cross-Referencing Space Metadata").
pub fn put_metadata(
    set: &mut ClaimSet,
    log: Option<Run3>,
    g: u32,
    list: &[u32],
    trees: &GroupTrees,
    chunks: &[u32],
) -> Result<(), Memory>
    requires { All (λ u. u < 2 ^ 26) chunks.now }
    ensures { OnOk result (pieces_of set.new ≡ pieces_of set.old ++ metadata_pieces log g list.now (tree_blocks trees.now) chunks.now) }
{
    put_fixed(set, log, g)?;
    put_blocks(set, Claim::List, Owner::Ag.number(), list)?;
    put_space_trees(set, trees)?;
    put_other_trees(set, trees)?;
    put_chunks(set, chunks)
}
