// The six btrees of a group, read one after the other.
ghost use Rattle.std.specs.Prelude.{◌≡◌, ℕ, ◌+◌, ◌*◌, ◌<◌, ◌≤◌, IfOk, List, Option, Some};
ghost use Rattle.blk_cache.specs.Cache.{AgreesTold};
ghost use Rattle.blk_device.specs.declared.device.Region.TheVariants.{Image};
ghost use Rattle.blk_device.specs.Causes.{HasCause};
ghost use Rattle.blk_device.specs.Contents.{Contents};
ghost use Rattle.blk_device.specs.Reading.{OnlyRead};
ghost use Rattle.core_units.specs.Standing.{IsBegun};
ghost use Rattle.core_units.specs.Trees.{AreFirm, AreKnown, AreMade, AreSeenSound, IsKnown, kind_behind, reading_behind};
ghost use Rattle.fs_state.specs.Kinds.{Heads as HeadsOf, Image as ImageOf};
ghost use Rattle.fs_state.specs.State.{Bad as BadOf, Kept as KeptOf};
ghost use Rattle.geom.specs.Layout.{Layout};
ghost use Rattle.geom.specs.Places.{layout};
ghost use Rattle.group_trees.specs.Heads.{heads_seen};
ghost use Rattle.group_trees.specs.Trees.{IsSound};
ghost use Rattle.inode_pass.specs.Stops.{is_failed};
ghost use Rattle.sblock.specs.declared.block.Bounds.{Bounds};
ghost use Rattle.sblock.specs.declared.kind.Kind.TheVariants.{Bno};

use crate::tree::gather_tree;
use blk_cache::BlkCache;
use blk_device::Device;
use byte_fields::Steps;
use geom::Geometry;
use group_trees::{GroupHeads, GroupTrees, TreeSeen};
use ino_recs::{FinoKind, InoKind};
use inode_pass::PassStop;
use rmap_recs::RmapKind;
use sblock::{BlockFault, Kind, RecKind};
use span_recs::{BnoKind, CntKind, RefcKind};
use std::alloc::{AllocError, Global};
use std::sync::ledger::Ledger;
use tree_blocks::TreeRead;

/// A btree that couldn't be read as the image was opened: the fault that was met, and the blocks that
/// it still claims (XFS Algorithms and Data Structures, "Short Format B+trees").
#[derive(Drop)]
pub struct BadTree {
    pub block: u32,
    pub fault: BlockFault,
    pub claims: Vec<u32>,
}

/// Those of a group.
#[derive(Drop)]
pub struct BadTrees {
    pub bno: Option<BadTree>,
    pub cnt: Option<BadTree>,
    pub rmap: Option<BadTree>,
    pub refc: Option<BadTree>,
    pub ino: Option<BadTree>,
    pub fino: Option<BadTree>,
}

// A tree of which nothing is read, or what is kept of a bad one.
fn first_seen<K: RecKind>(
    alloc: Global,
    bad: &Option<BadTree>,
) -> Result<TreeSeen<K::Rec>, AllocError>
    ensures sound { IfOk result (λ seen. (bounds : Bounds) → IsSound K.form bounds seen) }
    ensures begun { IfOk result (λ seen. (at : Layout) (image : ImageOf) (g root levels : ℕ) (kept : Option BadOf) → IsKnown bad.now kept → IsBegun K.form at image g root levels kept seen) }
{
    match bad {
        Some(bad) => Ok(TreeSeen::Bad {
            block: bad.block,
            fault: bad.fault,
            claims: Vec::from_slice(alloc, bad.claims.as_slice())?,
        }),
        None => Ok(TreeSeen::Whole(TreeRead {
            recs: Vec::new(alloc),
            blocks: Vec::new(alloc),
        })),
    }
}

/// The six trees of which nothing is read, with these bad ones
/// (XFS Algorithms and Data Structures, "Allocation Groups").
pub fn first_trees(alloc: Global, bad: &BadTrees) -> Result<GroupTrees, AllocError>
    ensures sound { IfOk result (λ trees. (at : Layout) (g : ℕ) → AreSeenSound at g trees) }
    ensures made { IfOk result (λ trees. (at : Layout) (image : ImageOf) (kept : KeptOf) (heads : HeadsOf) (g : ℕ) → AreKnown kept g bad.now → AreMade at image kept heads g (Some Bno) trees) }
{
    Ok(GroupTrees {
        bno: first_seen::<BnoKind>(alloc, &bad.bno)?,
        cnt: first_seen::<CntKind>(alloc, &bad.cnt)?,
        rmap: first_seen::<RmapKind>(alloc, &bad.rmap)?,
        refc: first_seen::<RefcKind>(alloc, &bad.refc)?,
        ino: first_seen::<InoKind>(alloc, &bad.ino)?,
        fino: first_seen::<FinoKind>(alloc, &bad.fino)?,
    })
}

/// The tree that is read behind this one.
pub fn next_kind(kind: Kind) -> Option<Kind>
    ensures { result ≡ kind_behind kind }
{
    match kind {
        Kind::Bno => Some(Kind::Cnt),
        Kind::Cnt => Some(Kind::Rmap),
        Kind::Rmap => Some(Kind::Refc),
        Kind::Refc => Some(Kind::Ino),
        Kind::Ino => Some(Kind::Fino),
        Kind::Fino => None,
    }
}

/// Reads one leaf more of the tree of this kind, and answers whether there is none left
/// (XFS Algorithms and Data Structures, "Allocation Groups").
pub fn gather_kind<D: Device, L: Ledger>(
    alloc: Global,
    dev: &mut D,
    cache: &mut BlkCache,
    geo: &Geometry,
    g: u32,
    heads: &GroupHeads,
    kind: Kind,
    trees: &mut GroupTrees,
    steps: &mut Steps<L>,
) -> Result<bool, PassStop>
    requires group { g < geo.now.agcount }
    requires room { geo.now.dblocks ≤ D.blocks dev.old Image }
    requires agreed { AgreesTold cache.old (D.content dev.old) }
    ensures exact { (c : Contents) → D.content dev.old ≡ Some c → (kept : KeptOf) → AreFirm (layout geo.now) (c Image) kept (heads_seen heads.now) g
        → AreMade (layout geo.now) (c Image) kept (heads_seen heads.now) g (Some kind) trees.old
        → IfOk result (λ done. AreMade (layout geo.now) (c Image) kept (heads_seen heads.now) g (reading_behind kind done) trees.new) }
    ensures sound { AreSeenSound (layout geo.now) g trees.old → AreSeenSound (layout geo.now) g trees.new }
    ensures reading { OnlyRead D.Device dev.old dev.new steps.old steps.new }
    ensures cause { HasCause is_failed (D.faults dev.old) (D.faults dev.new) result }
    ensures agrees { AgreesTold cache.new (D.content dev.new) }
    ensures few { steps.new.reads ≤ steps.old.reads + 18 }
{
    match kind {
        Kind::Bno => gather_tree::<BnoKind, D, L>(
            alloc,
            dev,
            cache,
            geo,
            g,
            heads,
            &mut trees.bno,
            steps,
        ),
        Kind::Cnt => gather_tree::<CntKind, D, L>(
            alloc,
            dev,
            cache,
            geo,
            g,
            heads,
            &mut trees.cnt,
            steps,
        ),
        Kind::Rmap => gather_tree::<RmapKind, D, L>(
            alloc,
            dev,
            cache,
            geo,
            g,
            heads,
            &mut trees.rmap,
            steps,
        ),
        Kind::Refc => gather_tree::<RefcKind, D, L>(
            alloc,
            dev,
            cache,
            geo,
            g,
            heads,
            &mut trees.refc,
            steps,
        ),
        Kind::Ino => gather_tree::<InoKind, D, L>(
            alloc,
            dev,
            cache,
            geo,
            g,
            heads,
            &mut trees.ino,
            steps,
        ),
        Kind::Fino => gather_tree::<FinoKind, D, L>(
            alloc,
            dev,
            cache,
            geo,
            g,
            heads,
            &mut trees.fino,
            steps,
        ),
    }
}
