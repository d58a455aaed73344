// One leaf more of a btree that is read leaf by leaf.
ghost use Rattle.std.specs.Prelude.{◌≡◌, ◌+◌, ◌*◌, ◌<◌, ◌≤◌, ◌++◌, None, IfErr, IfOk, OnErr, OnOk};
ghost use Rattle.blk_cache.specs.Cache.{AgreesTold};
ghost use Rattle.blk_device.specs.Causes.{HasCause};
ghost use Rattle.blk_device.specs.Reading.{OnlyRead};
ghost use Rattle.blk_device.specs.declared.device.Region.TheVariants.{Image};
ghost use Rattle.core_units.specs.Front.{GathersLeaf, Grows, StaysRead};
ghost use Rattle.geom.specs.Places.{layout};
ghost use Rattle.inode_pass.specs.Stops.{is_failed};
ghost use Rattle.tree_blocks.specs.Told.{OfTree};
ghost use Rattle.tree_defs.specs.Sites.{bounds_of};
ghost use Rattle.tree_find.specs.Find.{way_of};
ghost use Rattle.tree_pieces.specs.Pieces.{key_behind as key_behind_of};
ghost use Rattle.tree_walk.specs.Trails.{AreSound};

use blk_cache::BlkCache;
use blk_device::Device;
use byte_fields::Steps;
use geom::Geometry;
use inode_pass::PassStop;
use sblock::{BlockFault, RecKind};
use std::alloc::Global;
use std::sync::ledger::Ledger;
use tree_blocks::{TreeAt, TreeRead, WalkFault};
use tree_pieces::path_piece;

/// What one leaf more of a btree gave: records, so that others may be left; no more of them, so that
/// all is read; or the first block that fails its tests
/// (XFS Algorithms and Data Structures, "Short Format B+trees").
#[derive(Clone, Copy, Debug, PartialEq, Eq)]
pub enum Leaf {
    More,
    Last,
    Bad { block: u32, fault: BlockFault },
}

// The key of the last of these records.
fn key_behind<K: RecKind>(recs: &[K::Rec]) -> Option<K::Key>
    ensures { result ≡ key_behind_of K.form None recs.now }
{
    let last = recs.last()?;
    Some(K::key_of(last))
}

// Puts records and blocks behind those that were read, or nothing.
fn put_behind<R: Copy>(front: &mut TreeRead<R>, more: &TreeRead<R>) -> Result<(), PassStop>
    ensures recs { OnOk result (front.new.recs.items ≡ front.old.recs.items ++ more.now.recs.items) }
    ensures blocks { OnOk result (front.new.blocks.items ≡ front.old.blocks.items ++ more.now.blocks.items) }
    ensures kept { OnErr result (StaysRead front.old front.new) }
    ensures memory { IfErr result (λ stop. stop ≡ PassStop.Memory) }
{
    let before = front.recs.len();
    front.recs.extend_from_slice(more.recs.as_slice())?;
    if front
        .blocks
        .extend_from_slice(more.blocks.as_slice())
        .is_err()
    {
        front.recs.truncate(before);
        return Err(PassStop::Memory);
    }
    Ok(())
}

/// Reads the next leaf of a btree of which a front was read, and puts its records, and the blocks
/// that are first met with it, behind them
/// (XFS Algorithms and Data Structures, "Short Format B+trees").
pub fn gather_leaf<K: RecKind, D: Device, L: Ledger>(
    alloc: Global,
    dev: &mut D,
    cache: &mut BlkCache,
    geo: &Geometry,
    tree: &TreeAt,
    front: &mut TreeRead<K::Rec>,
    steps: &mut Steps<L>,
) -> Result<Leaf, PassStop>
    requires kind { tree.now.kind ≡ K.form.kind }
    requires group { tree.now.group < geo.now.agcount }
    requires room { geo.now.dblocks ≤ D.blocks dev.old Image }
    requires agreed { AgreesTold cache.old (D.content dev.old) }
    ensures exact { OfTree (layout geo.now) tree.now (D.content dev.old) (λ s m r n. GathersLeaf K.form s m r n front.old front.new result) }
    ensures sound { AreSound K.form (bounds_of (layout geo.now) tree.now.group) front.old.recs.items → AreSound K.form (bounds_of (layout geo.now) tree.now.group) front.new.recs.items }
    ensures grows { IfOk result (Grows front.old front.new) }
    ensures kept { OnErr result (StaysRead front.old front.new) }
    ensures reading { OnlyRead D.Device dev.old dev.new steps.old steps.new }
    ensures cause { HasCause is_failed (D.faults dev.old) (D.faults dev.new) result }
    ensures agrees { AgreesTold cache.new (D.content dev.new) }
    ensures few { steps.new.reads ≤ steps.old.reads + 2 * way_of tree.now.levels }
{
    let after = key_behind::<K>(front.recs.as_slice());
    match path_piece::<K, D, L>(alloc, dev, cache, geo, tree, after, steps) {
        Ok(piece) => {
            put_behind(front, &piece)?;
            let more = piece.recs.as_slice();
            if more.is_empty() {
                return Ok(Leaf::Last);
            }
            Ok(Leaf::More)
        }
        Err(WalkFault::Bad { block, fault }) => Ok(Leaf::Bad { block, fault }),
        Err(WalkFault::Failed) => Err(PassStop::Failed),
        Err(WalkFault::Memory) => Err(PassStop::Memory),
    }
}
