// Whether an inode btree lists an inode.
ghost use Rattle.std.specs.Prelude.{◌≡◌, ◌<◌, ◌≤◌};
ghost use Rattle.blk_cache.specs.Cache.{AgreesTold};
ghost use Rattle.blk_device.specs.declared.device.Region.TheVariants.{Image};
ghost use Rattle.file_cores.specs.Looks.{Looks, failed_in};
ghost use Rattle.sblock.specs.declared.kind.Kind.TheVariants.{Ino};
ghost use Rattle.tree_blocks.specs.Reading.{is_failed as is_walk_failed};

use crate::stop::FileStop;
use blk_cache::BlkCache;
use blk_device::Device;
use byte_fields::Steps;
use geom::{Geometry, InodePlace};
use ino_recs::{InoKey, InoKind, InoRec};
use std::sync::ledger::Ledger;
use tree_blocks::{TreeAt, WalkFault};
use tree_find::find;

// The inodes of a block, and those of a chunk.
const BLOCK_INODES: u32 = 8;

const CHUNK_INODES: u32 = 64;

// Whether the chunk's inode in this place is free.
#[tactic(auto, using(std::proofs::lemmas::Nat::one_shl))]
fn is_free(rec: &InoRec, slot: u32) -> bool
    requires { slot < 64 }
{
    rec.free / (1u64 << slot) % 2 == 1
}

// Whether there is a record of the inode's chunk by which it isn't free.
fn is_allocated(found: Option<InoRec>, number: u32) -> bool {
    match found {
        Some(rec) => !is_free(&rec, number % CHUNK_INODES),
        None => false,
    }
}

// A tree that can't be read lists nothing.
fn unread(fault: WalkFault) -> Result<bool, FileStop>
    ensures { failed_in result ≡ is_walk_failed fault }
{
    match fault {
        WalkFault::Bad { block: _, fault: _ } => Ok(false),
        WalkFault::Failed => Err(FileStop::Failed),
        WalkFault::Memory => Err(FileStop::Memory),
    }
}

// The number of an inode in its group; none where it is above those of all groups.
fn number_in(place: &InodePlace) -> Option<u32> {
    let block = place.block;
    if block >= u32::MAX / BLOCK_INODES {
        return None;
    }
    Some(block * BLOCK_INODES + u32::from(place.slot) % BLOCK_INODES)
}

/// Whether an inode btree lists the inode at this place as allocated. A tree with a block that fails its
/// tests on the way lists none (XFS Algorithms and Data Structures, "Inode B+trees").
#[tactic(auto, using(crate::proofs::LookLemmas::searched_looks, crate::proofs::LookLemmas::no_look))]
pub(crate) fn is_listed<D: Device, L: Ledger>(
    dev: &mut D,
    cache: &mut BlkCache,
    geo: &Geometry,
    tree: &TreeAt,
    place: &InodePlace,
    steps: &mut Steps<L>,
) -> Result<bool, FileStop>
    requires kind { tree.now.kind ≡ Ino }
    requires group { tree.now.group < geo.now.agcount }
    requires room { geo.now.dblocks ≤ D.blocks dev.old Image }
    requires agreed { AgreesTold cache.old (D.content dev.old) }
    ensures looks { Looks D.Device (failed_in result) dev.old dev.new cache.new }
{
    let Some(number) = number_in(place) else {
        return Ok(false);
    };
    let key = InoKey {
        startino: number - number % CHUNK_INODES,
    };
    match find::<InoKind, D, L>(dev, cache, geo, tree, key, steps) {
        Ok(found) => Ok(is_allocated(found, number)),
        Err(fault) => unread(fault),
    }
}
