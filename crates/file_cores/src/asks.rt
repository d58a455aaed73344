// Whether an inode is a file that can be changed.
ghost use Rattle.std.specs.Prelude.{◌≡◌, ◌<◌, ◌≤◌};
ghost use Rattle.blk_cache.specs.Cache.{AgreesTold};
ghost use Rattle.blk_device.specs.declared.device.Region.TheVariants.{Image};
ghost use Rattle.file_cores.specs.Looks.{Looks, failed_in};
ghost use Rattle.geom.specs.Places.{HasInode};
ghost use Rattle.sblock.specs.declared.kind.Kind.TheVariants.{Ino};

use crate::cores::{are_cores_sound, core_in, is_fork_sound};
use crate::listed::is_listed;
use crate::reads::load;
use crate::stop::FileStop;
use blk_cache::BlkCache;
use blk_device::Device;
use byte_fields::{Block, Steps};
use geom::{Geometry, InodePlace};
use std::sync::ledger::Ledger;
use tree_blocks::TreeAt;

// The blocks of a chunk.
const CHUNK_BLOCKS: u32 = 8;

// The kind of a regular file in the four highest bits of a mode.
const REGULAR: u16 = 8;

// Whether the superblock names the inode, or its number is none of a file.
fn is_kept(geo: &Geometry, ino: u64) -> bool {
    ino == 0 || geo.kept.contains(&ino)
}

// The user of the inode in its block, where that is a regular file whose data fork shows no fault in the
// inode.
fn user_in(block: &Block, geo: &Geometry, place: &InodePlace) -> Option<u32>
    requires { HasInode geo.now place.now }
{
    let ino = geo.inode_number(*place);
    let core = core_in(block, place.slot, geo, ino)?;
    if core.mode / 4096 == REGULAR && is_fork_sound(geo, &core) {
        return Some(core.uid);
    }
    None
}

// Reads a block of the inode's chunk, and tests it.
#[tactic(auto, using(crate::proofs::LookLemmas::no_look))]
fn check_block<D: Device, L: Ledger>(
    dev: &mut D,
    cache: &mut BlkCache,
    geo: &Geometry,
    place: &InodePlace,
    b: u32,
    steps: &mut Steps<L>,
) -> Result<(), FileStop>
    requires place { HasInode geo.now place.now }
    requires room { geo.now.dblocks ≤ D.blocks dev.old Image }
    requires agreed { AgreesTold cache.old (D.content dev.old) }
    ensures looks { Looks D.Device (failed_in result) dev.old dev.new cache.new }
{
    if b >= geo.group_len(place.group) {
        return Err(FileStop::NoFile);
    }
    let mut block = Block::zeroed();
    load(dev, cache, geo, (place.group, b), &mut block, steps)?;
    if are_cores_sound(&block, geo, place.group, b) {
        Ok(())
    } else {
        Err(FileStop::NoFile)
    }
}

// Tests so many blocks of the inode's chunk from `b` on.
#[tactic(auto, using(crate::proofs::LookLemmas::no_look, crate::proofs::LookLemmas::looks_on))]
fn check_blocks<D: Device, L: Ledger>(
    dev: &mut D,
    cache: &mut BlkCache,
    geo: &Geometry,
    place: &InodePlace,
    b: u32,
    left: u32,
    steps: &mut Steps<L>,
) -> Result<(), FileStop>
    requires place { HasInode geo.now place.now }
    requires room { geo.now.dblocks ≤ D.blocks dev.old Image }
    requires agreed { AgreesTold cache.old (D.content dev.old) }
    ensures looks { Looks D.Device (failed_in result) dev.old dev.new cache.new }
{
    if left == 0 {
        return Ok(());
    }
    check_block(dev, cache, geo, place, b, steps)?;
    check_blocks(dev, cache, geo, place, b.saturating_add(1), left - 1, steps)
}

// Reads the inode's own block, and answers its user, where it is a regular file.
#[tactic(auto, using(crate::proofs::LookLemmas::no_look))]
fn read_user<D: Device, L: Ledger>(
    dev: &mut D,
    cache: &mut BlkCache,
    geo: &Geometry,
    place: &InodePlace,
    steps: &mut Steps<L>,
) -> Result<u32, FileStop>
    requires place { HasInode geo.now place.now }
    requires room { geo.now.dblocks ≤ D.blocks dev.old Image }
    requires agreed { AgreesTold cache.old (D.content dev.old) }
    ensures looks { Looks D.Device (failed_in result) dev.old dev.new cache.new }
{
    let mut block = Block::zeroed();
    load(
        dev,
        cache,
        geo,
        (place.group, place.block),
        &mut block,
        steps,
    )?;
    match user_in(&block, geo, place) {
        Some(uid) => Ok(uid),
        None => Err(FileStop::NoFile),
    }
}

// Tests the inode's chunk, and answers the user of the inode, where it is a regular file.
#[tactic(auto, using(crate::proofs::LookLemmas::looks_on))]
fn check_chunk<D: Device, L: Ledger>(
    dev: &mut D,
    cache: &mut BlkCache,
    geo: &Geometry,
    place: &InodePlace,
    steps: &mut Steps<L>,
) -> Result<u32, FileStop>
    requires place { HasInode geo.now place.now }
    requires room { geo.now.dblocks ≤ D.blocks dev.old Image }
    requires agreed { AgreesTold cache.old (D.content dev.old) }
    ensures looks { Looks D.Device (failed_in result) dev.old dev.new cache.new }
{
    let first = place.block - place.block % CHUNK_BLOCKS;
    check_blocks(dev, cache, geo, place, first, CHUNK_BLOCKS, steps)?;
    read_user(dev, cache, geo, place, steps)
}

/// The user of the inode of this number, where it is a file that a writer may change: its place exists,
/// this btree of its group lists it, the superblock doesn't name it, all cores of its chunk verify, and it
/// is a regular file whose data fork shows no fault in the inode. NoFile else. It takes no memory
/// (XFS Algorithms and Data Structures, "On-disk Inode").
#[tactic(auto, using(crate::proofs::LookLemmas::no_look, crate::proofs::LookLemmas::looks_on))]
pub fn check_file<D: Device, L: Ledger>(
    dev: &mut D,
    cache: &mut BlkCache,
    geo: &Geometry,
    tree: &TreeAt,
    ino: u64,
    steps: &mut Steps<L>,
) -> Result<u32, FileStop>
    requires kind { tree.now.kind ≡ Ino }
    requires group { tree.now.group < geo.now.agcount }
    requires room { geo.now.dblocks ≤ D.blocks dev.old Image }
    requires agreed { AgreesTold cache.old (D.content dev.old) }
    ensures looks { Looks D.Device (failed_in result) dev.old dev.new cache.new }
{
    let Some(place) = geo.inode_place(ino) else {
        return Err(FileStop::NoFile);
    };
    if is_kept(geo, ino) || place.group != tree.group {
        return Err(FileStop::NoFile);
    }
    if !is_listed(dev, cache, geo, tree, &place, steps)? {
        return Err(FileStop::NoFile);
    }
    check_chunk(dev, cache, geo, &place, steps)
}
