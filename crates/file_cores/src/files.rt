// The core of a file with the list of its mappings.
ghost use Rattle.std.specs.Prelude.{◌≡◌, ◌<◌, ◌≤◌, IfOk, Some, false, true};
ghost use Rattle.blk_cache.specs.Cache.{AgreesTold};
ghost use Rattle.blk_device.specs.declared.device.Region.TheVariants.{Image};
ghost use Rattle.dinode_core.specs.Shape.{format_of};
ghost use Rattle.dinode_core.specs.declared.mapping.Fork.TheVariants.{Data};
ghost use Rattle.dinode_core.specs.declared.shape.Format.TheVariants.{Extents};
ghost use Rattle.file_cores.specs.Files.{IsFile};
ghost use Rattle.file_cores.specs.Looks.{Looks, failed_in, is_failed};
ghost use Rattle.geom.specs.Places.{HasInode};

use crate::cores::{core_in, is_fork_sound};
use crate::mapped::are_fit;
use crate::reads::load;
use crate::stop::FileStop;
use blk_cache::BlkCache;
use blk_device::Device;
use byte_fields::{Block, Steps};
use dinode_core::{Core3, Fork, ForkError, Format, Mapping, fork_format, inline_fork};
use geom::{Geometry, InodePlace};
use std::alloc::Global;
use std::sync::ledger::Ledger;

/// A file: where its inode lies, the core of it, and the mappings of its data fork, which the inode itself
/// has (XFS Algorithms and Data Structures, "On-disk Inode").
#[derive(Drop)]
pub struct File {
    pub place: InodePlace,
    pub core: Core3,
    pub list: Vec<Mapping>,
}

// Whether the data fork is kept as a list of mappings.
fn is_in_extents(core: &Core3) -> bool
    ensures { result ≡ true → format_of core.now Data ≡ Some Extents }
{
    match fork_format(core, Fork::Data) {
        Some(Format::Extents) => true,
        Some(Format::Dev) => false,
        Some(Format::Local) => false,
        Some(Format::Btree) => false,
        None => false,
    }
}

// Why the list isn't read.
fn list_stop(error: ForkError) -> FileStop
    ensures { is_failed result ≡ false }
{
    match error {
        ForkError::Fault(_) => FileStop::NoFile,
        ForkError::Memory => FileStop::Memory,
    }
}

// The list of an inode's mappings.
fn list_of(alloc: Global, geo: &Geometry, core: &Core3) -> Result<Vec<Mapping>, FileStop>
    ensures calm { failed_in result ≡ false }
{
    match inline_fork(alloc, core, Fork::Data, geo) {
        Ok(list) => Ok(list),
        Err(error) => Err(list_stop(error)),
    }
}

// The file whose core this is.
fn with_list(
    alloc: Global,
    geo: &Geometry,
    place: InodePlace,
    core: Core3,
) -> Result<File, FileStop>
    requires place { HasInode geo.now place }
    ensures file { IfOk result (IsFile geo.now) }
    ensures calm { failed_in result ≡ false }
{
    if core.forkoff >= 42 || !is_fork_sound(geo, &core) {
        return Err(FileStop::NoFile);
    }
    if !is_in_extents(&core) {
        return Err(FileStop::TreeFork);
    }
    let list = match list_of(alloc, geo, &core) {
        Ok(list) => list,
        Err(stop) => return Err(stop),
    };
    // Never: the mappings of a sound fork fit.
    if !are_fit(list.as_slice()) {
        return Err(FileStop::Memory);
    }
    Ok(File { place, core, list })
}

// The file in its block.
fn file_in(
    alloc: Global,
    geo: &Geometry,
    place: InodePlace,
    ino: u64,
    block: &Block,
) -> Result<File, FileStop>
    requires place { HasInode geo.now place }
    ensures file { IfOk result (IsFile geo.now) }
    ensures calm { failed_in result ≡ false }
{
    let Some(core) = core_in(block, place.slot, geo, ino) else {
        return Err(FileStop::NoFile);
    };
    with_list(alloc, geo, place, core)
}

/// Reads the core of an inode with the list of its mappings, through the cache: NoFile where it has no
/// place, its core doesn't verify, or its data fork shows a fault; TreeFork where that fork isn't kept as
/// a list (XFS Algorithms and Data Structures, "On-disk Inode").
#[tactic(auto, using(crate::proofs::LookLemmas::no_look, crate::proofs::LookLemmas::looks_calm))]
pub fn read_file<D: Device, L: Ledger>(
    alloc: Global,
    dev: &mut D,
    cache: &mut BlkCache,
    geo: &Geometry,
    ino: u64,
    steps: &mut Steps<L>,
) -> Result<File, FileStop>
    requires room { geo.now.dblocks ≤ D.blocks dev.old Image }
    requires agreed { AgreesTold cache.old (D.content dev.old) }
    ensures file { IfOk result (IsFile geo.now) }
    ensures looks { Looks D.Device (failed_in result) dev.old dev.new cache.new }
{
    let Some(place) = geo.inode_place(ino) else {
        return Err(FileStop::NoFile);
    };
    let mut block = Block::zeroed();
    load(
        dev,
        cache,
        geo,
        (place.group, place.block),
        &mut block,
        steps,
    )?;
    file_in(alloc, geo, place, ino, &block)
}
