// What first events make of the list of a file's mappings.
ghost use Rattle.std.specs.Prelude.{◌≡◌, ◌<◌};
ghost use Rattle.core_chains.specs.Write.Writes.{HasWriteReason, WritesWell};
ghost use Rattle.file_cores.specs.Files.{IsFile};

use blk_device::Device;
use core_calls::WriteFault;
use core_parts::Desk;
use dinode_core::{Core3, Mapping};
use file_cores::{File, are_fit};
use fork_change::{ForkChange, add, convert, put_list, take};
use std::alloc::Global;

/// Blocks of a data fork: so many from an offset on.
#[derive(Clone, Copy)]
pub struct Range {
    pub offset: u64,
    pub count: u32,
}

/// How a writer is told why a list isn't changed.
pub fn change_fault<D: Device>(desk: &Desk<D>, error: ForkChange) -> WriteFault
    ensures { HasWriteReason desk.now result }
{
    let _ = desk;
    match error {
        ForkChange::Hole => WriteFault::Hole,
        ForkChange::Occupied => WriteFault::Occupied,
        ForkChange::Full(_) => WriteFault::ForkFull,
        ForkChange::Memory => WriteFault::Memory,
    }
}

/// Takes the piece of one mapping at an offset out of the file's list, and answers it.
pub fn take_piece<D: Device>(
    alloc: Global,
    desk: &Desk<D>,
    file: &mut File,
    range: Range,
) -> Result<Mapping, WriteFault>
    requires file { IsFile desk.now.store.geo file.old }
    requires some { 0 < range.count }
    ensures file { IsFile desk.now.store.geo file.new }
    ensures reason { WritesWell desk.now result }
{
    match take(alloc, &mut file.list, range.offset, range.count, u32::MAX) {
        Ok(piece) => Ok(piece),
        Err(error) => Err(change_fault(desk, error)),
    }
}

/// Makes the piece of one mapping at an offset written in the file's list, and answers it as it was.
pub fn convert_piece<D: Device>(
    alloc: Global,
    desk: &Desk<D>,
    file: &mut File,
    range: Range,
) -> Result<Mapping, WriteFault>
    requires file { IsFile desk.now.store.geo file.old }
    requires some { 0 < range.count }
    ensures file { IsFile desk.now.store.geo file.new }
    ensures reason { WritesWell desk.now result }
{
    match convert(
        alloc,
        &desk.store.geo,
        &mut file.list,
        range.offset,
        range.count,
        u32::MAX,
    ) {
        Ok(piece) => Ok(piece),
        Err(error) => Err(change_fault(desk, error)),
    }
}

/// The core of a file with its list, where that fits the inode.
pub fn filled<D: Device>(desk: &Desk<D>, file: &File) -> Result<Core3, WriteFault>
    requires file { IsFile desk.now.store.geo file.now }
    ensures reason { WritesWell desk.now result }
{
    let mut core = file.core;
    match put_list(&mut core, file.list.as_slice()) {
        Ok(()) => Ok(core),
        Err(error) => Err(change_fault(desk, error)),
    }
}

/// Adds a mapping to the file's list (XFS Algorithms and Data Structures, "Data Extents").
pub fn add_mapping<D: Device>(
    alloc: Global,
    desk: &Desk<D>,
    file: &mut File,
    m: &Mapping,
) -> Result<(), WriteFault>
    requires file { IsFile desk.now.store.geo file.old }
    ensures file { IsFile desk.now.store.geo file.new }
    ensures reason { WritesWell desk.now result }
{
    // Never: offsets and blocks that are asked for and chosen fit a packed mapping.
    if !are_fit(&[*m]) {
        return Err(WriteFault::Memory);
    }
    match add(alloc, &desk.store.geo, &mut file.list, m, u32::MAX) {
        Ok(()) => Ok(()),
        Err(error) => Err(change_fault(desk, error)),
    }
}

/// The core of a file with its list and so many blocks more; none where the fork has no room
/// (XFS Algorithms and Data Structures, "On-disk Inode").
pub fn grown<D: Device>(desk: &Desk<D>, file: &File, count: u32) -> Option<Core3>
    requires file { IsFile desk.now.store.geo file.now }
{
    let mut core = file.core;
    match put_list(&mut core, file.list.as_slice()) {
        Ok(()) => {}
        Err(_) => return None,
    }
    core.nblocks = core.nblocks.wrapping_add(u64::from(count));
    Some(core)
}
