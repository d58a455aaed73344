ghost use Rattle.std.specs.Prelude.{◌≡◌};

use crate::forks::{name_of, show_mapping};
use blk_cache::BlkCache;
use blk_device::{Device, FileDevice, Region};
use byte_fields::{Block, Steps};
use dinode_core::Fork;
use fork_read::{ForkPiece, ReadFault, fork_piece};
use geom::{Geometry, try_geometry};
use std::alloc::Global;
use std::io::{Seek, SeekFrom};
use std::marker::Brand;
use std::rt::Files;
use std::sync::ledger::{Blank, Ledger};
use std::{fs, io};

// No fork has more pieces: each but the last one has a mapping, and offsets have 54 bits.
const MOST_PIECES: u64 = 1 << 54;

fn counted<D: Device, L: Ledger>(
    alloc: Global,
    dev: &mut D,
    geo: &Geometry,
    ino: u64,
    fork: Fork,
    from: u64,
    blank: Blank,
) -> Result<ForkPiece, ReadFault>
    requires name { blank.name ≡ L.name }
    requires parts { blank.parts ≡ L.parts }
    requires three { blank.parts ≡ 3 }
{
    if dev.size(Region::Image) < geo.dblocks || geo.split_fs_block(ino / 8).is_none() {
        return Err(ReadFault::Failed);
    }
    let Ok(mut cache) = BlkCache::new(alloc, 1) else {
        return Err(ReadFault::Memory);
    };
    let mut steps = Steps::<L>::new(blank);
    fork_piece(alloc, dev, &mut cache, geo, ino, fork, from, &mut steps)
}

// A piece of a fork, for a caller that counts no steps.
fn piece_of<D: Device>(
    alloc: Global,
    dev: &mut D,
    geo: &Geometry,
    ino: u64,
    fork: Fork,
    from: u64,
) -> Result<ForkPiece, ReadFault> {
    let blank = Blank::new(3);
    counted::<D, Brand>(alloc, dev, geo, ino, fork, from, blank)
}

fn show_piece<R: Print>(rt: &R, name: &str, piece: &ForkPiece) -> io::Result<()> {
    for m in piece.mappings.iter() {
        show_mapping(rt, name, m)?;
    }
    for block in piece.tree_blocks.iter() {
        println!(rt; "{name} tree {block}")?;
    }
    Ok(())
}

// Shows a fork piece by piece: its mappings, and the blocks of its btree.
fn show_fork<R: Print, D: Device>(
    rt: &R,
    alloc: Global,
    dev: &mut D,
    geo: &Geometry,
    ino: u64,
    fork: Fork,
) -> io::Result<()> {
    let name = name_of(fork);
    let mut from = 0;
    for _ in 0..MOST_PIECES {
        match piece_of(alloc, dev, geo, ino, fork, from) {
            Ok(piece) => {
                show_piece(rt, name, &piece)?;
                match piece.next {
                    Some(next) => from = next,
                    None => return Ok(()),
                }
            }
            Err(fault) => return println!(rt; "{name} {fault}"),
        }
    }
    Ok(())
}

fn open_image<R: Files>(rt: &R, alloc: Global, name: &str) -> io::Result<FileDevice<R::File>> {
    let mut image = fs::open(rt, name)?;
    let blocks = image.seek(SeekFrom::End(0))? / 4096;
    Ok(FileDevice::new(alloc, image, None, blocks, 162))
}

fn geometry_of<D: Device>(dev: &mut D) -> Option<Geometry> {
    let blocks = dev.size(Region::Image);
    if blocks == 0 {
        return None;
    }
    let mut superblock = Block::zeroed();
    dev.read(Region::Image, 0, &mut superblock).ok()?;
    try_geometry(&superblock, blocks).ok()
}

/// Shows both forks of each of these inodes of an image, their btrees included: a line for each mapping
/// and for each block of a btree. A fork that is refused is shown as far as it was read, and then a
/// line with its fault. (XFS Algorithms and Data Structures, "Data Fork" and "Attribute Fork".)
pub fn show_whole<R: Files + Print>(
    rt: &R,
    alloc: Global,
    image: &str,
    inodes: &[u64],
) -> io::Result<()> {
    let mut dev = open_image(rt, alloc, image)?;
    let Some(geo) = geometry_of(&mut dev) else {
        return println!(rt; "no geometry");
    };
    for ino in inodes {
        println!(rt; "ino {ino}")?;
        show_fork(rt, alloc, &mut dev, &geo, *ino, Fork::Data)?;
        show_fork(rt, alloc, &mut dev, &geo, *ino, Fork::Attr)?;
    }
    Ok(())
}
