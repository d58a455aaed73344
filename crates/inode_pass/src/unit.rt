ghost use Rattle.std.specs.Prelude.{◌≡◌, ◌+◌, ◌*◌, ◌<◌, ◌≤◌, ◌^◌, ◌++◌, Some, IfOk, OnOk, length, map};
ghost use Rattle.blk_device.specs.Causes.{HasCause};
ghost use Rattle.blk_device.specs.Contents.{Contents};
ghost use Rattle.blk_device.specs.Reading.{OnlyRead};
ghost use Rattle.blk_device.specs.declared.device.Region.TheVariants.{Image};
ghost use Rattle.geom.specs.Layout.{device_block_of, group_len_of};
ghost use Rattle.geom.specs.Places.{layout};
ghost use Rattle.inode_pass.specs.Cores.{block_looks, blocks_looks, broken_from, mode_seen};
ghost use Rattle.inode_pass.specs.Notes.{AreFit, block_notes, blocks_notes, unit_notes};
ghost use Rattle.inode_pass.specs.Noting.{kept_notes};
ghost use Rattle.inode_pass.specs.Stops.{is_failed};
ghost use Rattle.inode_pass.specs.Units.{IsSeen};

use crate::load::read_block;
use crate::look::look_block;
use crate::note::ForkNote;
use crate::stop::PassStop;
use blk_device::Device;
use byte_fields::{Block, Steps};
use dinode_core::{CoreFault, Mapping};
use fs_model::Evidence;
use geom::Geometry;
use index_derive::{UnitCores, free_mask};
use std::alloc::{AllocError, Global};
use std::sync::ledger::Ledger;

/// The blocks of a unit of 64 inodes.
pub const UNIT_BLOCKS: u32 = 8;

// The inodes of a block, and those of a unit.
const BLOCK_INODES: u32 = 8;

const UNIT_INODES: usize = 64;

/// What the 64 cores of a unit say together: which of its inodes are free, where all verify, and
/// the first that doesn't, as evidence that names its block
/// (XFS Algorithms and Data Structures, "Inode B+trees").
#[derive(Clone, Copy, Debug, PartialEq, Eq)]
pub struct UnitSeen {
    pub cores: UnitCores,
    pub broken: Option<Evidence>,
}

// Puts down what the cores of one block of a group say and show, which is read into a block that is lent.
fn look_read<D: Device, L: Ledger>(
    dev: &mut D,
    geo: &Geometry,
    g: u32,
    b: u32,
    block: &mut Block,
    looks: &mut Vec<Result<u16, CoreFault>>,
    room: &mut Vec<Mapping>,
    notes: &mut Vec<ForkNote>,
    steps: &mut Steps<L>,
) -> Result<(), PassStop>
    requires group { g < geo.now.agcount }
    requires block { b < group_len_of (layout geo.now) g }
    requires room { geo.now.dblocks ≤ D.blocks dev.old Image }
    ensures exact { OnOk result ((c : Contents) → D.content dev.old ≡ Some c → looks.new.items ≡ looks.old.items ++ block_looks (layout geo.now) (c Image (device_block_of (layout geo.now) g b)) g b) }
    ensures noted { OnOk result ((c : Contents) → D.content dev.old ≡ Some c → notes.new.items ≡ notes.old.items ++ block_notes (layout geo.now) (c Image (device_block_of (layout geo.now) g b)) g b) }
    ensures fit { OnOk result (AreFit (layout geo.now) g notes.old.items → AreFit (layout geo.now) g notes.new.items) }
    ensures eight { OnOk result (length looks.new.items ≡ length looks.old.items + 8) }
    ensures reading { OnlyRead D.Device dev.old dev.new steps.old steps.new }
    ensures cause { HasCause is_failed (D.faults dev.old) (D.faults dev.new) result }
    ensures one { steps.new.reads ≡ steps.old.reads + 1 }
{
    let at = geo.device_block(g, b);
    read_block(dev, at, block, steps)?;
    look_block(block, geo, g, b, looks, room, notes)?;
    Ok(())
}

// What the cores of a unit say, one after the other; what they show is put behind the notes.
fn look_unit<D: Device, L: Ledger>(
    alloc: Global,
    dev: &mut D,
    geo: &Geometry,
    g: u32,
    unit: u32,
    notes: &mut Vec<ForkNote>,
    steps: &mut Steps<L>,
) -> Result<Vec<Result<u16, CoreFault>>, PassStop>
    requires group { g < geo.now.agcount }
    requires inside { 8 * unit + 7 < group_len_of (layout geo.now) g }
    requires room { geo.now.dblocks ≤ D.blocks dev.old Image }
    ensures exact { IfOk result (λ looks. (c : Contents) → D.content dev.old ≡ Some c → looks.items ≡ blocks_looks (layout geo.now) (c Image) g (8 * unit) 8) }
    ensures noted { OnOk result ((c : Contents) → D.content dev.old ≡ Some c → notes.new.items ≡ notes.old.items ++ blocks_notes (layout geo.now) (c Image) g (8 * unit) 8) }
    ensures fit { OnOk result (AreFit (layout geo.now) g notes.old.items → AreFit (layout geo.now) g notes.new.items) }
    ensures all { IfOk result (λ looks. length looks.items ≡ 64) }
    ensures reading { OnlyRead D.Device dev.old dev.new steps.old steps.new }
    ensures cause { HasCause is_failed (D.faults dev.old) (D.faults dev.new) result }
    ensures few { steps.new.reads ≤ steps.old.reads + 8 }
{
    let mut looks = Vec::with_capacity(alloc, UNIT_INODES)?;
    // One list for the mappings of all forks, one after the other.
    let mut room = Vec::new(alloc);
    let mut block = Block::zeroed();
    for j in 0..UNIT_BLOCKS {
        let b = UNIT_BLOCKS * unit + j;
        look_read(
            dev, geo, g, b, &mut block, &mut looks, &mut room, notes, steps,
        )?;
    }
    Ok(looks)
}

// The modes of cores that verify.
fn modes_of(alloc: Global, looks: &[Result<u16, CoreFault>]) -> Result<Vec<Option<u16>>, AllocError>
    ensures { IfOk result (λ modes. modes.items ≡ map mode_seen looks.now) }
{
    looks
        .iter()
        .map(|look| match look {
            Ok(mode) => Some(*mode),
            Err(_) => None,
        })
        .collect(alloc)
}

// The first core of a unit that doesn't verify, as evidence.
fn first_broken(unit: u32, looks: &[Result<u16, CoreFault>]) -> Option<Evidence>
    requires unit { unit < 2 ^ 26 }
    requires all { length looks.now ≡ 64 }
    ensures { result ≡ broken_from unit 0 looks.now }
{
    for i in 0..64u32 {
        if let Err(fault) = looks[i as usize] {
            return Some(Evidence::BadChunk {
                block: UNIT_BLOCKS * unit + i / BLOCK_INODES,
                fault,
            });
        }
    }
    None
}

// Takes back what was put down of a unit whose cores don't all verify: it is no chunk.
fn keep_notes(free: Option<u64>, before: usize, notes: &mut Vec<ForkNote>)
    ensures { notes.new.items ≡ kept_notes before free notes.old.items }
{
    if free.is_none() {
        notes.truncate(before);
    }
}

/// Reads the 64 cores of a unit, each of its blocks once; what they show is put behind the notes, where
/// all verify (XFS Algorithms and Data Structures, "Inode B+trees").
pub fn see_unit<D: Device, L: Ledger>(
    alloc: Global,
    dev: &mut D,
    geo: &Geometry,
    g: u32,
    unit: u32,
    notes: &mut Vec<ForkNote>,
    steps: &mut Steps<L>,
) -> Result<UnitSeen, PassStop>
    requires group { g < geo.now.agcount }
    requires inside { 8 * unit + 7 < group_len_of (layout geo.now) g }
    requires room { geo.now.dblocks ≤ D.blocks dev.old Image }
    ensures exact { IfOk result (λ seen. (c : Contents) → D.content dev.old ≡ Some c → IsSeen (layout geo.now) (c Image) g seen) }
    ensures noted { OnOk result ((c : Contents) → D.content dev.old ≡ Some c → notes.new.items ≡ notes.old.items ++ unit_notes (layout geo.now) (c Image) g unit) }
    ensures fit { OnOk result (AreFit (layout geo.now) g notes.old.items → AreFit (layout geo.now) g notes.new.items) }
    ensures unit { IfOk result (λ seen. seen.cores.unit ≡ unit) }
    ensures reading { OnlyRead D.Device dev.old dev.new steps.old steps.new }
    ensures cause { HasCause is_failed (D.faults dev.old) (D.faults dev.new) result }
    ensures few { steps.new.reads ≤ steps.old.reads + 8 }
{
    let before = notes.len();
    let looks = look_unit(alloc, dev, geo, g, unit, notes, steps)?;
    let modes = modes_of(alloc, looks.as_slice())?;
    let free = free_mask(modes.as_slice());
    keep_notes(free, before, notes);
    Ok(UnitSeen {
        cores: UnitCores { unit, free },
        broken: first_broken(unit, looks.as_slice()),
    })
}
