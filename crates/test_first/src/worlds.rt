// A core over the image of a file, and what its parts show.
ghost use Rattle.core_parts.specs.Safe.{IsSafe};

use blk_device::{Device, MemDevice, Region};
use byte_fields::{Block, Steps};
use core_chains::chains::read_inode;
use core_chains::write::writer_unshut;
use core_parts::Parts;
use defer_chain::StepKind;
use file_cores::File;
use fs_model::Entry;
use fsck_core::open;
use geom::try_geometry;
use redo_area::REDO_BLOCKS;
use small_images::file_with;
use std::alloc::Global;
use std::process::Abort;
use std::sync::ledger::Ledger;

const FITS: &str = "memory is there";

const READS: &str = "it can be read";

// A core over a device.
fn core_on<D: Device, L: Ledger>(
    rt: &impl Abort,
    alloc: Global,
    mut dev: D,
    steps: &mut Steps<L>,
) -> Parts<D>
    ensures safe { IsSafe D.Device result }
{
    let size = dev.size(Region::Image);
    if size == 0 || dev.size(Region::Redo) < REDO_BLOCKS {
        panic!(rt; "the device is too short");
    }
    let mut block = Block::zeroed();
    dev.read(Region::Image, 0, &mut block).expect(rt, READS);
    let geo = try_geometry(&block, size).expect(rt, READS);
    match open(alloc, dev, geo, steps) {
        Ok(parts) => parts,
        Err(_) => panic!(rt; "it can be opened"),
    }
}

/// A core over the image of a file.
pub(crate) fn opened<L: Ledger>(
    rt: &impl Abort,
    alloc: Global,
    steps: &mut Steps<L>,
) -> Parts<MemDevice>
    ensures safe { IsSafe ⟦<MemDevice as Device>⟧ result }
{
    let image = file_with(alloc, &[]).expect(rt, FITS);
    let dev = MemDevice::with_image(alloc, 256, 162, image.blocks, Vec::new(alloc)).expect(
        rt, FITS,
    );
    core_on(rt, alloc, dev, steps)
}

/// The next step of chain 0.
pub(crate) fn next_of<D: Device>(parts: &Parts<D>) -> Option<StepKind> {
    match parts.desk.drain.chain(0) {
        Some(chain) => chain.next_kind(),
        None => None,
    }
}

/// The last entry of the journal.
pub(crate) fn last_of<D: Device>(parts: &Parts<D>) -> Option<Entry> {
    parts.desk.book.journal.last().copied()
}

/// The free blocks of group 0, as its head counts them.
pub(crate) fn free_of<D: Device>(parts: &Parts<D>) -> Option<u32> {
    match parts.groups.first() {
        Some(kept) => Some(kept.heads.agf.freeblks),
        None => None,
    }
}

/// File 195 as the device has it.
#[tactic(auto, using(crate::proofs::SafeLemmas::desk_safe))]
pub(crate) fn file_of<D: Device, L: Ledger>(
    rt: &impl Abort,
    alloc: Global,
    parts: &mut Parts<D>,
    steps: &mut Steps<L>,
) -> File
    requires safe { IsSafe D.Device parts.old }
    ensures safe { IsSafe D.Device parts.new }
{
    writer_unshut(&parts.desk).expect(rt, "no fault was met");
    match read_inode(alloc, &mut parts.desk, 195, steps) {
        Ok(file) => file,
        Err(_) => panic!(rt; "it can be read"),
    }
}
