// Cores over images in memory, what their parts show, and what the check says of an image after a session.
ghost use Rattle.core_parts.specs.Safe.{AreKept, IsSafe};
ghost use Rattle.std.specs.Prelude.{◌≡◌, length};

use ag_headers::Agfl;
use blk_device::{Device, MemDevice, Region};
use byte_fields::{Block, Steps};
use check_watch::NoWatch;
use core_parts::{GroupKept, Parts};
use fresh_image::write_fresh;
use fs_model::{Entry, Verdict};
use fsck_core::{into_device, open};
use geom::try_geometry;
use image_check::check_image;
use image_hosts::MemImage;
use redo_area::REDO_BLOCKS;
use std::alloc::Global;
use std::process::Abort;
use std::sync::ledger::Ledger;

pub(crate) const FITS: &str = "memory is there";

const READS: &str = "it can be read";

// A core over a device.
fn core_on<D: Device, L: Ledger>(
    rt: &impl Abort,
    alloc: Global,
    mut dev: D,
    steps: &mut Steps<L>,
) -> Parts<D>
    ensures safe { IsSafe D.Device result }
{
    let size = dev.size(Region::Image);
    if size == 0 || dev.size(Region::Redo) < REDO_BLOCKS {
        panic!(rt; "the device is too short");
    }
    let mut first = Block::zeroed();
    dev.read(Region::Image, 0, &mut first).expect(rt, READS);
    let geo = try_geometry(&first, size).expect(rt, READS);
    match open(alloc, dev, geo, steps) {
        Ok(parts) => parts,
        Err(_) => panic!(rt; "it can be opened"),
    }
}

/// A core over a new image of one group of 256 blocks.
pub(crate) fn core_fresh<L: Ledger>(
    rt: &impl Abort,
    alloc: Global,
    steps: &mut Steps<L>,
) -> Parts<MemDevice>
    ensures safe { IsSafe ⟦<MemDevice as Device>⟧ result }
{
    let mut dev = MemDevice::new(alloc, 256, 162, Vec::new(alloc));
    if dev.size(Region::Image) < 256 {
        panic!(rt; "the device is too short");
    }
    write_fresh(&mut dev, 1, 256).expect(rt, READS);
    core_on(rt, alloc, dev, steps)
}

/// A core over an image.
pub(crate) fn core_over<L: Ledger>(
    rt: &impl Abort,
    alloc: Global,
    image: MemImage,
    steps: &mut Steps<L>,
) -> Parts<MemDevice>
    ensures safe { IsSafe ⟦<MemDevice as Device>⟧ result }
{
    let MemImage {
        size,
        blocks,
        failing,
    } = image;
    let dev = MemDevice::with_image(alloc, size, 162, blocks, failing).expect(rt, FITS);
    core_on(rt, alloc, dev, steps)
}

/// The free list of group 0.
pub(crate) fn list_of<D: Device>(rt: &impl Abort, parts: &Parts<D>) -> Agfl {
    match parts.groups.first() {
        Some(kept) => kept.heads.list,
        None => panic!(rt; "a group is there"),
    }
}

// Another free list of group 0, where a group is there.
#[tactic(auto, using(core_chains::proofs::write::Places::set_kept))]
fn set_list(groups: &mut Vec<GroupKept>, list: Agfl)
    requires kept { AreKept groups.old.items }
    ensures kept { AreKept groups.new.items }
    ensures many { length groups.new.items ≡ length groups.old.items }
{
    if !groups.is_empty() {
        groups[0].heads.list = list;
    }
}

/// The free list of group 0 becomes this one.
#[tactic(auto, using(crate::proofs::SafeLemmas::groups_safe))]
pub(crate) fn with_list<D: Device>(parts: &mut Parts<D>, list: Agfl)
    requires safe { IsSafe D.Device parts.old }
    ensures safe { IsSafe D.Device parts.new }
{
    set_list(&mut parts.groups, list);
}

// Whether the entry is a verdict that a unit is good.
fn is_good(entry: &Entry) -> bool {
    match entry {
        Entry::Verdict {
            group: _,
            unit: _,
            verdict: Verdict::Good,
        } => true,
        _ => false,
    }
}

/// Ends the core: its journal, and how many entries of the check of the image aren't a good verdict.
pub(crate) fn ended<D: Device + Drop, L: Ledger>(
    rt: &impl Abort,
    alloc: Global,
    parts: Parts<D>,
    steps: &mut Steps<L>,
) -> (Vec<Entry>, usize)
    requires safe { IsSafe D.Device parts }
{
    let geo = parts.desk.store.geo;
    let (mut dev, journal) = into_device(parts);
    let Ok(checked) = check_image(alloc, &mut dev, &geo, steps, &mut NoWatch) else {
        panic!(rt; "it can be checked");
    };
    let mut bad = 0usize;
    for entry in checked.as_slice() {
        if !is_good(entry) {
            bad = bad.saturating_add(1);
        }
    }
    (journal, bad)
}
