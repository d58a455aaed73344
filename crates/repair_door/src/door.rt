ghost use Rattle.std.specs.Prelude.{◌≡◌, ◌≤◌, ◌<◌, IfErr, IfOk, IfSome, None, OnOk, Some};
ghost use Rattle.blk_device.specs.Causes.{HasCause};
ghost use Rattle.blk_device.specs.Contents.{Contents, map_told};
ghost use Rattle.blk_device.specs.declared.device.Region.TheVariants.{Image, Redo};
ghost use Rattle.geom.specs.Places.{layout};
ghost use Rattle.redo_area.specs.Area.{after_recovery};
ghost use Rattle.repair_door.specs.Causes.{is_failed};
ghost use Rattle.repair_door.specs.Doors.{Leaves, PassesBy, door_refusal, heads_refusal, redo_refusal, superblock_refusal};
ghost use Rattle.repair_door.specs.Found.{HasGeometry, IsClosed};

use crate::no_entry::NoEntry;
use blk_device::{Device, Region};
use byte_fields::{Block, Steps};
use check_phases::read_all_heads;
use geom::{Geometry, ImageFault, try_geometry};
use group_trees::GroupHeads;
use redo_area::{REDO_BLOCKS, recover};
use std::alloc::Global;
use std::marker::Brand;
use std::sync::ledger::{Blank, Ledger};

// Finishes a change that waits in the redo region.
#[tactic(auto, using(crate::proofs::GateLemmas::told_closed))]
fn finish_change<D: Device>(dev: &mut D) -> Result<(), NoEntry>
    ensures long { OnOk result (REDO_BLOCKS ≤ D.blocks dev.old Redo) }
    ensures written { OnOk result (D.content dev.new ≡ map_told after_recovery (D.content dev.old)) }
    ensures closed { OnOk result (IfSome (D.content dev.new) IsClosed) }
    ensures exact { IfSome (D.content dev.old)
        (λ m. PassesBy (redo_refusal (D.blocks dev.old Redo) (D.blocks dev.old Image) m) result) }
    ensures left { IfErr result (Leaves (D.content dev.old) (D.content dev.new)) }
    ensures sizes { D.blocks dev.new ≡ D.blocks dev.old }
    ensures cause { HasCause is_failed (D.faults dev.old) (D.faults dev.new) result }
{
    if dev.size(Region::Redo) < REDO_BLOCKS {
        return Err(NoEntry::Short);
    }
    match recover(dev) {
        Ok(_) => Ok(()),
        Err(fault) => Err(NoEntry::from(fault)),
    }
}

// Reads the superblock.
fn geometry_of<D: Device>(dev: &mut D) -> Result<Geometry, NoEntry>
    ensures room { IfOk result (λ geo. geo.dblocks ≤ D.blocks dev.old Image) }
    ensures told { IfOk result (λ geo. IfSome (D.content dev.new)
        (HasGeometry (D.blocks dev.new Image) geo)) }
    ensures exact { IfSome (D.content dev.old)
        (λ m. PassesBy (superblock_refusal (D.blocks dev.old Image) (m Image)) result) }
    ensures same { D.content dev.new ≡ D.content dev.old }
    ensures sizes { D.blocks dev.new ≡ D.blocks dev.old }
    ensures cause { HasCause is_failed (D.faults dev.old) (D.faults dev.new) result }
{
    let blocks = dev.size(Region::Image);
    if blocks == 0 {
        return Err(NoEntry::Image(ImageFault::DeviceShort));
    }
    let mut first = Block::zeroed();
    dev.read(Region::Image, 0, &mut first)?;
    match try_geometry(&first, blocks) {
        Ok(geo) => Ok(geo),
        Err(fault) => Err(NoEntry::Image(fault)),
    }
}

// Reads the heads of all groups. The ledger is that of its steps.
fn heads_counted<D: Device, L: Ledger>(
    alloc: Global,
    dev: &mut D,
    geo: &Geometry,
    blank: Blank,
) -> Result<Vec<GroupHeads>, NoEntry>
    requires room { geo.now.dblocks ≤ D.blocks dev.old Image }
    requires name { blank.name ≡ L.name }
    requires parts { blank.parts ≡ L.parts }
    requires three { blank.parts ≡ 3 }
    ensures exact { (m : Contents) → D.content dev.old ≡ Some m
        → PassesBy (heads_refusal (layout geo.now) (m Image)) result }
    ensures same { D.content dev.new ≡ D.content dev.old }
    ensures sizes { D.blocks dev.new ≡ D.blocks dev.old }
    ensures cause { HasCause is_failed (D.faults dev.old) (D.faults dev.new) result }
{
    let mut steps = Steps::<L>::new(blank);
    match read_all_heads(alloc, dev, geo, &mut steps) {
        Ok(all) => Ok(all),
        Err(halt) => Err(NoEntry::from(halt)),
    }
}

// Reads the heads of all groups, for a caller that counts no steps.
fn heads_of<D: Device>(
    alloc: Global,
    dev: &mut D,
    geo: &Geometry,
) -> Result<Vec<GroupHeads>, NoEntry>
    requires room { geo.now.dblocks ≤ D.blocks dev.old Image }
    ensures exact { (m : Contents) → D.content dev.old ≡ Some m
        → PassesBy (heads_refusal (layout geo.now) (m Image)) result }
    ensures same { D.content dev.new ≡ D.content dev.old }
    ensures sizes { D.blocks dev.new ≡ D.blocks dev.old }
    ensures cause { HasCause is_failed (D.faults dev.old) (D.faults dev.new) result }
{
    let blank = Blank::new(3);
    heads_counted::<D, Brand>(alloc, dev, geo, blank)
}

/// Finishes a change that waits in the redo region, then tests superblock and heads, and answers the
/// geometry of an image that may be repaired: its heads pass. Nothing but the waiting change is written
/// (XFS Online Fsck Design, "Metadata Repair").
pub fn pass_door<D: Device>(alloc: Global, dev: &mut D) -> Result<Geometry, NoEntry>
    ensures room { IfOk result (λ geo. geo.dblocks ≤ D.blocks dev.old Image) }
    ensures redo { OnOk result (REDO_BLOCKS ≤ D.blocks dev.old Redo) }
    ensures told { IfOk result (λ geo. IfSome (D.content dev.new)
        (HasGeometry (D.blocks dev.new Image) geo)) }
    ensures heads { IfOk result (λ geo. (m : Contents) → D.content dev.new ≡ Some m
        → heads_refusal (layout geo) (m Image) ≡ None) }
    ensures written { OnOk result (D.content dev.new ≡ map_told after_recovery (D.content dev.old)) }
    ensures closed { OnOk result (IfSome (D.content dev.new) IsClosed) }
    ensures exact { IfSome (D.content dev.old)
        (λ m. PassesBy (door_refusal (D.blocks dev.old Redo) (D.blocks dev.old Image) m) result) }
    ensures left { IfErr result (Leaves (D.content dev.old) (D.content dev.new)) }
    ensures sizes { D.blocks dev.new ≡ D.blocks dev.old }
    ensures cause { HasCause is_failed (D.faults dev.old) (D.faults dev.new) result }
{
    finish_change(dev)?;
    let geo = geometry_of(dev)?;
    let _ = heads_of(alloc, dev, &geo)?;
    Ok(geo)
}
