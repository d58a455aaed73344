// The new blocks of a rebuild, staged piece by piece.
ghost use Rattle.std.specs.Prelude.{◌≡◌, Bool, ℕ, ◌<◌, ◌≤◌, true, IfOk, OnErr, OnOk, false, IfErr};
ghost use Rattle.blk_cache.specs.Cache.{AgreesTold};
ghost use Rattle.blk_device.specs.Causes.{HasCause};
ghost use Rattle.blk_device.specs.Contents.{Becomes};
ghost use Rattle.blk_device.specs.Crash.{IsDurable};
ghost use Rattle.blk_device.specs.Reading.{Keeps};
ghost use Rattle.blk_device.specs.declared.device.Region.{Region};
ghost use Rattle.blk_device.specs.declared.device.Region.TheVariants.{Image};
ghost use Rattle.core_units.specs.Rebuilt.{IsReserved, frame_in};
ghost use Rattle.core_units.specs.Staged.{IsAt, IsKept, IsPiece, KeepsBytes, NoneKept, is_synced};
ghost use Rattle.geom.specs.Layout.{device_block_of};
ghost use Rattle.geom.specs.Places.{layout};
ghost use Rattle.inode_pass.specs.Stops.{is_failed};

use crate::rebuild::Rebuild;
use crate::stage::{Staging, stage_lists};
use blk_cache::BlkCache;
use blk_device::Device;
use byte_fields::Steps;
use geom::Geometry;
use inode_pass::PassStop;
use std::alloc::Global;
use std::sync::ledger::Ledger;

/// Writes at most 64 of the new blocks on the reserve; the last call syncs. Answers whether all are
/// there. No block beside the reserve is written, at no moment
/// (XFS Online Fsck Design, "Writing the New Tree").
pub fn stage_piece<D: Device, L: Ledger>(
    alloc: Global,
    dev: &mut D,
    cache: &mut BlkCache,
    geo: &Geometry,
    rebuild: &Rebuild,
    at: &mut Staging,
    steps: &mut Steps<L>,
) -> Result<bool, PassStop>
    requires group { rebuild.now.group < geo.now.agcount }
    requires room { geo.now.dblocks ≤ D.blocks dev.old Image }
    requires agreed { AgreesTold cache.old (D.content dev.old) }
    requires reserved { IsReserved (layout geo.now) rebuild.now.group rebuild.now }
    requires at { IsAt rebuild.now.building.lists at.old }
    ensures staged { OnOk result (IsPiece rebuild.now.building.lists rebuild.now.building.reserve.items (frame_in (layout geo.now) rebuild.now) at.old at.new (D.content dev.old) (D.content dev.new)) }
    ensures done { IfOk result (λ is_done. is_done ≡ is_synced at.new) }
    ensures durable { IfOk result (λ is_done. is_done ≡ true → IsDurable Image (D.content dev.new) (D.may_hold_now dev.new)) }
    ensures at { IsAt rebuild.now.building.lists at.new }
    ensures stays { OnErr result (at.new ≡ at.old) }
    ensures moments { (keep : Region → ℕ → Bool) → NoneKept (device_block_of (layout geo.now) rebuild.now.group 0) keep rebuild.now.building.reserve.items → Keeps D.Device (IsKept keep) dev.old dev.new }
    ensures kept { (keep : Region → ℕ → Bool) → NoneKept (device_block_of (layout geo.now) rebuild.now.group 0) keep rebuild.now.building.reserve.items → Becomes (D.content dev.old) (D.content dev.new) (KeepsBytes keep) }
    ensures agrees { OnOk result (AgreesTold cache.new (D.content dev.new)) }
    ensures calm { IfErr result (λ stop. is_failed stop ≡ false → AgreesTold cache.new (D.content dev.new)) }
    ensures sizes { D.blocks dev.new ≡ D.blocks dev.old }
    ensures cause { HasCause is_failed (D.faults dev.old) (D.faults dev.new) result }
    ensures reads { D.reads dev.new ≡ D.reads dev.old }
{
    let lists = &rebuild.building.lists;
    let reserve = rebuild.building.reserve.as_slice();
    stage_lists(
        alloc,
        dev,
        cache,
        geo,
        rebuild.group,
        rebuild.lsn,
        lists,
        reserve,
        at,
        steps,
    )
}
