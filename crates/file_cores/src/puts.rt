// A changed core, put into a transaction.
ghost use Rattle.std.specs.Prelude.{◌≡◌, ◌≤◌, true, OnErr, OnOk};
ghost use Rattle.blk_cache.specs.Cache.{AgreesTold};
ghost use Rattle.blk_device.specs.declared.device.Region.TheVariants.{Image};
ghost use Rattle.file_cores.specs.Looks.{Looks, failed_in, is_failed};
ghost use Rattle.file_cores.specs.Puts.{PutsOne};
ghost use Rattle.geom.specs.Places.{HasInode};

use crate::cores::put_core;
use crate::stop::FileStop;
use blk_cache::BlkCache;
use blk_device::Device;
use byte_fields::Steps;
use dinode_core::Core3;
use geom::{Geometry, InodePlace};
use meta_txn::{Txn, TxnFault};
use std::sync::ledger::Ledger;

// Why a block isn't joined. So few are that a transaction is never full of them.
fn joins_not(fault: TxnFault) -> FileStop
    ensures { is_failed result ≡ true → fault ≡ TxnFault.Failed }
{
    match fault {
        TxnFault::TooMany(_) => FileStop::Memory,
        TxnFault::Failed => FileStop::Failed,
    }
}

/// Puts a core over that of the inode at this place, in the transaction: its block is joined, as the
/// transaction or the device has it (XFS Algorithms and Data Structures, "On-disk Inode").
#[tactic(auto, using(crate::proofs::LookLemmas::inside_image, crate::proofs::LookLemmas::searched_looks))]
pub fn put_file<D: Device, L: Ledger>(
    dev: &mut D,
    cache: &mut BlkCache,
    txn: &mut Txn,
    geo: &Geometry,
    place: InodePlace,
    core: &Core3,
    steps: &mut Steps<L>,
) -> Result<(), FileStop>
    requires place { HasInode geo.now place }
    requires room { geo.now.dblocks ≤ D.blocks dev.old Image }
    requires agreed { AgreesTold cache.old (D.content dev.old) }
    ensures put { OnOk result (PutsOne (D.blocks dev.old Image) txn.old.blocks txn.new.blocks) }
    ensures marked { txn.new.marked ≡ txn.old.marked }
    ensures kept { OnErr result (txn.new ≡ txn.old) }
    ensures looks { Looks D.Device (failed_in result) dev.old dev.new cache.new }
{
    let at = geo.device_block(place.group, place.block);
    let found = match txn.join(dev, cache, at, steps) {
        Ok(found) => found,
        Err(fault) => return Err(joins_not(fault)),
    };
    put_core(found, place.slot, core);
    Ok(())
}
