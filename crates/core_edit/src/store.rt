ghost use Rattle.std.specs.Prelude.{◌≡◌, ◌≤◌, IfErr, IfOk};
ghost use Rattle.blk_cache.specs.Cache.{Agrees};
ghost use Rattle.blk_device.specs.Contents.{Contents};
ghost use Rattle.blk_device.specs.declared.device.Region.TheVariants.{Image, Redo};
ghost use Rattle.redo_area.specs.declared.TheConstants.{REDO_BLOCKS};
ghost use Rattle.core_edit.specs.Open.{IsEmpty};
ghost use Rattle.core_edit.specs.Ready.{IsReady};

use crate::OpenEdit;
use blk_cache::{BlkCache, Memory};
use blk_device::Device;
use geom::Geometry;
use std::alloc::Global;

/// So many blocks of the image are kept at most.
pub const MOST_KEPT: usize = 4096;

/// A device with its geometry, the blocks of its image that are kept, and the edit of a group in which
/// an event gathers what it writes.
pub struct Store<D: Device> {
    pub dev: D,
    pub geo: Geometry,
    pub cache: BlkCache,
    pub edit: OpenEdit,
}

// What a store has beside the device.
#[derive(Drop)]
struct Room {
    cache: BlkCache,
    edit: OpenEdit,
}

fn make_room(alloc: Global) -> Result<Room, Memory>
    ensures agrees { IfOk result (λ room. (c : Contents) → Agrees room.cache c) }
    ensures empty { IfOk result (λ room. IsEmpty room.edit) }
{
    Ok(Room {
        cache: BlkCache::new(alloc, MOST_KEPT)?,
        edit: OpenEdit::new(alloc)?,
    })
}

impl<D: Device> Store<D> {
    /// A store of this device, of which nothing is kept yet; no block is read. Where there is no memory,
    /// the device comes back.
    #[tactic(auto, using(crate::proofs::StoreLemmas::fresh_ready))]
    pub fn new(alloc: Global, dev: D, geo: Geometry) -> Result<Self, (D, Memory)>
        ensures device { IfOk result (λ store. store.dev ≡ dev) }
        ensures geometry { IfOk result (λ store. store.geo ≡ geo) }
        ensures agrees { IfOk result (λ store. (c : Contents) → Agrees store.cache c) }
        ensures empty { IfOk result (λ store. IsEmpty store.edit) }
        ensures ready { geo.dblocks ≤ D.blocks dev Image → REDO_BLOCKS ≤ D.blocks dev Redo → IfOk result (IsReady D.Device) }
        ensures back { IfErr result (λ back. back.0 ≡ dev) }
    {
        match make_room(alloc) {
            Ok(room) => Ok(Store {
                dev,
                geo,
                cache: room.cache,
                edit: room.edit,
            }),
            Err(memory) => Err((dev, memory)),
        }
    }

    /// Ends the store, and hands its device out. What wasn't committed is let go.
    pub fn into_device(self) -> D
        ensures { result ≡ self.dev }
    {
        let Store {
            dev,
            geo: _,
            cache: _,
            edit: _,
        } = self;
        dev
    }
}
