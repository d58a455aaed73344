// The core as the value of a lock.
use crate::acting::{Core, ask_core, core_of, parts_of};
use crate::origin::Origin;
use blk_device::{Device, Region};
use core_calls::{Answer, Ask, Glance};
use core_parts::Parts;
use fs_model::Entry;
use fsck_core::into_device;
use std::alloc::Global;
use std::marker::Model;
use turn_lock::Recorded;

/// A core that threads share. Contracts see its parts, which are always in order
/// (XFS Online Fsck Design, "Live Updates").
pub struct Shared<D: Device> {
    core: Core<D>,
}

impl<D: Device> Model for Shared<D> {
    ghost use Rattle.core_parts.specs.Safe.{IsSafe};
    ghost use Rattle.core_parts.specs.declared.parts.Parts.{Parts};

    ghost Value = { Parts D };

    ghost view = { λ s. s.core.parts };

    ghost invariant = { λ s. IsSafe D.Device s.core.parts };
}

impl<D: Device + Drop> Drop for Shared<D> {
    fn drop(self) {
        let Shared { core } = self;
        let (_dev, _journal) = into_device(parts_of(core));
    }
}

impl<D: Device> Recorded for Shared<D> {
    type Entry = Entry;

    type Origin = Origin;

    type Kept = u32;

    ghost use Rattle.live_fs.specs.Passes.{origin_of};

    ghost journal = { λ p. p.desk.book.journal.items };

    ghost origin = { λ p. origin_of D.Device p };

    ghost kept = { λ p a. 0 };

    fn entries(&self) -> u64 {
        self.core.parts.desk.book.journal.len() as u64
    }
}

impl<D: Device> Shared<D> {
    ghost use Rattle.std.specs.Prelude.{◌≡◌};
    ghost use Rattle.core_parts.specs.Keeps.{IsSteady};
    ghost use Rattle.core_parts.specs.Safe.{IsSafe};
    ghost use Rattle.fsck_core.specs.Acts.{StaysShut};
    ghost use Rattle.fsck_core.specs.Asks.{MayAsk};
    ghost use Rattle.live_fs.specs.Passes.{origin_of};

    /// The core in its shell.
    pub(crate) fn new(parts: Parts<D>) -> Self
        requires { IsSafe D.Device parts }
        ensures { result ≡ parts }
    {
        Shared {
            core: core_of(parts),
        }
    }

    /// The core out of its shell.
    pub(crate) fn into_parts(self) -> Parts<D>
        ensures same { result ≡ self }
        ensures safe { IsSafe D.Device result }
    {
        let Shared { core } = self;
        parts_of(core)
    }

    /// What no event changes of the core.
    pub(crate) fn origin(&self) -> Origin
        ensures { result ≡ origin_of D.Device self.now }
    {
        let desk = &self.core.parts.desk;
        Origin {
            geo: desk.store.geo,
            begun: desk.book.begun,
            image_blocks: desk.store.dev.size(Region::Image),
            redo_blocks: desk.store.dev.size(Region::Redo),
        }
    }

    /// One event of the core.
    pub(crate) fn act(&mut self, alloc: Global, ask: Ask) -> (Answer, Glance)
        requires asked { MayAsk self.old.desk.store.geo.agcount ask }
        ensures steady { IsSteady D.Device self.old.desk self.new.desk }
        ensures shut { StaysShut self.old.desk self.new.desk }
    {
        ask_core(alloc, &mut self.core, ask)
    }
}
