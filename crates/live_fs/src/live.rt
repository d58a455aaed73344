// The file system that threads share, and its passes.
ghost use Rattle.std.specs.Prelude.{◌≡◌, ◌<◌, ◌++◌, IfOk, IsOk, length};
ghost use Rattle.core_parts.specs.Keeps.{IsSteady};
ghost use Rattle.core_parts.specs.Safe.{IsSafe};
ghost use Rattle.fsck_core.specs.Asks.{MayAsk};
ghost use Rattle.live_fs.specs.Passes.{IsPassOf, PassOn, origin_of};
ghost use Rattle.turn_lock.specs.Lists.{Begins, above, actors_of, below, from_up};
ghost use Rattle.turn_lock.specs.Passes.{known};
ghost use Rattle.turn_lock.specs.declared.recorded.TheConstants.{ACTORS};

use crate::gate::{Gate, Point};
use crate::origin::Origin;
use crate::shared::Shared;
use blk_device::Device;
use core_calls::{Answer, Ask, Glance, event_of};
use core_parts::Parts;
use std::alloc::Global;
use std::sync::Wait;
use turn_lock::{LockFault, Pass, TurnLock};

/// A core under a lock of fair turns, with the gate that is told of each event
/// (XFS Online Fsck Design, "Live Updates").
pub struct LiveFs<'a, D: Device, G: Gate> {
    pub(crate) lock: TurnLock<Shared<D>>,
    pub(crate) gate: &'a G,
    pub(crate) origin: Origin,
}

impl<'a, D: Device, G: Gate> LiveFs<'a, D, G> {
    /// Puts a core under a new lock. The pass speaks for the scrubber and all writers. Where there is no
    /// memory the core is gone, with its device (XFS Online Fsck Design, "Live Updates").
    pub fn open(
        alloc: Global,
        parts: Parts<D>,
        gate: &'a G,
    ) -> Result<(LiveFs<'a, D, G>, Pass<Shared<D>>), LockFault>
    where
        D: Drop,
        requires safe { IsSafe D.Device parts }
        ensures origin { IfOk result (λ r. r.0.origin ≡ origin_of D.Device parts) }
        ensures pass { IfOk result (λ r. IsPassOf r.0.lock r.0.origin r.1) }
        ensures speaks { IfOk result (λ r. actors_of (known r.1).kept ≡ from_up 0 ACTORS) }
        ensures seen { IfOk result (λ r. (known r.1).seen ≡ parts.desk.book.journal.items) }
    {
        let shared = Shared::new(parts);
        let origin = shared.origin();
        match TurnLock::new(alloc, shared) {
            Ok((lock, pass)) => Ok((LiveFs { lock, gate, origin }, pass)),
            Err(fault) => Err(fault),
        }
    }

    /// One turn: waits for it, makes one event of the core, and tells the gate.
    pub(crate) fn take_turn<W: Wait>(
        &self,
        rt: &W,
        alloc: Global,
        pass: &mut Pass<Shared<D>>,
        actor: u32,
        ask: Ask,
    ) -> (Answer, Glance)
        requires pass { IsPassOf self.now.lock self.now.origin pass.old }
        requires asked { MayAsk self.now.origin.geo.agcount ask }
        ensures on { PassOn self.now.lock self.now.origin pass.old pass.new }
    {
        let told = self.turn_event(rt, alloc, pass, ask);
        self.gate.pause(Point {
            actor,
            event: event_of(ask),
        });
        told
    }

    // One turn with one event.
    fn turn_event<W: Wait>(
        &self,
        rt: &W,
        alloc: Global,
        pass: &mut Pass<Shared<D>>,
        ask: Ask,
    ) -> (Answer, Glance)
        requires pass { IsPassOf self.now.lock self.now.origin pass.old }
        requires asked { MayAsk self.now.origin.geo.agcount ask }
        ensures on { PassOn self.now.lock self.now.origin pass.old pass.new }
    {
        self.lock.turn(
            rt,
            pass,
            |shared: &mut Shared<D>| -> (Answer, Glance)
                requires asked { MayAsk shared.now.desk.store.geo.agcount ask }
                ensures steady { IsSteady D.Device shared.entry.now.desk shared.exit.now.desk }
            { shared.act(alloc, ask) },
        )
    }

    /// A pass of its own for the actors from this one up; each of the two keeps at least one
    /// (XFS Online Fsck Design, "Live Updates").
    pub fn split(&self, pass: &mut Pass<Shared<D>>, from: u32) -> Pass<Shared<D>>
        requires pass { IsPassOf self.now.lock self.now.origin pass.old }
        requires lower { 0 < length (below from (known pass.old).kept) }
        requires upper { 0 < length (above from (known pass.old).kept) }
        ensures stays { IsPassOf self.now.lock self.now.origin pass.new × ((known pass.new).kept ≡ below from (known pass.old).kept) }
        ensures goes { IsPassOf self.now.lock self.now.origin result × ((known result).kept ≡ above from (known pass.old).kept) }
    {
        self.lock.split(pass, from)
    }

    /// Gives the actors of a pass back to another one (XFS Online Fsck Design, "Live Updates").
    pub fn join(&self, pass: &mut Pass<Shared<D>>, ended: Pass<Shared<D>>)
        requires pass { IsPassOf self.now.lock self.now.origin pass.old }
        requires ended { IsPassOf self.now.lock self.now.origin ended }
        ensures pass { IsPassOf self.now.lock self.now.origin pass.new }
        ensures kept { (known pass.new).kept ≡ (known pass.old).kept ++ (known ended).kept }
    {
        self.lock.join(pass, ended);
    }

    /// Ends the sharing: the core comes back, always where the pass speaks for all actors
    /// (XFS Online Fsck Design, "Live Updates").
    pub fn close(self, pass: Pass<Shared<D>>) -> Result<Parts<D>, LockFault>
    where
        D: Drop,
        requires { IsPassOf self.lock self.origin pass }
        ensures safe { IfOk result (IsSafe D.Device) }
        ensures origin { IfOk result (λ parts. origin_of D.Device parts ≡ self.entry.origin) }
        ensures journal { IfOk result (λ parts. Begins (known pass).seen parts.desk.book.journal.items) }
        ensures always { length (known pass).kept ≡ ACTORS → IsOk result }
    {
        let LiveFs {
            lock,
            gate: _,
            origin: _,
        } = self;
        match lock.close(pass) {
            Ok(shared) => Ok(shared.into_parts()),
            Err(fault) => Err(fault),
        }
    }
}
