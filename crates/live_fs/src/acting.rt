// How the core is asked: the one file that knows its call.
ghost use Rattle.std.specs.Prelude.{◌≡◌};
ghost use Rattle.core_parts.specs.Keeps.{IsSteady};
ghost use Rattle.core_parts.specs.Safe.{IsSafe};
ghost use Rattle.fsck_core.specs.Acts.{StaysShut};
ghost use Rattle.fsck_core.specs.Asks.{MayAsk};

use blk_device::Device;
use byte_fields::Steps;
use core_calls::{Answer, Ask, Glance};
use core_parts::Parts;
pub(crate) use fsck_core::Core;
use fsck_core::{run_event, with_notes};
use geom::Geometry;
use std::alloc::Global;
use std::marker::Brand;
use std::sync::ledger::{Blank, Ledger};

/// A core that was opened, before its first event.
pub(crate) fn core_of<D: Device>(parts: Parts<D>) -> Core<D>
    ensures { result.parts ≡ parts }
{
    with_notes(parts)
}

/// The parts of a core, which is no longer shared.
pub(crate) fn parts_of<D: Device>(core: Core<D>) -> Parts<D>
    ensures { result ≡ core.parts }
{
    let Core { parts, notes: _ } = core;
    parts
}

// One event. The ledger is that of its steps.
fn act_counted<D: Device, L: Ledger>(
    alloc: Global,
    core: &mut Core<D>,
    ask: Ask,
    blank: Blank,
) -> (Answer, Glance)
    requires safe { IsSafe D.Device core.old.parts }
    requires asked { MayAsk core.old.parts.desk.store.geo.agcount ask }
    requires name { blank.name ≡ L.name }
    requires parts { blank.parts ≡ L.parts }
    requires three { blank.parts ≡ 3 }
    ensures safe { IsSafe D.Device core.new.parts }
    ensures steady { IsSteady D.Device core.old.parts.desk core.new.parts.desk }
    ensures shut { StaysShut core.old.parts.desk core.new.parts.desk }
{
    let mut steps = Steps::<L>::new(blank);
    run_event(alloc, core, ask, &mut steps)
}

// The group of an inode, where it has a place.
fn group_of(geo: &Geometry, ino: u64) -> Option<u32> {
    let place = geo.inode_place(ino)?;
    Some(place.group)
}

// How long the free list of a group is.
fn list_of<D: Device>(parts: &Parts<D>, group: u32) -> u32 {
    match parts.groups.as_slice().get(group as usize) {
        Some(kept) => kept.heads.list.len(),
        None => 0,
    }
}

// Behind the begin of a chain the group is that of its first inode: it has no step yet, and its first
// event draws on that group's free list.
fn looked_at<D: Device>(parts: &Parts<D>, ask: Ask, glance: Glance) -> Glance {
    let Ask::Begin { first, .. } = ask else {
        return glance;
    };
    match group_of(&parts.desk.store.geo, first) {
        Some(group) => Glance {
            group: Some(group),
            list: list_of(parts, group),
            ..glance
        },
        None => glance,
    }
}

/// Does one event of the core, for a caller that counts no steps, and tells behind it the chain's next
/// step with its group, or behind `begin` the group of its first inode, the length of that group's free
/// list, and the phase of the event's own group (XFS Online Fsck Design, "Live Updates").
pub(crate) fn ask_core<D: Device>(alloc: Global, core: &mut Core<D>, ask: Ask) -> (Answer, Glance)
    requires safe { IsSafe D.Device core.old.parts }
    requires asked { MayAsk core.old.parts.desk.store.geo.agcount ask }
    ensures safe { IsSafe D.Device core.new.parts }
    ensures steady { IsSteady D.Device core.old.parts.desk core.new.parts.desk }
    ensures shut { StaysShut core.old.parts.desk core.new.parts.desk }
{
    let blank = Blank::new(3);
    let (answer, glance) = act_counted::<D, Brand>(alloc, core, ask, blank);
    (answer, looked_at(&core.parts, ask, glance))
}
