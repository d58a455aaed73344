// The owners of all forks by one pass over them, in the place of a scan for each group.
ghost use Rattle.std.specs.Prelude.{◌≡◌, ◌<◌, Some};
ghost use Rattle.core_parts.specs.Common.Asks.{IsUsable};
ghost use Rattle.core_parts.specs.Keeps.{IsAsked, failed_by};
ghost use Rattle.core_parts.specs.Safe.{IsSafe};
ghost use Rattle.fsck_core.specs.Acts.{Acts};
ghost use Rattle.fsck_core.specs.Asks.{phase_of_group};
ghost use Rattle.fsck_core.specs.Entries.{Says};
ghost use Rattle.quiet_repair.specs.Forks.{LeavesDesk, LeavesParts};
ghost use Rattle.space_check.specs.Progress.{is_failed as is_failed_of};

use blk_device::Device;
use byte_fields::Steps;
use check_watch::NoWatch;
use core_calls::{Answer, Ask, Phase};
use core_parts::common::{stop_by, unless_shut};
use core_parts::{Desk, Parts};
use fsck_core::{act, end_scan};
use image_check::{fork_owners, take_set};
use rmap_recs::RmapRec;
use space_check::Halt;
use std::alloc::Global;
use std::sync::ledger::Ledger;
use unit_plan::ClaimSet;

/// What one pass over the forks of all inodes has told: it wasn't made yet; it can't be used, so that each
/// scan reads for itself; or a set of claims for each group.
#[derive(Drop)]
pub(crate) enum Forks {
    Unread,
    Unfit,
    Read(Vec<ClaimSet>),
}

fn is_failed(halt: &Halt) -> bool
    ensures { result ≡ is_failed_of halt.now }
{
    matches!(halt, Halt::Failed)
}

// One pass over all forks.
fn call_pass<D: Device, L: Ledger>(
    alloc: Global,
    desk: &mut Desk<D>,
    steps: &mut Steps<L>,
) -> Result<Option<Vec<ClaimSet>>, Halt>
    requires usable { IsUsable D.Device desk.old }
    ensures asked { IsAsked D.Device (failed_by is_failed_of result) desk.old desk.new }
{
    fork_owners(
        alloc,
        &mut desk.store.dev,
        &desk.store.geo,
        steps,
        &mut NoWatch,
    )
}

// The pass, as a session uses it: what stops it is told by the next event.
fn pass_forks<D: Device, L: Ledger>(
    alloc: Global,
    desk: &mut Desk<D>,
    steps: &mut Steps<L>,
) -> Forks
    requires usable { IsUsable D.Device desk.old }
    ensures left { LeavesDesk D.Device desk.old desk.new }
{
    match call_pass(alloc, desk, steps) {
        Ok(Some(sets)) => Forks::Read(sets),
        Ok(None) => Forks::Unfit,
        Err(halt) => {
            let _ = stop_by(desk, is_failed(&halt));
            Forks::Unfit
        }
    }
}

// The pass over the forks of the parts, where no fault of the device was noted.
fn pass_parts<D: Device, L: Ledger>(
    alloc: Global,
    parts: &mut Parts<D>,
    steps: &mut Steps<L>,
) -> Forks
    requires safe { IsSafe D.Device parts.old }
    ensures left { LeavesParts D.Device parts.old parts.new }
{
    match unless_shut(&parts.desk) {
        Ok(()) => pass_forks(alloc, &mut parts.desk, steps),
        Err(_) => Forks::Unfit,
    }
}

// Makes the pass, unless it was made.
fn look_once<D: Device, L: Ledger>(
    alloc: Global,
    parts: &mut Parts<D>,
    forks: &mut Forks,
    steps: &mut Steps<L>,
)
    requires safe { IsSafe D.Device parts.old }
    ensures left { LeavesParts D.Device parts.old parts.new }
{
    match forks {
        Forks::Unread => *forks = pass_parts(alloc, parts, steps),
        _ => {}
    }
}

// The owners of forks in a group, which are taken out of its set; none where there is no such set, or no
// memory.
fn owners_in(alloc: Global, sets: &mut [ClaimSet], g: u32) -> Option<Vec<RmapRec>> {
    if g as usize >= sets.len() {
        return None;
    }
    let set = take_set(alloc, sets, g);
    match set.into_mappings(alloc) {
        Ok(owners) => Some(owners),
        Err(_) => None,
    }
}

// The owners of forks in a group, where the pass has told them.
fn owners_for(alloc: Global, forks: &mut Forks, g: u32) -> Option<Vec<RmapRec>> {
    match forks {
        Forks::Read(sets) => owners_in(alloc, sets, g),
        _ => None,
    }
}

/// Moves the scan of a group on: at once to its end, where the pass over all forks has told its owners.
pub(crate) fn advance_by<D: Device, L: Ledger>(
    alloc: Global,
    parts: &mut Parts<D>,
    forks: &mut Forks,
    g: u32,
    steps: &mut Steps<L>,
) -> (Answer, Phase)
    requires safe { IsSafe D.Device parts.old }
    requires group { g < parts.old.desk.store.geo.agcount }
    ensures acted { Acts D.Device parts.old parts.new result.0 }
    ensures says { Says (Ask.Advance g) parts.old parts.new result.0 }
    ensures phase { result.1 ≡ phase_of_group parts.new.units.items (Some g) }
{
    match owners_for(alloc, forks, g) {
        Some(owners) => end_scan(parts, g, owners),
        None => act(alloc, parts, Ask::Advance { group: g }, steps),
    }
}

/// Makes the pass over all forks before the first scan is moved on, and nothing before other events.
pub(crate) fn look_first<D: Device, L: Ledger>(
    alloc: Global,
    parts: &mut Parts<D>,
    forks: &mut Forks,
    ask: Ask,
    steps: &mut Steps<L>,
)
    requires safe { IsSafe D.Device parts.old }
    ensures left { LeavesParts D.Device parts.old parts.new }
{
    match ask {
        Ask::Advance { .. } => look_once(alloc, parts, forks, steps),
        _ => {}
    }
}
