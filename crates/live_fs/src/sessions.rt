// A session: the scrubber on the caller's thread, and the writers of a script beside it.
ghost use Rattle.std.specs.Prelude.{◌≡◌, ◌<◌, length};
ghost use Rattle.std.specs.Thread.{IsSync};
ghost use Rattle.live_fs.specs.Passes.{IsPassOf, AreActorsOf};
ghost use Rattle.live_fs.specs.Sections.{AreSections, SpeaksFor};
ghost use Rattle.quiet_repair.specs.Sessions.{IsInside};
ghost use Rattle.turn_lock.specs.Lists.{actors_of, from_up};
ghost use Rattle.turn_lock.specs.Passes.{known};
ghost use Rattle.turn_lock.specs.declared.recorded.TheConstants.{ACTORS};

use crate::ends::{LiveEnd, LiveStop, one_stop, scrub_stop};
use crate::gate::Gate;
use crate::live::LiveFs;
use crate::scrubber::scrub_watched;
use crate::shared::Shared;
use crate::writers::{run_sections, whole};
use blk_device::Device;
use check_watch::Watch;
use script_defs::Section;
use scrub_order::Order;
use std::alloc::Global;
use std::sync::Wait;
use std::thread::{self, Threads};
use turn_lock::Pass;

// The scrubber by a pass of its own.
fn scrub_all<D: Device, G: Gate, W: Wait, Y: Watch + Drop>(
    live: &LiveFs<'_, D, G>,
    rt: &W,
    alloc: Global,
    pass: Pass<Shared<D>>,
    order: Order,
    watch: Y,
) -> (Pass<Shared<D>>, Option<LiveStop>)
    requires pass { IsPassOf live.now.lock live.now.origin pass }
    requires inside { IsInside live.now.origin.geo.agcount order }
    ensures pass { IsPassOf live.now.lock live.now.origin result.0 }
    ensures actors { actors_of (known result.0).kept ≡ actors_of (known pass).kept }
{
    let mut pass = pass;
    let mut watch = watch;
    let end = scrub_watched(live, rt, alloc, &mut pass, order, &mut watch);
    (pass, scrub_stop(end))
}

// The pass of the scrubber, and one for all writers of these sections.
fn split_off<D: Device, G: Gate>(
    live: &LiveFs<'_, D, G>,
    pass: Pass<Shared<D>>,
    sections: &[Section],
) -> (Pass<Shared<D>>, Pass<Shared<D>>)
    requires pass { IsPassOf live.now.lock live.now.origin pass }
    requires speaks { actors_of (known pass).kept ≡ from_up 0 ACTORS }
    requires sections { AreSections 1 ACTORS sections.now }
    ensures passes { IsPassOf live.now.lock live.now.origin result.0 × IsPassOf live.now.lock live.now.origin result.1 }
    ensures upper { SpeaksFor (known result.1).kept sections.now }
    ensures actors { AreActorsOf (known pass) (known result.0) (known result.1) }
{
    let mut pass = pass;
    let other = live.split(&mut pass, 1);
    (pass, other)
}

/// The scrubber judges and rebuilds the units by this order on the caller's thread, and each writer does
/// its section in a thread of its own; where no thread can be made, the scrubber goes first. Everybody
/// goes on to its own end (XFS Online Fsck Design, "Live Updates").
pub fn live_session<D: Device + Send, G: Gate + Sync, R: Threads + Wait + Sync, Y: Watch + Drop>(
    live: &LiveFs<'_, D, G>,
    rt: &R,
    alloc: Global,
    pass: Pass<Shared<D>>,
    sections: &[Section],
    order: Order,
    watch: Y,
) -> (Pass<Shared<D>>, LiveEnd)
    requires sync { IsSync R.row }
    requires pass { IsPassOf live.now.lock live.now.origin pass }
    requires speaks { actors_of (known pass).kept ≡ from_up 0 ACTORS }
    requires sections { AreSections 1 ACTORS sections.now }
    requires inside { IsInside live.now.origin.geo.agcount order }
    ensures pass { IsPassOf live.now.lock live.now.origin result.0 }
    ensures speaks { actors_of (known result.0).kept ≡ from_up 0 ACTORS }
{
    let (scrub, write) = split_off(live, pass, sections);
    let (written, scrubbed) = thread::join(
        rt,
        move || -> (Pass<Shared<D>>, Option<LiveStop>)
            requires sync { IsSync R.row }
            requires pass { IsPassOf live.now.lock live.now.origin write }
            requires speaks { SpeaksFor (known write).kept sections.now }
            ensures pass { IsPassOf live.entry.now.lock live.entry.now.origin result.0 }
            ensures actors { actors_of (known result.0).kept ≡ actors_of (known write).kept }
        { run_sections(live, rt, alloc, write, sections) },
        move || -> (Pass<Shared<D>>, Option<LiveStop>)
            requires pass { IsPassOf live.now.lock live.now.origin scrub }
            requires inside { IsInside live.now.origin.geo.agcount order }
            ensures pass { IsPassOf live.entry.now.lock live.entry.now.origin result.0 }
            ensures actors { actors_of (known result.0).kept ≡ actors_of (known scrub).kept }
        { scrub_all(live, rt, alloc, scrub, order, watch) },
    );
    let pass = whole(live, scrubbed.0, written.0);
    let stop = one_stop(scrubbed.1, written.1);
    (pass, LiveEnd { stop })
}
