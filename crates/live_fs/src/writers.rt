// The writers of a script, each in a thread of its own as far as there are threads.
ghost use Rattle.std.specs.Prelude.{◌≡◌, ◌<◌, ◌++◌, length};
ghost use Rattle.std.specs.Thread.{IsSync};
ghost use Rattle.live_fs.specs.Passes.{IsPassOf, AreActorsOf};
ghost use Rattle.live_fs.specs.Sections.{AreInRange, SpeaksFor, first_of};
ghost use Rattle.turn_lock.specs.Lists.{actors_of};
ghost use Rattle.turn_lock.specs.Passes.{known};

use crate::ends::{LiveStop, one_stop, writer_stop};
use crate::gate::Gate;
use crate::live::LiveFs;
use crate::shared::Shared;
use blk_device::Device;
use script_defs::Section;
use std::alloc::Global;
use std::sync::Wait;
use std::thread::{self, Threads};
use turn_lock::Pass;

// The one writer of a section, by a pass of its own.
fn run_section<D: Device, G: Gate, W: Wait>(
    live: &LiveFs<'_, D, G>,
    rt: &W,
    alloc: Global,
    pass: Pass<Shared<D>>,
    section: &Section,
) -> (Pass<Shared<D>>, Option<LiveStop>)
    requires pass { IsPassOf live.now.lock live.now.origin pass }
    requires range { AreInRange section.now.lines.items }
    ensures pass { IsPassOf live.now.lock live.now.origin result.0 }
    ensures actors { actors_of (known result.0).kept ≡ actors_of (known pass).kept }
{
    let mut pass = pass;
    let end = live.writer(
        rt,
        alloc,
        &mut pass,
        section.writer,
        section.lines.as_slice(),
    );
    (pass, writer_stop(end))
}

// The same of a list of one section; of none nothing is done.
fn run_first<D: Device, G: Gate, W: Wait>(
    live: &LiveFs<'_, D, G>,
    rt: &W,
    alloc: Global,
    pass: Pass<Shared<D>>,
    sections: &[Section],
) -> (Pass<Shared<D>>, Option<LiveStop>)
    requires pass { IsPassOf live.now.lock live.now.origin pass }
    requires speaks { SpeaksFor (known pass).kept sections.now }
    ensures pass { IsPassOf live.now.lock live.now.origin result.0 }
    ensures actors { actors_of (known result.0).kept ≡ actors_of (known pass).kept }
{
    match sections.split_first() {
        Some((section, _)) => run_section(live, rt, alloc, pass, section),
        None => (pass, None),
    }
}

// The writer of the first section, 0 where there is none.
fn first_writer(sections: &[Section]) -> u32
    ensures { result ≡ first_of sections.now }
{
    match sections.split_first() {
        Some((section, _)) => section.writer,
        None => 0,
    }
}

// Two passes of one: for the writers of the lower sections, and for those of the upper ones.
fn halves<D: Device, G: Gate>(
    live: &LiveFs<'_, D, G>,
    pass: Pass<Shared<D>>,
    lower: &[Section],
    upper: &[Section],
) -> (Pass<Shared<D>>, Pass<Shared<D>>)
    requires pass { IsPassOf live.now.lock live.now.origin pass }
    requires lower { 0 < length lower.now }
    requires upper { 0 < length upper.now }
    requires speaks { SpeaksFor (known pass).kept (lower.now ++ upper.now) }
    ensures passes { IsPassOf live.now.lock live.now.origin result.0 × IsPassOf live.now.lock live.now.origin result.1 }
    ensures lower { SpeaksFor (known result.0).kept lower.now }
    ensures upper { SpeaksFor (known result.1).kept upper.now }
    ensures actors { AreActorsOf (known pass) (known result.0) (known result.1) }
{
    let mut pass = pass;
    let from = first_writer(upper);
    let other = live.split(&mut pass, from);
    (pass, other)
}

/// One pass of two.
pub(crate) fn whole<D: Device, G: Gate>(
    live: &LiveFs<'_, D, G>,
    pass: Pass<Shared<D>>,
    other: Pass<Shared<D>>,
) -> Pass<Shared<D>>
    requires passes { IsPassOf live.now.lock live.now.origin pass × IsPassOf live.now.lock live.now.origin other }
    ensures pass { IsPassOf live.now.lock live.now.origin result }
    ensures actors { AreActorsOf (known result) (known pass) (known other) }
{
    let mut pass = pass;
    live.join(&mut pass, other);
    pass
}

/// Each writer does its section, beside the others; of a lock whose pass speaks for all of them.
pub(crate) fn run_sections<D: Device + Send, G: Gate + Sync, R: Threads + Wait + Sync>(
    live: &LiveFs<'_, D, G>,
    rt: &R,
    alloc: Global,
    pass: Pass<Shared<D>>,
    sections: &[Section],
) -> (Pass<Shared<D>>, Option<LiveStop>)
    requires sync { IsSync R.row }
    requires pass { IsPassOf live.now.lock live.now.origin pass }
    requires speaks { SpeaksFor (known pass).kept sections.now }
    ensures pass { IsPassOf live.now.lock live.now.origin result.0 }
    ensures actors { actors_of (known result.0).kept ≡ actors_of (known pass).kept }
{
    if sections.len() < 2 {
        return run_first(live, rt, alloc, pass, sections);
    }
    let (lower, upper) = sections.split_at(sections.len() / 2);
    let (one, other) = halves(live, pass, lower, upper);
    let (lower_end, upper_end) = thread::join(
        rt,
        move || -> (Pass<Shared<D>>, Option<LiveStop>)
            requires sync { IsSync R.row }
            requires pass { IsPassOf live.now.lock live.now.origin one }
            requires speaks { SpeaksFor (known one).kept lower.now }
            ensures pass { IsPassOf live.entry.now.lock live.entry.now.origin result.0 }
            ensures actors { actors_of (known result.0).kept ≡ actors_of (known one).kept }
        { run_sections(live, rt, alloc, one, lower) },
        move || -> (Pass<Shared<D>>, Option<LiveStop>)
            requires sync { IsSync R.row }
            requires pass { IsPassOf live.now.lock live.now.origin other }
            requires speaks { SpeaksFor (known other).kept upper.now }
            ensures pass { IsPassOf live.entry.now.lock live.entry.now.origin result.0 }
            ensures actors { actors_of (known result.0).kept ≡ actors_of (known other).kept }
        { run_sections(live, rt, alloc, other, upper) },
    );
    let pass = whole(live, lower_end.0, upper_end.0);
    (pass, one_stop(lower_end.1, upper_end.1))
}
