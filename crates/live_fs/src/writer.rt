// A writer: the lines of its section, one after the other.
ghost use Rattle.std.specs.Prelude.{◌≡◌};
ghost use Rattle.live_fs.specs.Passes.{IsPassOf, PassOn};
ghost use Rattle.live_fs.specs.Sections.{AreInRange};
ghost use Rattle.script_defs.specs.Shape.{IsInRange};

use crate::binds::Binds;
use crate::chains::{Halt, halt_of};
use crate::ends::WriterEnd;
use crate::gate::Gate;
use crate::lines::{Scribe, do_line};
use crate::live::LiveFs;
use crate::shared::Shared;
use blk_device::Device;
use core_calls::{Answer, Ask, WriteFault};
use script_defs::Line;
use std::alloc::Global;
use std::sync::Wait;
use turn_lock::Pass;

// Why a reply isn't noted, if it isn't.
fn unnoted(answer: Answer) -> Option<WriteFault> {
    match answer {
        Answer::Done => None,
        other => match halt_of(other) {
            Halt::Stopped(fault) => Some(fault),
            // No other refusal of it comes.
            Halt::Refused => Some(WriteFault::Memory),
        },
    }
}

// Lets the core note the reply to a line.
fn note<D: Device, G: Gate, W: Wait>(
    live: &LiveFs<'_, D, G>,
    rt: &W,
    alloc: Global,
    pass: &mut Pass<Shared<D>>,
    writer: u32,
    line: u32,
) -> Option<WriteFault>
    requires pass { IsPassOf live.now.lock live.now.origin pass.old }
    ensures on { PassOn live.now.lock live.now.origin pass.old pass.new }
{
    let (answer, _) = live.take_turn(rt, alloc, pass, writer, Ask::Note { writer, line });
    unnoted(answer)
}

// Does a line and lets its reply be noted. The answer is what stops the writer, if anything does.
fn reply<D: Device, G: Gate, W: Wait>(
    live: &LiveFs<'_, D, G>,
    rt: &W,
    alloc: Global,
    pass: &mut Pass<Shared<D>>,
    scribe: &mut Scribe,
    line: &Line,
) -> Option<WriteFault>
    requires pass { IsPassOf live.now.lock live.now.origin pass.old }
    requires range { IsInRange line.now.op }
    ensures on { PassOn live.now.lock live.now.origin pass.old pass.new }
{
    match do_line(live, rt, alloc, pass, scribe, &line.op) {
        Err(Halt::Stopped(fault)) => Some(fault),
        _ => note(live, rt, alloc, pass, scribe.writer, line.number),
    }
}

impl<D: Device, G: Gate> LiveFs<'_, D, G> {
    /// Does the lines of one writer's section, by turns at the core, and lets the core note a reply to
    /// each. It stops at want of memory, a fault of the device or a full journal, and lets its inodes go
    /// before (XFS Online Fsck Design, "Live Updates").
    pub fn writer<W: Wait>(
        &self,
        rt: &W,
        alloc: Global,
        pass: &mut Pass<Shared<D>>,
        writer: u32,
        lines: &[Line],
    ) -> WriterEnd
        requires pass { IsPassOf self.now.lock self.now.origin pass.old }
        requires range { AreInRange lines.now }
        ensures on { PassOn self.now.lock self.now.origin pass.old pass.new }
    {
        let mut scribe = Scribe {
            writer,
            binds: Binds::new(alloc),
        };
        let mut lines_done = 0u32;
        let mut rest = lines;
        while let Some((line, later)) = rest.split_first() {
            if let Some(fault) = reply(self, rt, alloc, pass, &mut scribe, line) {
                return WriterEnd {
                    lines_done,
                    stop: Some(fault),
                };
            }
            lines_done = lines_done.saturating_add(1);
            rest = later;
        }
        WriterEnd {
            lines_done,
            stop: None,
        }
    }
}
