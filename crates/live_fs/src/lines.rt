// One line of a section.
ghost use Rattle.std.specs.Prelude.{IfSome};
ghost use Rattle.live_fs.specs.Passes.{IsPassOf, PassOn};
ghost use Rattle.live_fs.specs.Ranges.{IsFit};
ghost use Rattle.script_defs.specs.Shape.{AreBlocks, IsInRange};

use crate::binds::Binds;
use crate::chains::{Halt, Hold, end_chain, halt_of, open_chain};
use crate::gate::Gate;
use crate::live::LiveFs;
use crate::pieces::{Deed, Stretch, do_stretch};
use crate::removing::remove;
use crate::shared::Shared;
use blk_device::Device;
use core_calls::{Answer, Ask, WriteFault};
use script_defs::{Name, Op};
use std::alloc::Global;
use std::sync::Wait;
use std::thread;
use turn_lock::Pass;

/// A writer at its section: its number, and what the names stand for so far.
#[derive(Drop)]
pub(crate) struct Scribe {
    pub(crate) writer: u32,
    pub(crate) binds: Binds,
}

// A range of one inode.
fn plain_stretch(deed: Deed, ino: u64, offset: u64, count: u32) -> Stretch
    requires { AreBlocks offset count }
    ensures { IsFit result }
{
    Stretch {
        deed,
        inodes: (ino, None),
        offset,
        to_offset: 0,
        count,
    }
}

// A range of one inode that another one shares.
fn shared_stretch(inodes: (u64, u64), offset: u64, to_offset: u64, count: u32) -> Stretch
    requires from { AreBlocks offset count }
    requires to { AreBlocks to_offset count }
    ensures { IsFit result }
{
    Stretch {
        deed: Deed::Share,
        inodes: (inodes.0, Some(inodes.1)),
        offset,
        to_offset,
        count,
    }
}

// Opens a chain on an inode, binds the name, and ends the chain.
fn open_bound<D: Device, G: Gate, W: Wait>(
    live: &LiveFs<'_, D, G>,
    rt: &W,
    alloc: Global,
    pass: &mut Pass<Shared<D>>,
    scribe: &mut Scribe,
    named: (Name, u64),
) -> Result<(), Halt>
    requires pass { IsPassOf live.now.lock live.now.origin pass.old }
    ensures on { PassOn live.now.lock live.now.origin pass.old pass.new }
{
    match open_chain(live, rt, alloc, pass, scribe.writer, (named.1, None)) {
        Ok(hold) => {
            scribe.binds.bind(named.0, named.1);
            let mut hold = hold;
            end_chain(live, rt, alloc, pass, &mut hold)
        }
        Err(halt) => Err(halt),
    }
}

fn open<D: Device, G: Gate, W: Wait>(
    live: &LiveFs<'_, D, G>,
    rt: &W,
    alloc: Global,
    pass: &mut Pass<Shared<D>>,
    scribe: &mut Scribe,
    named: (Name, u64),
) -> Result<(), Halt>
    requires pass { IsPassOf live.now.lock live.now.origin pass.old }
    ensures on { PassOn live.now.lock live.now.origin pass.old pass.new }
{
    match scribe.binds.make_place(named.0) {
        Ok(()) => open_bound(live, rt, alloc, pass, scribe, named),
        Err(fault) => Err(Halt::Stopped(fault)),
    }
}

// Takes a new inode, as soon as there is a chain left and no group is closing that has one.
fn take_inode<D: Device, G: Gate, W: Wait>(
    live: &LiveFs<'_, D, G>,
    rt: &W,
    alloc: Global,
    pass: &mut Pass<Shared<D>>,
    writer: u32,
    uid: u32,
) -> Result<(u64, Hold), Halt>
    requires pass { IsPassOf live.now.lock live.now.origin pass.old }
    ensures on { PassOn live.now.lock live.now.origin pass.old pass.new }
{
    for _ in rt.forever() {
        let (answer, glance) = live.take_turn(
            rt,
            alloc,
            pass,
            writer,
            Ask::TakeInode { writer, uid },
        );
        match answer {
            Answer::Taken(ino, chain) => {
                return Ok((
                    ino,
                    Hold {
                        writer,
                        chain,
                        glance,
                    },
                ));
            }
            Answer::Write(WriteFault::Closing(_) | WriteFault::Crowded) => thread::yield_now(),
            other => return Err(halt_of(other)),
        }
    }
    unreachable!()
}

// Takes a new inode, binds the name, and ends the chain.
fn take_bound<D: Device, G: Gate, W: Wait>(
    live: &LiveFs<'_, D, G>,
    rt: &W,
    alloc: Global,
    pass: &mut Pass<Shared<D>>,
    scribe: &mut Scribe,
    made: (Name, u32),
) -> Result<(), Halt>
    requires pass { IsPassOf live.now.lock live.now.origin pass.old }
    ensures on { PassOn live.now.lock live.now.origin pass.old pass.new }
{
    match take_inode(live, rt, alloc, pass, scribe.writer, made.1) {
        Ok((ino, hold)) => {
            scribe.binds.bind(made.0, ino);
            let mut hold = hold;
            end_chain(live, rt, alloc, pass, &mut hold)
        }
        Err(halt) => Err(halt),
    }
}

fn create<D: Device, G: Gate, W: Wait>(
    live: &LiveFs<'_, D, G>,
    rt: &W,
    alloc: Global,
    pass: &mut Pass<Shared<D>>,
    scribe: &mut Scribe,
    made: (Name, u32),
) -> Result<(), Halt>
    requires pass { IsPassOf live.now.lock live.now.origin pass.old }
    ensures on { PassOn live.now.lock live.now.origin pass.old pass.new }
{
    match scribe.binds.make_place(made.0) {
        Ok(()) => take_bound(live, rt, alloc, pass, scribe, made),
        Err(fault) => Err(Halt::Stopped(fault)),
    }
}

fn remove_bound<D: Device, G: Gate, W: Wait>(
    live: &LiveFs<'_, D, G>,
    rt: &W,
    alloc: Global,
    pass: &mut Pass<Shared<D>>,
    scribe: &mut Scribe,
    name: Name,
) -> Result<(), Halt>
    requires pass { IsPassOf live.now.lock live.now.origin pass.old }
    ensures on { PassOn live.now.lock live.now.origin pass.old pass.new }
{
    let ino = scribe.binds.inode(&name);
    match remove(live, rt, alloc, pass, scribe.writer, ino) {
        Ok(()) => {
            scribe.binds.unbind(name);
            Ok(())
        }
        Err(halt) => Err(halt),
    }
}

// What a line over a range asks for; the other lines ask for none.
fn stretch_of(binds: &Binds, op: &Op) -> Option<Stretch>
    requires { IsInRange op.now }
    ensures { IfSome result IsFit }
{
    match *op {
        Op::Map {
            name,
            offset,
            count,
        } => Some(plain_stretch(Deed::Map, binds.inode(&name), offset, count)),
        Op::Unmap {
            name,
            offset,
            count,
        } => Some(plain_stretch(Deed::Unmap, binds.inode(&name), offset, count)),
        Op::Convert {
            name,
            offset,
            count,
        } => Some(plain_stretch(Deed::Convert, binds.inode(&name), offset, count)),
        Op::Share {
            name,
            offset,
            count,
            to,
            to_offset,
        } => Some(shared_stretch(
            (binds.inode(&name), binds.inode(&to)),
            offset,
            to_offset,
            count,
        )),
        _ => None,
    }
}

// Does a line that binds or unbinds a name.
fn do_named<D: Device, G: Gate, W: Wait>(
    live: &LiveFs<'_, D, G>,
    rt: &W,
    alloc: Global,
    pass: &mut Pass<Shared<D>>,
    scribe: &mut Scribe,
    op: &Op,
) -> Result<(), Halt>
    requires pass { IsPassOf live.now.lock live.now.origin pass.old }
    ensures on { PassOn live.now.lock live.now.origin pass.old pass.new }
{
    match *op {
        Op::Open { name, ino } => open(live, rt, alloc, pass, scribe, (name, ino)),
        Op::Create { name, uid } => create(live, rt, alloc, pass, scribe, (name, uid)),
        Op::Remove { name } => remove_bound(live, rt, alloc, pass, scribe, name),
        _ => Ok(()),
    }
}

/// Does a line, by as many turns as it takes.
pub(crate) fn do_line<D: Device, G: Gate, W: Wait>(
    live: &LiveFs<'_, D, G>,
    rt: &W,
    alloc: Global,
    pass: &mut Pass<Shared<D>>,
    scribe: &mut Scribe,
    op: &Op,
) -> Result<(), Halt>
    requires pass { IsPassOf live.now.lock live.now.origin pass.old }
    requires range { IsInRange op.now }
    ensures on { PassOn live.now.lock live.now.origin pass.old pass.new }
{
    match stretch_of(&scribe.binds, op) {
        Some(stretch) => do_stretch(live, rt, alloc, pass, scribe.writer, stretch),
        None => do_named(live, rt, alloc, pass, scribe, op),
    }
}
