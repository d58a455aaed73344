// A core that is opened, and asked what the lines say.
ghost use Rattle.std.specs.Prelude.{◌≡◌};
ghost use Rattle.core_parts.specs.Safe.{IsSafe};
ghost use Rattle.fsck_core.specs.Asks.{MayAsk};

use crate::asked::{Row, ask_of, narrow, row_of};
use crate::shown::{show_entries, show_kept};
use blk_device::Device;
use byte_fields::Steps;
use core_calls::{Answer, Ask, Glance};
use core_parts::Parts;
use fsck_core::{Core, into_device, run_event, with_notes};
use quiet_repair::open_quiet;
use repair_door::pass_door;
use std::alloc::Global;
use std::io;
use std::io::{BufRead, BufReader};
use std::marker::Brand;
use std::sync::ledger::{Blank, Ledger};

// One event. The ledger is that of its steps.
fn act_counted<D: Device, L: Ledger>(
    alloc: Global,
    core: &mut Core<D>,
    ask: Ask,
    blank: Blank,
) -> (Answer, Glance)
    requires safe { IsSafe D.Device core.old.parts }
    requires asked { MayAsk core.old.parts.desk.store.geo.agcount ask }
    requires name { blank.name ≡ L.name }
    requires parts { blank.parts ≡ L.parts }
    requires three { blank.parts ≡ 3 }
    ensures safe { IsSafe D.Device core.new.parts }
{
    let mut steps = Steps::<L>::new(blank);
    run_event(alloc, core, ask, &mut steps)
}

// One event, for a caller that counts no steps.
fn act_once<D: Device>(alloc: Global, core: &mut Core<D>, ask: Ask) -> (Answer, Glance)
    requires safe { IsSafe D.Device core.old.parts }
    requires asked { MayAsk core.old.parts.desk.store.geo.agcount ask }
    ensures safe { IsSafe D.Device core.new.parts }
{
    let blank = Blank::new(3);
    act_counted::<D, Brand>(alloc, core, ask, blank)
}

fn serve_event<R: Print, D: Device>(
    rt: &R,
    alloc: Global,
    core: &mut Core<D>,
    ask: Ask,
) -> io::Result<()>
    requires safe { IsSafe D.Device core.old.parts }
    requires asked { MayAsk core.old.parts.desk.store.geo.agcount ask }
    ensures safe { IsSafe D.Device core.new.parts }
{
    let before = core.parts.desk.book.journal.len();
    let (answer, glance) = act_once(alloc, core, ask);
    println!(rt; "answer {answer:?}")?;
    println!(rt; "glance {glance:?}")?;
    show_entries(rt, core.parts.desk.book.journal.as_slice(), before)
}

// What a line of a name and numbers asks for.
fn serve_row<R: Print, D: Device>(
    rt: &R,
    alloc: Global,
    core: &mut Core<D>,
    name: &str,
    row: &Row,
) -> io::Result<()>
    requires safe { IsSafe D.Device core.old.parts }
    ensures safe { IsSafe D.Device core.new.parts }
{
    match ask_of(name, row, core.parts.desk.store.geo.agcount) {
        Some(ask) => serve_event(rt, alloc, core, ask),
        None => show_kept(rt, &core.parts, name, narrow(row[0])),
    }
}

fn serve_line<R: Print, D: Device>(
    rt: &R,
    alloc: Global,
    core: &mut Core<D>,
    line: &str,
) -> io::Result<()>
    requires safe { IsSafe D.Device core.old.parts }
    ensures safe { IsSafe D.Device core.new.parts }
{
    if let Some(name) = line.split_whitespace().next() {
        serve_row(rt, alloc, core, name, &row_of(line))?;
    }
    println!(rt; "done")
}

fn serve_lines<R: Input + Print, D: Device>(
    rt: &R,
    alloc: Global,
    core: &mut Core<D>,
) -> io::Result<()>
    requires safe { IsSafe D.Device core.old.parts }
{
    println!(rt; "open")?;
    for line in BufReader::new(alloc, rt.reader())?.lines(alloc) {
        serve_line(rt, alloc, core, line?.as_str())?;
    }
    Ok(())
}

// Asks a core that was opened, and takes it apart again.
fn serve_parts<R: Input + Print, D: Device + Drop>(
    rt: &R,
    alloc: Global,
    parts: Parts<D>,
) -> io::Result<()>
    requires safe { IsSafe D.Device parts }
{
    let mut core = with_notes(parts);
    let served = serve_lines(rt, alloc, &mut core);
    let Core { parts, notes: _ } = core;
    let (_dev, _journal) = into_device(parts);
    served
}

/// Opens a core over a device, and does what the lines of standard input ask for. The first line that
/// is shown is `open`, or one line says that the device isn't opened.
pub fn serve<R: Input + Print, D: Device + Drop>(rt: &R, alloc: Global, dev: D) -> io::Result<()> {
    let mut dev = dev;
    let Ok(geo) = pass_door(alloc, &mut dev) else {
        return println!(rt; "refused");
    };
    match open_quiet(alloc, dev, geo) {
        Ok(parts) => serve_parts(rt, alloc, parts),
        Err(_) => println!(rt; "refused"),
    }
}
