// What is shown of a core beside an answer.
use blk_device::Device;
use core_parts::{GroupKept, Parts, UnitState, Work};
use core_scan::Scan;
use fs_model::Entry;
use rmap_recs::RmapRec;
use std::io;

/// Shows the entries of a journal after so many.
pub fn show_entries<R: Print>(rt: &R, journal: &[Entry], before: usize) -> io::Result<()> {
    for entry in journal.iter().skip(before) {
        println!(rt; "entry {entry:?}")?;
    }
    Ok(())
}

fn show_group<R: Print>(rt: &R, kept: &GroupKept) -> io::Result<()> {
    println!(rt; "trust {:?}", kept.trust)?;
    println!(rt; "passed {:?}", kept.passed)?;
    for run in kept.limbo.iter() {
        println!(rt; "limbo {} {} {}", run.start, run.count, run.owner)?;
    }
    Ok(())
}

fn show_owners<R: Print>(rt: &R, owners: &[RmapRec]) -> io::Result<()> {
    println!(rt; "owners {}", owners.len())?;
    for run in owners {
        println!(rt;
            "owner {} {} {} {}",
            run.start, run.count, run.owner, run.word
        )?;
    }
    Ok(())
}

// The owners of a scan, with its cursor and, where it holds one, the inode.
fn show_scan<R: Print>(rt: &R, scan: &Scan) -> io::Result<()> {
    println!(rt; "cursor {}", scan.cursor)?;
    if let Some(held) = &scan.held {
        println!(rt; "held {} {}", held.ino, held.given)?;
    }
    show_owners(rt, scan.shadow.runs())
}

fn show_unit<R: Print>(rt: &R, unit: &UnitState) -> io::Result<()> {
    println!(rt;
        "unit {:?} {:?} {} {}",
        unit.unit, unit.plan, unit.turns, unit.asked
    )?;
    match &unit.work {
        Work::Scanning(scan) => show_scan(rt, scan),
        Work::Open(owners) | Work::Closed(owners) => show_owners(rt, owners.as_slice()),
        _ => Ok(()),
    }
}

fn show_chain<R: Print, D: Device>(rt: &R, parts: &Parts<D>, number: u32) -> io::Result<()> {
    if let Some(chain) = parts.desk.drain.chain(number) {
        println!(rt; "chain {chain:?}")?;
    }
    Ok(())
}

/// Shows what is kept of a group, of its open unit, or of a chain, by the name of a line.
pub fn show_kept<R: Print, D: Device>(
    rt: &R,
    parts: &Parts<D>,
    name: &str,
    number: u32,
) -> io::Result<()> {
    match name {
        "chain" => show_chain(rt, parts, number),
        "kept" => match parts.groups.as_slice().get(number as usize) {
            Some(kept) => show_group(rt, kept),
            None => Ok(()),
        },
        "scan" => match parts.units.as_slice().get(number as usize) {
            Some(Some(unit)) => show_unit(rt, unit),
            _ => Ok(()),
        },
        _ => println!(rt; "unknown"),
    }
}
