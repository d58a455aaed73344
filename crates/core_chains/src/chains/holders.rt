// Who holds an inode: an open chain, or the scan of all inodes.
use core_parts::{UnitState, Work};
use core_scan::Scan;
use intent_drain::Drain;

// Whether a scan holds the inode.
fn is_scanned(scan: &Scan, ino: u64) -> bool {
    match &scan.held {
        Some(held) => held.ino == ino,
        None => false,
    }
}

// Whether the work on a unit is a scan that holds the inode.
fn is_worked(work: &Work, ino: u64) -> bool {
    match work {
        Work::Scanning(scan) => is_scanned(scan, ino),
        _ => false,
    }
}

// Whether the open unit of a group, if there is one, holds the inode.
fn is_in_unit(unit: &Option<UnitState>, ino: u64) -> bool {
    match unit {
        Some(open) => is_worked(&open.work, ino),
        None => false,
    }
}

// Whether one of these units holds the inode.
fn is_in_units(units: &[Option<UnitState>], ino: u64) -> bool {
    for unit in units {
        if is_in_unit(unit, ino) {
            return true;
        }
    }
    false
}

/// Whether an open chain or the scan of an open unit holds the inode
/// (XFS Online Fsck Design, "Inode Scans").
pub fn is_held(drain: &Drain, units: &[Option<UnitState>], ino: u64) -> bool {
    drain.holder(ino).is_some() || is_in_units(units, ino)
}
