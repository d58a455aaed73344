// The event that a line asks for.
ghost use Rattle.std.specs.Prelude.{ℕ, ◌<◌, IfSome};
ghost use Rattle.fsck_core.specs.Asks.{MayAsk};

use core_calls::Ask;
use fs_model::Unit;
use fs_state::Plan;

/// The numbers of a line, 0 for each that it doesn't have. No event has more.
pub type Row = [u64; 4];

/// The numbers after the first word of a line. A word that is no number stands for the greatest one.
pub fn row_of(line: &str) -> Row {
    let mut row = [0; 4];
    for (number, word) in row.iter_mut().zip(line.split_whitespace().skip(1)) {
        *number = word.parse::<u64>().unwrap_or(u64::MAX);
    }
    row
}

/// A number of 32 bits: the greatest where this one is larger.
pub fn narrow(number: u64) -> u32 {
    u32::try_from(number).unwrap_or(u32::MAX)
}

// The inode of a number, none for 0.
fn some_inode(number: u64) -> Option<u64> {
    if number == 0 {
        return None;
    }
    Some(number)
}

fn unit_of(number: u64) -> Unit {
    match number {
        0 => Unit::Inode,
        1 => Unit::Rmap,
        2 => Unit::Free,
        _ => Unit::Refc,
    }
}

fn plan_of(number: u64) -> Plan {
    match number {
        0 => Plan::Check,
        1 => Plan::Repair,
        _ => Plan::Rebuild,
    }
}

// The first events of a chain.
fn first_event(name: &str, row: &Row) -> Option<Ask>
    ensures { (n : ℕ) → IfSome result (MayAsk n) }
{
    let chain = narrow(row[0]);
    let (offset, count) = (row[1], narrow(row[2]));
    match name {
        "map_first" => Some(Ask::MapFirst {
            chain,
            offset,
            count,
        }),
        "unmap_first" => Some(Ask::UnmapFirst {
            chain,
            offset,
            count,
        }),
        "convert_first" => Some(Ask::ConvertFirst {
            chain,
            offset,
            count,
        }),
        "strip_first" => Some(Ask::StripFirst { chain }),
        "share_first" => Some(Ask::ShareFirst {
            chain,
            offset,
            to_offset: row[2],
            count: narrow(row[3]),
        }),
        _ => None,
    }
}

// The other events of a chain.
fn chain_event(name: &str, row: &Row) -> Option<Ask>
    ensures { (n : ℕ) → IfSome result (MayAsk n) }
{
    let chain = narrow(row[0]);
    match name {
        "rmap_step" => Some(Ask::RmapStep { chain }),
        "ref_step" => Some(Ask::RefStep { chain }),
        "free_step" => Some(Ask::FreeStep { chain }),
        "give_inode" => Some(Ask::GiveInode { chain }),
        "end" => Some(Ask::End { chain }),
        _ => first_event(name, row),
    }
}

// What a writer asks for.
fn writer_event(name: &str, row: &Row) -> Option<Ask>
    ensures { (n : ℕ) → IfSome result (MayAsk n) }
{
    let writer = narrow(row[0]);
    match name {
        "begin" => Some(Ask::Begin {
            writer,
            first: row[1],
            second: some_inode(row[2]),
        }),
        "take_inode" => Some(Ask::TakeInode {
            writer,
            uid: narrow(row[1]),
        }),
        "note" => Some(Ask::Note {
            writer,
            line: narrow(row[1]),
        }),
        _ => chain_event(name, row),
    }
}

// What is asked for in a group.
fn group_event(name: &str, group: u32, row: &Row, groups: u32) -> Option<Ask>
    requires { group < groups }
    ensures { IfSome result (MayAsk groups) }
{
    match name {
        "refill" => Some(Ask::Refill { group }),
        "start" => Some(Ask::Start {
            group,
            unit: unit_of(row[1]),
            plan: plan_of(row[2]),
            turns: narrow(row[3]),
        }),
        "advance" => Some(Ask::Advance { group }),
        "scan_piece" => Some(Ask::ScanPiece { group }),
        "close" => Some(Ask::Close { group }),
        "gather_piece" => Some(Ask::GatherPiece { group }),
        "compare_piece" => Some(Ask::ComparePiece { group }),
        "reserve_piece" => Some(Ask::ReservePiece { group }),
        "stage_piece" => Some(Ask::StagePiece { group }),
        "switch" => Some(Ask::Switch { group }),
        "reap_piece" => Some(Ask::ReapPiece { group }),
        "reopen" => Some(Ask::Reopen { group }),
        _ => None,
    }
}

/// The event that a line asks for, of a core with so many groups; none where there is no such event or
/// no such group.
pub fn ask_of(name: &str, row: &Row, groups: u32) -> Option<Ask>
    ensures { IfSome result (MayAsk groups) }
{
    if let Some(ask) = writer_event(name, row) {
        return Some(ask);
    }
    match u32::try_from(row[0]) {
        Ok(group) if group < groups => group_event(name, group, row, groups),
        _ => None,
    }
}
