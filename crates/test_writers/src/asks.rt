// What is asked of chain 0, and of the units of group 0.
use super::lists::Act;
use core_calls::{Answer, Ask, WriteFault};
use fs_model::Unit;
use fs_state::Plan;

pub(crate) fn begin(first: u64, second: Option<u64>) -> Ask {
    Ask::Begin {
        writer: 1,
        first,
        second,
    }
}

pub(crate) fn map(offset: u64, count: u32) -> Ask {
    Ask::MapFirst {
        chain: 0,
        offset,
        count,
    }
}

pub(crate) fn unmap(offset: u64, count: u32) -> Ask {
    Ask::UnmapFirst {
        chain: 0,
        offset,
        count,
    }
}

pub(crate) fn convert(offset: u64, count: u32) -> Ask {
    Ask::ConvertFirst {
        chain: 0,
        offset,
        count,
    }
}

pub(crate) fn share(offset: u64, to_offset: u64, count: u32) -> Ask {
    Ask::ShareFirst {
        chain: 0,
        offset,
        to_offset,
        count,
    }
}

pub(crate) fn strip() -> Ask {
    Ask::StripFirst { chain: 0 }
}

pub(crate) fn end() -> Ask {
    Ask::End { chain: 0 }
}

pub(crate) fn note() -> Ask {
    Ask::Note { writer: 1, line: 7 }
}

pub(crate) fn refused(fault: WriteFault) -> Answer {
    Answer::Write(fault)
}

pub(crate) fn take() -> Ask {
    Ask::TakeInode { writer: 1, uid: 7 }
}

/// The step of reverse mappings, which is done.
pub(crate) fn rmap_step() -> Act {
    Act::Once(Ask::RmapStep { chain: 0 }, Answer::Done)
}

/// The step of reference counts, which is done.
pub(crate) fn ref_step() -> Act {
    Act::Once(Ask::RefStep { chain: 0 }, Answer::Done)
}

/// The step that frees blocks, which is done.
pub(crate) fn free_step() -> Act {
    Act::Once(Ask::FreeStep { chain: 0 }, Answer::Done)
}

/// A unit of group 0 is opened, which may lose nine turns.
pub(crate) fn start(unit: Unit, plan: Plan) -> Act {
    Act::Once(
        Ask::Start {
            group: 0,
            unit,
            plan,
            turns: 9,
        },
        Answer::Done,
    )
}

/// The scan comes to an inode.
pub(crate) fn advance(ino: u64) -> Act {
    Act::Once(Ask::Advance { group: 0 }, Answer::At(ino))
}

/// The scan is at its end.
pub(crate) fn at_end() -> Act {
    Act::Once(Ask::Advance { group: 0 }, Answer::End)
}

/// All of the inode is read.
pub(crate) fn scan() -> Act {
    Act::Whole(Ask::ScanPiece { group: 0 })
}

/// The scan comes to the three inodes of a new image, and reads them.
pub(crate) fn three_scanned() -> [Act; 6] {
    [
        advance(192),
        scan(),
        advance(193),
        scan(),
        advance(194),
        scan(),
    ]
}

pub(crate) fn close() -> Act {
    Act::Once(Ask::Close { group: 0 }, Answer::Done)
}

/// An open unit is judged.
pub(crate) fn judged() -> [Act; 3] {
    [
        close(),
        Act::Whole(Ask::GatherPiece { group: 0 }),
        Act::Whole(Ask::ComparePiece { group: 0 }),
    ]
}

/// A unit that is to be rebuilt gets its new btrees.
pub(crate) fn switched() -> [Act; 3] {
    [
        Act::Whole(Ask::ReservePiece { group: 0 }),
        Act::Whole(Ask::StagePiece { group: 0 }),
        Act::Once(Ask::Switch { group: 0 }, Answer::Done),
    ]
}

/// A unit's limbo is reaped, and the group opened again.
pub(crate) fn reopened() -> [Act; 2] {
    [
        Act::Whole(Ask::ReapPiece { group: 0 }),
        Act::Once(Ask::Reopen { group: 0 }, Answer::Done),
    ]
}

/// A unit without a scan is judged, and the group opened again.
pub(crate) fn checked(unit: Unit) -> [Act; 6] {
    let [closed, gathered, compared] = judged();
    let [reaped, opened] = reopened();
    [
        start(unit, Plan::Check),
        closed,
        gathered,
        compared,
        reaped,
        opened,
    ]
}
