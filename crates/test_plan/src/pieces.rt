use fs_model::{Claim, Evidence};
use run_sets::Run;
use unit_plan::Piece;

// The flag of an offset word for blocks that aren't written.
const UNWRITTEN: u64 = 1 << 61;

// The owner of the group's space btrees, which the tests give to each claim that isn't a file's.
const AG: u64 = 0xffff_ffff_ffff_fffb;

/// A piece of written blocks.
pub fn piece(claim: Claim, start: u32, count: u32) -> Piece {
    let owner = match claim {
        Claim::Data(ino) => ino,
        Claim::Attr(ino) => ino,
        Claim::ForkTree(ino) => ino,
        _ => AG,
    };
    Piece {
        claim,
        run: Run { start, count },
        owner,
        word: 0,
    }
}

/// Blocks of file data that aren't written.
pub fn unwritten(ino: u64, start: u32, count: u32) -> Piece {
    Piece {
        claim: Claim::Data(ino),
        run: Run { start, count },
        owner: ino,
        word: UNWRITTEN,
    }
}

/// The overlap of these claims at this block.
pub(crate) fn overlap(block: u32, first: Claim, second: Claim) -> Option<Evidence> {
    Some(Evidence::Overlap {
        block,
        first,
        second,
    })
}
