ghost use Rattle.std.specs.Prelude.{◌≡◌, true};
ghost use Rattle.draft_check.specs.Drafts.{AreStamped};

use byte_fields::{Block, get_u64};

/// Whether each block that was made has this log sequence number, in the 8 bytes at 24
/// (XFS Algorithms and Data Structures, "Short Format B+trees").
pub fn are_stamped(placed: &[(u32, Block)], lsn: u64) -> bool
    ensures { result ≡ true → AreStamped lsn placed.now }
{
    let mut rest = placed;
    while let Some(((_, block), later)) = rest.split_first() {
        if get_u64(&block.bytes, 24) != lsn {
            return false;
        }
        rest = later;
    }
    true
}
