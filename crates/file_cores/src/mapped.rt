// Lists of mappings, as they are read from inodes.
ghost use Rattle.std.specs.Prelude.{◌≡◌, ◌+◌, ◌≤◌, ◌^◌, true};
ghost use Rattle.fork_change.specs.Lists.{AllFit, Fits};

use dinode_core::Mapping;
use fork_change::MOST_MAPPED;

// The ends of all offsets, and of all blocks that a packed mapping names.
const OFFSETS: u64 = 1 << 54;

const BLOCKS: u64 = 1 << 52;

// Whether the numbers of a mapping fit a packed one, and it has blocks.
fn is_fit(m: &Mapping) -> bool
    ensures { result ≡ true → Fits m.now }
{
    let count = u64::from(m.count);
    0 < m.count
        && m.count <= MOST_MAPPED
        && m.offset <= OFFSETS - count
        && m.block <= BLOCKS - count
}

/// Whether the numbers of these mappings fit packed ones, and each has blocks: so it is of a fork without
/// a fault (XFS Algorithms and Data Structures, "Extent List").
pub fn are_fit(list: &[Mapping]) -> bool
    ensures { result ≡ true → AllFit list.now }
{
    let Some((first, later)) = list.split_first() else {
        return true;
    };
    is_fit(first) && are_fit(later)
}

/// Whether one of these mappings has an offset of this range
/// (XFS Algorithms and Data Structures, "Data Extents").
pub fn is_range_mapped(list: &[Mapping], offset: u64, count: u32) -> bool
    requires list { AllFit list.now }
    requires range { offset + count ≤ 2 ^ 54 }
{
    let Some((first, later)) = list.split_first() else {
        return false;
    };
    let is_met = first.offset < offset + u64::from(count)
        && offset < first.offset + u64::from(first.count);
    is_met || is_range_mapped(later, offset, count)
}
