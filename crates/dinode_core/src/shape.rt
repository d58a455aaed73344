ghost use Rattle.std.specs.Prelude.{◌≡◌, ◌≤◌, length};
ghost use Rattle.dinode_core.specs.Shape.{data_size, size_of, area_of, is_absent, room_of, has_large_counts, count_of, format_named, format_of};

use crate::inode::Core3;
use crate::mapping::Fork;

/// How a fork is kept (XFS Algorithms and Data Structures, "Data Fork").
#[derive(Clone, Copy, Debug, PartialEq, Eq)]
pub enum Format {
    /// A device's number; there are no mappings.
    Dev,
    /// The content itself; there are no mappings.
    Local,
    /// Packed mappings.
    Extents,
    /// The root of a btree of mappings.
    Btree,
}

// The bytes of the literal area, and the unit of `di_forkoff`.
const LITERAL: usize = 336;

fn data_bytes(core: &Core3) -> usize
    ensures { result ≡ data_size core.now }
{
    if core.forkoff == 0 {
        LITERAL
    } else {
        8 * usize::from(core.forkoff)
    }
}

/// How many bytes of the inode a fork has; 0 for one that isn't there.
/// (XFS Algorithms and Data Structures, "Inode Literal Area".)
pub fn fork_size(core: &Core3, fork: Fork) -> usize
    ensures { result ≡ size_of core.now fork }
{
    match fork {
        Fork::Data => data_bytes(core),
        Fork::Attr => LITERAL.saturating_sub(data_bytes(core)),
    }
}

/// How many packed mappings a fork has room for.
/// (XFS Algorithms and Data Structures, "Extent List".)
pub fn fork_room(core: &Core3, fork: Fork) -> usize
    ensures { result ≡ room_of core.now fork }
{
    fork_size(core, fork) / 16
}

/// Whether an inode has no such fork: an attribute fork is there exactly where `di_forkoff` isn't 0.
/// (XFS Algorithms and Data Structures, "Attribute Fork".)
pub fn is_fork_absent(core: &Core3, fork: Fork) -> bool
    ensures { result ≡ is_absent core.now fork }
{
    match fork {
        Fork::Data => false,
        Fork::Attr => core.forkoff == 0,
    }
}

fn are_counts_large(core: &Core3) -> bool
    ensures { result ≡ has_large_counts core.now }
{
    core.flags2 / 16 % 2 == 1
}

/// How many mappings the core says that a fork has. With large counts (`XFS_DIFLAG2_NREXT64`) the
/// number of the data fork has 64 bits and that of the attribute fork 32, else 32 and 16.
/// (XFS Algorithms and Data Structures, "On-disk Inode".)
#[tactic(auto, unfolding(crate::specs::Shape::count_of))]
pub fn mapping_count(core: &Core3, fork: Fork) -> u64
    ensures { result ≡ count_of core.now fork }
{
    let large = are_counts_large(core);
    match fork {
        Fork::Data if large => core.big_nextents,
        Fork::Data => u64::from(core.nextents),
        Fork::Attr if large => u64::from(core.nextents),
        Fork::Attr => u64::from(core.anextents),
    }
}

fn named(code: u8) -> Option<Format>
    ensures { result ≡ format_named code }
{
    match code {
        0 => Some(Format::Dev),
        1 => Some(Format::Local),
        2 => Some(Format::Extents),
        3 => Some(Format::Btree),
        _ => None,
    }
}

/// How a fork is kept; none where the core names no format that such a fork has. An attribute fork is
/// never a device. (XFS Algorithms and Data Structures, "Data Fork" and "Attribute Fork".)
#[tactic(auto, unfolding(crate::specs::Shape::format_of))]
pub fn fork_format(core: &Core3, fork: Fork) -> Option<Format>
    ensures { result ≡ format_of core.now fork }
{
    match fork {
        Fork::Data => named(core.format),
        Fork::Attr if core.aformat == 0 => None,
        Fork::Attr => named(core.aformat),
    }
}

/// The bytes of a fork in the inode's literal area.
/// (XFS Algorithms and Data Structures, "Inode Literal Area".)
pub fn fork_area(core: &Core3, fork: Fork) -> &[u8]
    requires { core.now.forkoff ≤ 42 }
    ensures bytes { result.now ≡ area_of core.now fork }
    ensures long { length result.now ≡ size_of core.now fork }
{
    let (data, attr) = core.literal.split_at(data_bytes(core));
    match fork {
        Fork::Data => data,
        Fork::Attr => attr,
    }
}
