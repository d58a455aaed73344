// The words of the report for kinds, units, faults and counters.
ghost use Rattle.std.specs.Prelude.{◌≡◌};
ghost use Rattle.run_text.specs.Names.{kind_name as kind_name_of, unit_name as unit_name_of, block_fault_name as block_fault_name_of, core_fault_name as core_fault_name_of, fork_fault_name as fork_fault_name_of, counter_name as counter_name_of};

use dinode_core::{CoreFault, ForkFault};
use fs_model::{Counter, Unit};
use sblock::{BlockFault, Kind};

/// A tree as a line of the report names it.
pub fn kind_name(kind: Kind) -> &'static str
    ensures { result.now ≡ kind_name_of kind }
{
    match kind {
        Kind::Bno => "bno",
        Kind::Cnt => "cnt",
        Kind::Rmap => "rmap",
        Kind::Refc => "refc",
        Kind::Ino => "ino",
        Kind::Fino => "fino",
    }
}

/// A unit as a line of the report names it.
pub fn unit_name(unit: Unit) -> &'static str
    ensures { result.now ≡ unit_name_of unit }
{
    match unit {
        Unit::Inode => "inode",
        Unit::Rmap => "rmap",
        Unit::Free => "free",
        Unit::Refc => "refc",
    }
}

/// A fault of a block of a tree as the report names it.
pub fn block_fault_name(fault: BlockFault) -> &'static str
    ensures { result.now ≡ block_fault_name_of fault }
{
    match fault {
        BlockFault::Magic => "magic",
        BlockFault::Level => "level",
        BlockFault::Count => "count",
        BlockFault::Sibling => "sibling",
        BlockFault::Place => "place",
        BlockFault::Owner => "owner",
        BlockFault::Uuid => "uuid",
        BlockFault::Checksum => "checksum",
        BlockFault::Order => "order",
        BlockFault::Key => "key",
        BlockFault::Range => "range",
        BlockFault::Later => "later",
    }
}

/// A fault of an inode's core as the report names it.
pub fn core_fault_name(fault: CoreFault) -> &'static str
    ensures { result.now ≡ core_fault_name_of fault }
{
    match fault {
        CoreFault::Magic => "magic",
        CoreFault::Version => "version",
        CoreFault::Number => "number",
        CoreFault::Checksum => "checksum",
        CoreFault::Uuid => "uuid",
    }
}

/// A fault of an inode's fork as the report names it.
pub fn fork_fault_name(fault: ForkFault) -> &'static str
    ensures { result.now ≡ fork_fault_name_of fault }
{
    match fault {
        ForkFault::Format => "format",
        ForkFault::Count => "count",
        ForkFault::Order => "order",
        ForkFault::Overlap => "overlap",
        ForkFault::Range => "range",
        ForkFault::Block => "block",
    }
}

/// A counter of a head as the report names it.
pub fn counter_name(counter: Counter) -> &'static str
    ensures { result.now ≡ counter_name_of counter }
{
    match counter {
        Counter::Count => "count",
        Counter::Freecount => "freecount",
        Counter::Iblocks => "iblocks",
        Counter::Fblocks => "fblocks",
        Counter::RmapBlocks => "rmap_blocks",
        Counter::Freeblks => "freeblks",
        Counter::Longest => "longest",
        Counter::Btreeblks => "btreeblks",
        Counter::RefcountBlocks => "refcount_blocks",
    }
}
