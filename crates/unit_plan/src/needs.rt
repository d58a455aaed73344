ghost use Rattle.std.specs.Prelude.{◌<◌, ◌^◌};
ghost use Rattle.unit_plan.specs.Need.{IsNeed, IsTreeOf};

use bulk_load::shape;
use fs_model::Unit;
use sblock::Kind;

// The blocks of a new btree of so many records.
fn blocks_for(records: u64, kind: Kind) -> u64
    ensures tree { IsTreeOf kind records result }
    ensures small { result < 2 ^ 59 }
{
    shape(records, kind).blocks
}

/// How many blocks the new btrees of a unit need: the sum of their shapes. `first` and `second` are
/// the numbers of records of the lists that its btrees must hold, in their order; a unit of one
/// btree has no second (XFS Online Fsck Design, "Reconstructing Metadata: Bulk Loading").
pub fn need(unit: Unit, first: u64, second: u64) -> u64
    ensures { IsNeed unit first second result }
{
    match unit {
        Unit::Inode => blocks_for(first, Kind::Ino) + blocks_for(second, Kind::Fino),
        Unit::Rmap => blocks_for(first, Kind::Rmap),
        Unit::Free => blocks_for(first, Kind::Bno) + blocks_for(second, Kind::Cnt),
        Unit::Refc => blocks_for(first, Kind::Refc),
    }
}
