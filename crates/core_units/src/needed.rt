// How many blocks the new btrees of a unit need.
ghost use Rattle.core_units.specs.Fit.{first_number, second_number};
ghost use Rattle.unit_plan.specs.Need.{IsNeed};

use crate::Lists;
use fs_model::Unit;
use unit_plan::need;

/// The need of the unit for these lists
/// (XFS Online Fsck Design, "Reconstructing Metadata: Bulk Loading").
pub fn need_for(unit: Unit, lists: &Lists) -> u64
    ensures { IsNeed unit (first_number lists.now) (second_number lists.now) result }
{
    match lists {
        Lists::Inode { ino, fino } => need(unit, ino.len() as u64, fino.len() as u64),
        Lists::Rmap { rmap } => need(unit, rmap.len() as u64, 0),
        Lists::Free { bno, cnt: _ } => need(unit, bno.len() as u64, bno.len() as u64),
        Lists::Refc { refc } => need(unit, refc.len() as u64, 0),
    }
}
