// What an edit makes of a tree's records and blocks, before anything is changed.
ghost use Rattle.std.specs.Prelude.{◌≡◌, Ok, OnOk, IfOk, IfErr, length};
ghost use Rattle.ag_headers.specs.Ring.{entries};
ghost use Rattle.list_edit.specs.Edits.{edited};
ghost use Rattle.tree_edit.specs.Plans.{RefusesList, RefusesBlocks, IsPlan};

use crate::fault::EditFault;
use ag_headers::Agfl;
use bulk_load::Shape;
use edit_blocks::choose;
use list_edit::{Edit, edit_list};
use sblock::RecKind;
use std::alloc::Global;

/// The blocks for an edited tree, group-relative, leaves from left to right and the root last, and how
/// many of them are the free list's first ones.
#[derive(Drop)]
pub struct Plan {
    pub claimed: Vec<u32>,
    pub need: u32,
}

/// Edits the records of a tree; refused exactly where the list of records is
/// (XFS Algorithms and Data Structures, "Short Format B+trees").
pub fn plan_records<K: RecKind>(
    recs: &mut Vec<K::Rec>,
    how: Edit,
    rec: &K::Rec,
) -> Result<(), EditFault>
    ensures edits { OnOk result (edited K.form how rec.now recs.old.items ≡ Ok recs.new.items) }
    ensures refused { IfErr result (RefusesList (edited K.form how rec.now recs.old.items)) }
{
    Ok(edit_list::<K>(recs, how, rec)?)
}

/// The blocks for an edited tree of so many: those that it has, in walk order, and then the free list's
/// first ones. Short exactly where the list has fewer than the edit needs; a need that no u32 holds is
/// told as the greatest one (XFS Algorithms and Data Structures, "AG Free List").
pub fn plan_blocks(
    alloc: Global,
    before: &[u32],
    list: &Agfl,
    form: &Shape,
) -> Result<Plan, EditFault>
    ensures plan { IfOk result (IsPlan before.now (entries list.now) form.now.blocks) }
    ensures refused { IfErr result (RefusesBlocks (length before.now) (length (entries list.now)) form.now.blocks) }
{
    let have = list.len();
    let need = form.blocks.saturating_sub(before.len() as u64);
    if need > u64::from(have) {
        let told = need.min(u64::from(u32::MAX)) as u32;
        return Err(EditFault::Short { have, need: told });
    }
    let need = need as u32;
    let claimed = choose(alloc, before, list, form.blocks as usize, need)?;
    Ok(Plan { claimed, need })
}
