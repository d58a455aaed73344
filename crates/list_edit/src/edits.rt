ghost use Rattle.std.specs.Prelude.{◌≡◌, ◌≢◌, IfErr, OnErr};
ghost use Rattle.list_edit.specs.Edits.{edited};
ghost use Rattle.list_edit.specs.Meets.{MeetsEdit, IsNoMemory};
ghost use Rattle.list_edit.specs.declared.edits.Edit.TheVariants.{Insert as IsInsert, Remove as IsRemove, Change as IsChange};

use crate::fault::ListFault;
use crate::places::{is_barred, is_barred_beside, place_for, place_of, place_with};
use sblock::RecKind;

/// What is done with a record: it is put in by key order, taken out, or put in the place of the
/// record with an equal key.
#[derive(Clone, Copy, Debug, PartialEq, Eq)]
pub enum Edit {
    Insert,
    Remove,
    Change,
}

// Puts the record in by key order.
fn insert<K: RecKind>(list: &mut Vec<K::Rec>, rec: &K::Rec) -> Result<(), ListFault>
    ensures exact { MeetsEdit (edited K.form IsInsert rec.now list.old.items) result list.new.items }
    ensures kept { OnErr result (list.new.items ≡ list.old.items) }
{
    if is_barred::<K>(list, rec) {
        return Err(ListFault::Overlap);
    }
    let place = place_for::<K>(list, rec);
    list.insert(place, *rec)?;
    Ok(())
}

// Takes out the record that is this one.
fn remove<K: RecKind>(list: &mut Vec<K::Rec>, rec: &K::Rec) -> Result<(), ListFault>
    ensures exact { MeetsEdit (edited K.form IsRemove rec.now list.old.items) result list.new.items }
    ensures kept { OnErr result (list.new.items ≡ list.old.items) }
    ensures no_memory { IfErr result IsNoMemory }
{
    let place = place_of::<K>(list, rec);
    if place == list.len() {
        return Err(ListFault::Missing);
    }
    let _ = list.remove(place);
    Ok(())
}

// Puts the record in the place of the one with an equal key.
fn change<K: RecKind>(list: &mut Vec<K::Rec>, rec: &K::Rec) -> Result<(), ListFault>
    ensures exact { MeetsEdit (edited K.form IsChange rec.now list.old.items) result list.new.items }
    ensures kept { OnErr result (list.new.items ≡ list.old.items) }
    ensures no_memory { IfErr result IsNoMemory }
{
    let place = place_with::<K>(list, rec);
    if place == list.len() {
        return Err(ListFault::Missing);
    }
    if is_barred_beside::<K>(list, rec) {
        return Err(ListFault::Overlap);
    }
    list[place] = *rec;
    Ok(())
}

/// Edits a list of records that rises by key. Missing where the record isn't there, Overlap where a
/// record that stays can't be beside the new one: in the trees of free space by start and of
/// reference counts one with a common block, and in all trees one with an equal key. Only an insert
/// takes memory, and after a refusal the list is as it was. It costs some walks along the list
/// (XFS Algorithms and Data Structures, "Short Format B+trees").
pub fn edit_list<K: RecKind>(
    list: &mut Vec<K::Rec>,
    how: Edit,
    rec: &K::Rec,
) -> Result<(), ListFault>
    ensures exact { MeetsEdit (edited K.form how rec.now list.old.items) result list.new.items }
    ensures kept { OnErr result (list.new.items ≡ list.old.items) }
    ensures no_memory { how ≢ Edit.Insert → IfErr result IsNoMemory }
{
    match how {
        Edit::Insert => insert::<K>(list, rec),
        Edit::Remove => remove::<K>(list, rec),
        Edit::Change => change::<K>(list, rec),
    }
}
