// The records of a leaf once it is edited.
ghost use Rattle.std.specs.Prelude.{◌≡◌, ◌+◌, ◌≤◌, ℕ, true, IfOk};
ghost use Rattle.blk_device.specs.Causes.{HasCause};
ghost use Rattle.edit_terms.specs.Faults.{is_devices};
ghost use Rattle.sblock.specs.Area.{area_of};
ghost use Rattle.sblock.specs.Blocks.{numrecs, is_rising};
ghost use Rattle.sblock.specs.Kinds.{leaf_most_of};
ghost use Rattle.place_apply.specs.Fitting.{Fits};

use crate::items::{Change, Items};
use byte_fields::Block;
use edit_terms::EditFault;
use list_edit::Edit;
use place_cells::Cut;
use place_plan::{Ask, place_in};
use sblock::{RecKind, count_of, data_area};

// Whether two records have equal keys.
fn have_one_key<K: RecKind>(a: &K::Rec, b: &K::Rec) -> bool {
    let (one, other) = (K::key_of(a), K::key_of(b));
    !K::is_before(&one, &other) && !K::is_before(&other, &one)
}

// Whether the record at a place of a leaf is the one that goes, or has the key of the new one.
fn stands_there<K: RecKind>(block: &Block, at: usize, ask: &Ask<K::Rec>) -> bool
    requires { numrecs block.now.bytes ≤ leaf_most_of K.form.kind }
    ensures { result ≡ true → at + 1 ≤ numrecs block.now.bytes }
{
    if at >= usize::from(count_of(block)) {
        return false;
    }
    let found = K::record_at(data_area(block), at);
    match ask.how {
        Edit::Insert => false,
        Edit::Remove => K::is_same(&found, &ask.rec),
        Edit::Change => have_one_key::<K>(&found, &ask.rec),
    }
}

// The records of a leaf with one in the place of so many, none or one; or with these taken out.
fn leaf_with<K: RecKind>(
    block: &Block,
    at: usize,
    gone: u16,
    put: Option<K::Rec>,
) -> Items<K::Rec, K::Key>
    requires room { numrecs block.now.bytes ≤ leaf_most_of K.form.kind }
    requires within { at + gone ≤ numrecs block.now.bytes }
    requires few { gone ≤ 1 }
    ensures fits { Fits K.form 0 result }
    ensures count { result.count ≤ leaf_most_of K.form.kind + 1 }
{
    let more = u16::from(put.is_some());
    Items {
        first: *block,
        second: *block,
        change: Change::Records(Cut {
            at,
            gone: usize::from(gone),
            first: put,
            second: None,
        }),
        count: count_of(block) - gone + more,
    }
}

// The records of a leaf once it is edited; Missing where the record that goes isn't there.
pub(crate) fn leaf_items<K: RecKind>(
    block: &Block,
    ask: &Ask<K::Rec>,
) -> Result<Items<K::Rec, K::Key>, EditFault>
    requires room { numrecs block.now.bytes ≤ leaf_most_of K.form.kind }
    requires rising { is_rising K.form true (area_of block.now.bytes) (numrecs block.now.bytes) ≡ true }
    ensures fits { IfOk result (λ items. Fits K.form 0 items) }
    ensures count { IfOk result (λ items. items.count ≤ leaf_most_of K.form.kind + 1) }
    ensures quiet { (n : ℕ) → HasCause is_devices n n result }
{
    let at = place_in::<K>(block, &ask.rec);
    if ask.how == Edit::Insert {
        return Ok(leaf_with::<K>(block, at, 0, Some(ask.rec)));
    }
    if !stands_there::<K>(block, at, ask) {
        return Err(EditFault::Missing);
    }
    if ask.how == Edit::Remove {
        return Ok(leaf_with::<K>(block, at, 1, None));
    }
    Ok(leaf_with::<K>(block, at, 1, Some(ask.rec)))
}
