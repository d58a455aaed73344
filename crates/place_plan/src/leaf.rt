ghost use Rattle.std.specs.Prelude.{◌≡◌, ◌+◌, ◌<◌, ◌≤◌, ℕ, List, None, Some, IfOk, true};
ghost use Rattle.blk_device.specs.Causes.{HasCause};
ghost use Rattle.edit_terms.specs.Faults.{is_devices};
ghost use Rattle.sblock.specs.Area.{area_of};
ghost use Rattle.sblock.specs.Blocks.{numrecs, is_rising};
ghost use Rattle.sblock.specs.Kinds.{leaf_most_of};
ghost use Rattle.tree_blocks.specs.Calls.{Reads};

use crate::ask::{Ask, Seen};
use crate::beside::{NO_BLOCK, beside};
use byte_fields::Block;
use edit_terms::EditFault;
use list_edit::Edit;
use sblock::{RecKind, count_of, data_area, do_meet, right_of};
use tree_blocks::Blocks;
use tree_defs::Site;
use tree_find::place_after;

// Whether two records have equal keys.
fn have_one_key<K: RecKind>(a: &K::Rec, b: &K::Rec) -> bool {
    let (one, other) = (K::key_of(a), K::key_of(b));
    !K::is_before(&one, &other) && !K::is_before(&other, &one)
}

/// The place in a leaf of the first record whose key isn't before this record's.
pub fn place_in<K: RecKind>(block: &Block, rec: &K::Rec) -> usize
    requires room { numrecs block.now.bytes ≤ leaf_most_of K.form.kind }
    requires rising { is_rising K.form true (area_of block.now.bytes) (numrecs block.now.bytes) ≡ true }
    ensures within { result ≤ numrecs block.now.bytes }
{
    let area = data_area(block);
    let key = K::key_of(rec);
    let behind = place_after::<K>(area, true, count_of(block), &Some(key));
    if behind == 0 {
        return 0;
    }
    let last = K::key_of(&K::record_at(area, behind - 1));
    if K::is_before(&last, &key) {
        return behind;
    }
    behind - 1
}

// Whether record `i` of a leaf can't be beside the record.
fn is_barred_by<K: RecKind>(block: &Block, i: usize, rec: &K::Rec) -> bool
    requires { i < leaf_most_of K.form.kind }
{
    let other = K::record_at(data_area(block), i);
    do_meet::<K>(&other, rec) || have_one_key::<K>(&other, rec)
}

// Whether the record before place `i` of a leaf can't be beside the record.
fn is_barred_before<K: RecKind>(block: &Block, i: usize, rec: &K::Rec) -> bool
    requires { i ≤ leaf_most_of K.form.kind }
{
    i > 0 && is_barred_by::<K>(block, i - 1, rec)
}

// Whether the first record of a leaf can't be beside the record.
fn is_barred_by_first<K: RecKind>(block: &Block, rec: &K::Rec) -> bool
    requires { numrecs block.now.bytes ≤ leaf_most_of K.form.kind }
{
    count_of(block) > 0 && is_barred_by::<K>(block, 0, rec)
}

// Whether the record from place `i` of a leaf on, or the first of the leaf after it, can't be beside the
// record.
fn is_barred_behind<K: RecKind, B: Blocks>(
    blocks: &mut B,
    site: &Site,
    seen: &Seen,
    i: usize,
    rec: &K::Rec,
) -> Result<bool, EditFault>
    requires here { B.place blocks.old ≡ site.now }
    requires leaf { seen.now.spot.level ≡ 0 }
    requires room { numrecs seen.now.block.bytes ≤ leaf_most_of K.form.kind }
    ensures reading { Reads B.Blocks blocks.old blocks.new }
    ensures cause { HasCause is_devices (B.faults blocks.old) (B.faults blocks.new) result }
    ensures few { B.count blocks.new ≤ B.count blocks.old + 1 }
{
    if i < count_of(&seen.block) as usize {
        return Ok(is_barred_by::<K>(&seen.block, i, rec));
    }
    let right = right_of(&seen.block);
    if right == NO_BLOCK {
        return Ok(false);
    }
    let next = beside::<K, B>(blocks, site, seen.spot, right)?;
    Ok(is_barred_by_first::<K>(&next, rec))
}

// Refuses where a record before this place, or one from that place on, can't be beside the record.
fn look_beside<K: RecKind, B: Blocks>(
    blocks: &mut B,
    ask: &Ask<K::Rec>,
    seen: &Seen,
    at: usize,
    behind: usize,
) -> Result<(), EditFault>
    requires here { B.place blocks.old ≡ ask.now.site }
    requires leaf { seen.now.spot.level ≡ 0 }
    requires room { numrecs seen.now.block.bytes ≤ leaf_most_of K.form.kind }
    requires within { at ≤ numrecs seen.now.block.bytes }
    ensures reading { Reads B.Blocks blocks.old blocks.new }
    ensures cause { HasCause is_devices (B.faults blocks.old) (B.faults blocks.new) result }
    ensures few { B.count blocks.new ≤ B.count blocks.old + 1 }
{
    if is_barred_before::<K>(&seen.block, at, &ask.rec) {
        return Err(EditFault::Overlap);
    }
    if is_barred_behind::<K, B>(blocks, &ask.site, seen, behind, &ask.rec)? {
        return Err(EditFault::Overlap);
    }
    Ok(())
}

// Whether the record at a place of a leaf is the one that goes, or has the key of the new one.
fn stands_there<K: RecKind>(block: &Block, at: usize, ask: &Ask<K::Rec>) -> bool
    requires { numrecs block.now.bytes ≤ leaf_most_of K.form.kind }
{
    if at >= count_of(block) as usize {
        return false;
    }
    let found = K::record_at(data_area(block), at);
    match ask.how {
        Edit::Insert => false,
        Edit::Remove => K::is_same(&found, &ask.rec),
        Edit::Change => have_one_key::<K>(&found, &ask.rec),
    }
}

// How many records a leaf has afterwards.
#[tactic(auto, using(crate::proofs::SizeLemmas::leaf_small))]
pub(crate) fn plan_leaf<K: RecKind, B: Blocks>(
    blocks: &mut B,
    ask: &Ask<K::Rec>,
    seen: &Seen,
) -> Result<u16, EditFault>
    requires here { B.place blocks.old ≡ ask.now.site }
    requires leaf { seen.now.spot.level ≡ 0 }
    requires room { numrecs seen.now.block.bytes ≤ leaf_most_of K.form.kind }
    requires rising { is_rising K.form true (area_of seen.now.block.bytes) (numrecs seen.now.block.bytes) ≡ true }
    ensures reading { Reads B.Blocks blocks.old blocks.new }
    ensures cause { HasCause is_devices (B.faults blocks.old) (B.faults blocks.new) result }
    ensures few { B.count blocks.new ≤ B.count blocks.old + 1 }
{
    let count = count_of(&seen.block);
    let at = place_in::<K>(&seen.block, &ask.rec);
    if ask.how == Edit::Insert {
        look_beside::<K, B>(blocks, ask, seen, at, at)?;
        return Ok(count + 1);
    }
    if !stands_there::<K>(&seen.block, at, ask) {
        return Err(EditFault::Missing);
    }
    if ask.how == Edit::Remove {
        return Ok(count.saturating_sub(1));
    }
    look_beside::<K, B>(blocks, ask, seen, at, at + 1)?;
    Ok(count)
}
