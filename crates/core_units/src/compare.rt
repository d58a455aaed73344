// The btrees of a unit beside what they must hold, piece by piece.
ghost use Rattle.std.specs.Prelude.{◌≡◌, ℕ, ◌+◌, ◌-◌, ◌^◌, ◌<◌, ◌≤◌, ◌++◌, [], Bool, IfOk, IsFalse, OnErr, if◌then◌else◌, length, nat_lt, None, Some, sum_by};
ghost use Rattle.core_units.specs.Compared.{AreComparable, AreFew, IsPair, IsPart, beside_kept, counters_in, faults_from, first_from, first_next, second_from, second_next, tree_faults_from};
ghost use Rattle.core_units.specs.Judging.{IsJudging, StaysJudged};
ghost use Rattle.derive_defs.specs.ByCount.{greatest};
ghost use Rattle.derive_defs.specs.Free.{block_count};
ghost use Rattle.fs_state.specs.Faults.{counter_fault};
ghost use Rattle.fs_model.specs.declared.fault.Counter.TheVariants.{Freeblks, Longest, Btreeblks};
ghost use Rattle.fs_state.specs.State.{blocks_of as blocks_of_reading};
ghost use Rattle.geom.specs.Layout.{Layout};
ghost use Rattle.group_trees.specs.Trees.{reading_of};
ghost use Rattle.group_trees.specs.declared.heads.GroupHeads.{GroupHeads as GroupHeadsOf};
ghost use Rattle.ino_recs.specs.Chunks.{ino_form};
ghost use Rattle.quiet_check.specs.Faults.{counter_faults, low};
ghost use Rattle.sblock.specs.Blocks.{IsRising};
ghost use Rattle.span_recs.specs.Spans.{cnt_form};

use crate::Lists;
use crate::judging::Judging;
use crate::totals::{total_count, total_free};
use ag_headers::{Agf, Agi};
use derive_defs::{free_blocks, longest};
use fs_model::{Counter, Fault};
use group_trees::{GroupHeads, GroupTrees, TreeSeen};
use ino_recs::{FinoKind, InoKind, InoRec};
use quiet_check::{add_counter, blocks_in};
use rmap_recs::RmapKind;
use space_check::unreadable;
use span_recs::{BnoKind, CntKind, RefcKind, SpanRec};
use std::alloc::{AllocError, Global};
use xref_scrub::{Indexed, compare_piece as compare_records};

/// Where the comparison of a unit stands: in its first or second btree, in front of the record with
/// this number in the order of both lists, at its counters, or at the end.
#[derive(Clone, Copy, Debug, PartialEq, Eq)]
pub enum Place {
    First(u64),
    Second(u64),
    Counters,
    End,
}

// The records that one call goes past.
const PIECE: u64 = 512;

// The faults of a btree from a number on, and where the next ones begin, if some records are left.
#[derive(Drop)]
struct Part {
    faults: Vec<Fault>,
    next: Option<u64>,
}

// The number behind a piece, where records are left.
fn number_behind(records: usize, derived: usize, from: u64) -> Option<u64>
    requires { records + derived < 2 ^ 64 }
    ensures { result ≡ (if nat_lt (from + 512) (records + derived) then Some (from + 512) else None) }
{
    let all = records as u64 + derived as u64;
    if from < all && all - from > PIECE {
        return Some(from + PIECE);
    }
    None
}

// The faults of the next records of a btree and its derivation.
fn compare_tree<K: Indexed>(
    alloc: Global,
    index: &TreeSeen<K::Rec>,
    derived: &[K::Rec],
    from: u64,
) -> Result<Part, AllocError>
    requires { IsPair K.form derived.now index.now }
    ensures { IfOk result (IsPart (tree_faults_from K.form K.shown derived.now (reading_of index.now)) from) }
{
    match index {
        TreeSeen::Whole(read) => {
            let recs = read.recs.as_slice();
            let faults = compare_records::<K>(alloc, recs, derived, from)?;
            let next = number_behind(recs.len(), derived.len(), from);
            Ok(Part { faults, next })
        }
        TreeSeen::Bad { block, fault, .. } => {
            let faults = unreadable::<K>(alloc, *block, *fault)?;
            Ok(Part { faults, next: None })
        }
    }
}

// The faults of the next records of a unit's first btree.
fn first_part(
    alloc: Global,
    trees: &GroupTrees,
    lists: &Lists,
    from: u64,
) -> Result<Part, AllocError>
    requires { AreComparable trees.now lists.now }
    ensures { IfOk result (IsPart (first_from trees.now lists.now) from) }
{
    match lists {
        Lists::Inode { ino, .. } => {
            compare_tree::<InoKind>(alloc, &trees.ino, ino.as_slice(), from)
        }
        Lists::Rmap { rmap } => compare_tree::<RmapKind>(alloc, &trees.rmap, rmap.as_slice(), from),
        Lists::Free { bno, .. } => compare_tree::<BnoKind>(alloc, &trees.bno, bno.as_slice(), from),
        Lists::Refc { refc } => compare_tree::<RefcKind>(alloc, &trees.refc, refc.as_slice(), from),
    }
}

// Those of its second, if it has one.
fn second_part(
    alloc: Global,
    trees: &GroupTrees,
    lists: &Lists,
    from: u64,
) -> Result<Part, AllocError>
    requires { AreComparable trees.now lists.now }
    ensures { IfOk result (IsPart (second_from trees.now lists.now) from) }
{
    match lists {
        Lists::Inode { fino, .. } => {
            compare_tree::<FinoKind>(alloc, &trees.fino, fino.as_slice(), from)
        }
        Lists::Free { cnt, .. } => compare_tree::<CntKind>(alloc, &trees.cnt, cnt.as_slice(), from),
        _ => Ok(Part {
            faults: Vec::new(alloc),
            next: None,
        }),
    }
}

#[tactic(auto, unfolding(quiet_check::specs::Faults::counter_faults))]
fn inode_counters(
    alloc: Global,
    kept: bool,
    agi: &Agi,
    trees: &GroupTrees,
    ino: &[InoRec],
) -> Result<Vec<Fault>, AllocError>
    ensures { IfOk result (λ faults. faults.items ≡ counter_faults kept agi.now ino.now (reading_of trees.now.ino) (reading_of trees.now.fino)) }
{
    let mut faults = Vec::new(alloc);
    let count = total_count(ino);
    add_counter(&mut faults, Counter::Count, agi.count, Some(count))?;
    let free = total_free(ino);
    add_counter(&mut faults, Counter::Freecount, agi.freecount, Some(free))?;
    let blocks = blocks_in(kept, &trees.ino);
    add_counter(&mut faults, Counter::Iblocks, agi.iblocks, blocks)?;
    let more = blocks_in(kept, &trees.fino);
    add_counter(&mut faults, Counter::Fblocks, agi.fblocks, more)?;
    Ok(faults)
}

// The blocks of three trees beside their roots, as a number of 32 bits.
fn without_roots(first: usize, second: usize, third: usize) -> u32
    ensures { result ≡ low (first + second + third - 3) }
{
    let blocks = first as u128 + second as u128 + third as u128;
    (blocks.saturating_sub(3) % (1 << 32)) as u32
}

// The same of the three trees of free space and reverse mappings, where all can be read.
fn beside_roots(trees: &GroupTrees) -> Option<u32>
    ensures { result ≡ beside_kept (reading_of trees.now.bno) (reading_of trees.now.cnt) (reading_of trees.now.rmap) }
{
    let TreeSeen::Whole(bno) = &trees.bno else {
        return None;
    };
    let TreeSeen::Whole(cnt) = &trees.cnt else {
        return None;
    };
    let TreeSeen::Whole(rmap) = &trees.rmap else {
        return None;
    };
    Some(without_roots(bno.blocks.len(), cnt.blocks.len(), rmap.blocks.len()))
}

fn space_counters(
    alloc: Global,
    agf: &Agf,
    trees: &GroupTrees,
    bno: &[SpanRec],
    cnt: &[SpanRec],
) -> Result<Vec<Fault>, AllocError>
    requires fits { block_count bno.now < 2 ^ 32 }
    requires rising { IsRising cnt_form cnt.now }
    ensures { IfOk result (λ faults. faults.items ≡ counter_fault Freeblks agf.now.freeblks (Some (block_count bno.now)) ++ counter_fault Longest agf.now.longest (Some (greatest cnt.now)) ++ counter_fault Btreeblks agf.now.btreeblks (beside_kept (reading_of trees.now.bno) (reading_of trees.now.cnt) (reading_of trees.now.rmap))) }
{
    let mut faults = Vec::new(alloc);
    let blocks = free_blocks(bno);
    add_counter(&mut faults, Counter::Freeblks, agf.freeblks, Some(blocks))?;
    let run = longest(cnt);
    add_counter(&mut faults, Counter::Longest, agf.longest, Some(run))?;
    let beside = beside_roots(trees);
    add_counter(&mut faults, Counter::Btreeblks, agf.btreeblks, beside)?;
    Ok(faults)
}

// The faults of the unit's counters.
fn counters(
    alloc: Global,
    kept: bool,
    heads: &GroupHeads,
    trees: &GroupTrees,
    lists: &Lists,
) -> Result<Vec<Fault>, AllocError>
    requires { AreComparable trees.now lists.now }
    ensures { IfOk result (λ faults. faults.items ≡ counters_in kept heads.now trees.now lists.now) }
{
    let agf = &heads.agf;
    match lists {
        Lists::Inode { ino, .. } => inode_counters(alloc, kept, &heads.agi, trees, ino.as_slice()),
        Lists::Rmap { .. } => {
            let mut faults = Vec::new(alloc);
            let blocks = blocks_in(true, &trees.rmap);
            add_counter(&mut faults, Counter::RmapBlocks, agf.rmap_blocks, blocks)?;
            Ok(faults)
        }
        Lists::Free { bno, cnt } => {
            space_counters(alloc, agf, trees, bno.as_slice(), cnt.as_slice())
        }
        Lists::Refc { .. } => {
            let mut faults = Vec::new(alloc);
            let blocks = blocks_in(true, &trees.refc);
            add_counter(
                &mut faults,
                Counter::RefcountBlocks,
                agf.refcount_blocks,
                blocks,
            )?;
            Ok(faults)
        }
    }
}

// Where it goes on behind a piece of the first btree.
fn next_first(next: Option<u64>) -> Place
    ensures { result ≡ first_next next }
{
    match next {
        Some(next) => Place::First(next),
        None => Place::Second(0),
    }
}

// And behind one of the second.
fn next_second(next: Option<u64>) -> Place
    ensures { result ≡ second_next next }
{
    match next {
        Some(next) => Place::Second(next),
        None => Place::Counters,
    }
}

// Whether there are records from this number on.
fn is_some_left(records: usize, derived: usize, from: u64) -> bool
    ensures { IsFalse result → records + derived ≤ from }
{
    u128::from(from) < records as u128 + derived as u128
}

// Whether a btree that can be read, or its derivation, has a record from this number on.
fn is_left<K: Indexed>(index: &TreeSeen<K::Rec>, derived: &[K::Rec], from: u64) -> bool
    ensures { IsFalse result → tree_faults_from K.form K.shown derived.now (reading_of index.now) from ≡ [] }
{
    match index {
        TreeSeen::Whole(read) => {
            let recs = read.recs.as_slice();
            is_some_left(recs.len(), derived.len(), from)
        }
        TreeSeen::Bad { .. } => true,
    }
}

// The same of a unit's first btree.
fn is_first_left(trees: &GroupTrees, lists: &Lists, from: u64) -> bool
    ensures { IsFalse result → first_from trees.now lists.now from ≡ [] }
{
    match lists {
        Lists::Inode { ino, .. } => is_left::<InoKind>(&trees.ino, ino.as_slice(), from),
        Lists::Rmap { rmap } => is_left::<RmapKind>(&trees.rmap, rmap.as_slice(), from),
        Lists::Free { bno, .. } => is_left::<BnoKind>(&trees.bno, bno.as_slice(), from),
        Lists::Refc { refc } => is_left::<RefcKind>(&trees.refc, refc.as_slice(), from),
    }
}

// And of its second, if it has one.
fn is_second_left(trees: &GroupTrees, lists: &Lists, from: u64) -> bool
    ensures { IsFalse result → second_from trees.now lists.now from ≡ [] }
{
    match lists {
        Lists::Inode { fino, .. } => is_left::<FinoKind>(&trees.fino, fino.as_slice(), from),
        Lists::Free { cnt, .. } => is_left::<CntKind>(&trees.cnt, cnt.as_slice(), from),
        _ => false,
    }
}

// The place in the second btree, or at the counters where it has nothing left.
fn second_left(trees: &GroupTrees, lists: &Lists, from: u64) -> Place
    ensures { (kept : Bool) (heads : GroupHeadsOf) → faults_from kept heads trees.now lists.now (Place.Second from) ≡ faults_from kept heads trees.now lists.now result }
{
    if is_second_left(trees, lists, from) {
        return Place::Second(from);
    }
    Place::Counters
}

// The place of what is compared next: a btree that has nothing left is passed.
fn next_left(trees: &GroupTrees, lists: &Lists, at: Place) -> Place
    ensures { (kept : Bool) (heads : GroupHeadsOf) → faults_from kept heads trees.now lists.now at ≡ faults_from kept heads trees.now lists.now result }
{
    match at {
        Place::First(from) => {
            if is_first_left(trees, lists, from) {
                return at;
            }
            second_left(trees, lists, 0)
        }
        Place::Second(from) => second_left(trees, lists, from),
        Place::Counters | Place::End => at,
    }
}

// What is compared at a place, and where it goes on.
#[derive(Drop)]
struct Piece {
    faults: Vec<Fault>,
    at: Place,
}

fn compare_at(
    alloc: Global,
    kept: bool,
    heads: &GroupHeads,
    judging: &Judging,
    at: Place,
) -> Result<Piece, AllocError>
    requires { AreComparable judging.now.trees judging.now.lists }
    ensures { IfOk result (λ piece. faults_from kept heads.now judging.now.trees judging.now.lists at ≡ piece.faults.items ++ faults_from kept heads.now judging.now.trees judging.now.lists piece.at) }
{
    let trees = &judging.trees;
    let lists = &judging.lists;
    match at {
        Place::First(from) => {
            let part = first_part(alloc, trees, lists, from)?;
            Ok(Piece {
                faults: part.faults,
                at: next_first(part.next),
            })
        }
        Place::Second(from) => {
            let part = second_part(alloc, trees, lists, from)?;
            Ok(Piece {
                faults: part.faults,
                at: next_second(part.next),
            })
        }
        Place::Counters => {
            let faults = counters(alloc, kept, heads, trees, lists)?;
            Ok(Piece {
                faults,
                at: Place::End,
            })
        }
        Place::End => Ok(Piece {
            faults: Vec::new(alloc),
            at: Place::End,
        }),
    }
}

/// Compares the next 512 records of a btree of the unit with what it must hold, or its counters, which
/// come last; answers the faults, counts them and moves on. A btree that can't be read has one fault; one
/// without records left is passed, so that each call compares something. No memory is the one refusal
/// (XFS Online Fsck Design, "Cross-Referencing Space Metadata").
pub fn compare_piece(
    alloc: Global,
    kept: bool,
    heads: &GroupHeads,
    judging: &mut Judging,
) -> Result<Vec<Fault>, AllocError>
    requires { AreComparable judging.old.trees judging.old.lists }
    ensures exact { IfOk result (λ faults. faults_from kept heads.now judging.old.trees judging.old.lists judging.old.at ≡ faults.items ++ faults_from kept heads.now judging.old.trees judging.old.lists judging.new.at) }
    ensures judging { (at : Layout) (g : ℕ) → IsJudging at g judging.old → IsJudging at g judging.new }
    ensures stays { StaysJudged judging.old judging.new }
    ensures counted { IfOk result (λ faults. judging.old.found + length faults.items < 2 ^ 64 → judging.new.found ≡ judging.old.found + length faults.items) }
    ensures kept { OnErr result (judging.new ≡ judging.old) }
{
    let at = next_left(&judging.trees, &judging.lists, judging.at);
    let piece = compare_at(alloc, kept, heads, judging, at)?;
    judging.at = piece.at;
    judging.found = judging.found.saturating_add(piece.faults.len() as u64);
    Ok(piece.faults)
}
