// Blocks of one level, made anew: one alone, one cut in two, and two neighbours that are evened.
ghost use Rattle.std.specs.Prelude.{◌≡◌, ◌+◌, ◌*◌, ◌^◌, ◌<◌, ◌≤◌, ℕ, IfOk};
ghost use Rattle.blk_device.specs.Causes.{HasCause};
ghost use Rattle.edit_terms.specs.Faults.{is_devices};
ghost use Rattle.sblock.specs.Blocks.{numrecs};
ghost use Rattle.tree_blocks.specs.Calls.{Reads};
ghost use Rattle.place_plan.specs.Counts.{most_at};
ghost use Rattle.place_apply.specs.Drafts.{IsDraft};
ghost use Rattle.place_apply.specs.Fitting.{Fits};

use crate::draft::{free, put, take};
use crate::items::{Change, Items, Piece, make_block};
use crate::look::look;
use crate::span::span_of_block;
use crate::task::{NO_BLOCK, Part, Parts, Task, frame_of};
use block_head::block_of;
use byte_fields::Block;
use edit_terms::EditFault;
use over_blocks::Draft;
use place_cells::{Cut, Stand};
use place_plan::{Spot, most};
use sblock::{BlockFault, Header, RecKind, count_of, data_area, left_of, right_of};
use tree_blocks::Blocks;

// Two neighbours of a level, and the blocks beside them.
#[derive(Clone, Copy)]
pub(crate) struct Row {
    pub level: u8,
    pub left: u32,
    pub first: u32,
    pub second: u32,
    pub right: u32,
}

// Where the first block of a row stands.
fn front_of(row: &Row) -> Stand
    ensures at { result.at ≡ row.now.first }
    ensures level { result.level ≡ row.now.level }
{
    Stand {
        at: row.first,
        level: row.level,
        left: row.left,
        right: row.second,
    }
}

// Where the second block of a row stands.
fn back_of(row: &Row) -> Stand
    ensures at { result.at ≡ row.now.second }
    ensures level { result.level ≡ row.now.level }
{
    Stand {
        at: row.second,
        level: row.level,
        left: row.first,
        right: row.right,
    }
}

// Puts the block of a piece into the draft.
pub(crate) fn put_piece<K: RecKind>(
    task: &Task<K::Rec>,
    draft: &mut Draft,
    items: &Items<K::Rec, K::Key>,
    piece: Piece,
) -> Result<Part<K::Key>, EditFault>
    requires draft { IsDraft task.now draft.old }
    requires inside { piece.stand.at < task.now.ask.site.bounds.length }
    requires place { 8 * (task.now.ask.site.first + task.now.ask.site.bounds.length) < 2 ^ 64 }
    requires items { Fits K.form piece.stand.level items.now }
    requires within { piece.from + piece.count ≤ items.now.count }
    requires room { piece.count ≤ most_at K.form.kind piece.stand.level }
    ensures draft { IsDraft task.now draft.new }
    ensures quiet { (n : ℕ) → HasCause is_devices n n result }
{
    let at = piece.stand.at;
    let block = make_block::<K>(items, &piece, &frame_of(task));
    let span = match span_of_block::<K>(&block, piece.stand.level, &task.ask.site.bounds) {
        Ok(span) => span,
        Err(fault) => return Err(EditFault::Bad { block: at, fault }),
    };
    put(task, draft, at, block)?;
    Ok(Part {
        block: at,
        count: piece.count,
        span,
    })
}

// Two neighbours of half of the records or entries each.
pub(crate) fn put_halves<K: RecKind>(
    task: &Task<K::Rec>,
    draft: &mut Draft,
    items: &Items<K::Rec, K::Key>,
    row: &Row,
) -> Result<Parts<K::Key>, EditFault>
    requires draft { IsDraft task.now draft.old }
    requires first { row.now.first < task.now.ask.site.bounds.length }
    requires second { row.now.second < task.now.ask.site.bounds.length }
    requires place { 8 * (task.now.ask.site.first + task.now.ask.site.bounds.length) < 2 ^ 64 }
    requires items { Fits K.form row.now.level items.now }
    requires room { items.now.count ≤ 2 * most_at K.form.kind row.now.level }
    ensures draft { IsDraft task.now draft.new }
    ensures quiet { (n : ℕ) → HasCause is_devices n n result }
{
    let back = items.count / 2;
    let front = items.count - back;
    let piece = Piece {
        from: 0,
        count: front,
        stand: front_of(row),
    };
    let first = put_piece::<K>(task, draft, items, piece)?;
    let piece = Piece {
        from: front,
        count: back,
        stand: back_of(row),
    };
    let second = put_piece::<K>(task, draft, items, piece)?;
    Ok(Parts {
        first,
        second: Some(second),
    })
}

// A block with another left sibling.
fn with_left<K: RecKind>(task: &Task<K::Rec>, block: &Block, spot: Spot, left: u32) -> Block
    requires { 8 * (task.now.ask.site.first + spot.block) < 2 ^ 64 }
{
    let header = Header {
        level: spot.level,
        numrecs: count_of(block),
        left,
        right: right_of(block),
        lsn: task.lsn,
    };
    block_of(
        data_area(block),
        K::kind(),
        &header,
        &frame_of(task),
        spot.block,
    )
}

// The block at the right end of a row, if there is one, names this one as its left sibling.
fn relink<K: RecKind, B: Blocks>(
    blocks: &mut B,
    task: &Task<K::Rec>,
    draft: &mut Draft,
    row: &Row,
    left: u32,
) -> Result<(), EditFault>
    requires here { B.place blocks.old ≡ task.now.ask.site }
    requires draft { IsDraft task.now draft.old }
    ensures draft { IsDraft task.now draft.new }
    ensures reading { Reads B.Blocks blocks.old blocks.new }
    ensures cause { HasCause is_devices (B.faults blocks.old) (B.faults blocks.new) result }
{
    let right = row.right;
    if right == NO_BLOCK {
        return Ok(());
    }
    if right == 0 || right >= task.ask.site.bounds.length {
        return Err(EditFault::Bad {
            block: row.first,
            fault: BlockFault::Sibling,
        });
    }
    let spot = Spot {
        level: row.level,
        root: false,
        block: right,
    };
    let block = look::<K, B>(blocks, draft, &task.ask.site, spot)?;
    put(task, draft, right, with_left::<K>(task, &block, spot, left))?;
    Ok(())
}

// A block that has too many records or entries for one: a block of the free list comes behind it.
fn cut_in_two<K: RecKind, B: Blocks>(
    blocks: &mut B,
    task: &Task<K::Rec>,
    draft: &mut Draft,
    spot: Spot,
    items: &Items<K::Rec, K::Key>,
) -> Result<Parts<K::Key>, EditFault>
    requires inside { spot.block < task.now.ask.site.bounds.length }
    requires here { B.place blocks.old ≡ task.now.ask.site }
    requires draft { IsDraft task.now draft.old }
    requires items { Fits K.form spot.level items.now }
    requires room { items.now.count ≤ 2 * most_at K.form.kind spot.level }
    ensures draft { IsDraft task.now draft.new }
    ensures reading { Reads B.Blocks blocks.old blocks.new }
    ensures cause { HasCause is_devices (B.faults blocks.old) (B.faults blocks.new) result }
{
    let behind = take(task, draft)?;
    let row = Row {
        level: spot.level,
        left: left_of(&items.first),
        first: spot.block,
        second: behind,
        right: right_of(&items.first),
    };
    let parts = put_halves::<K>(task, draft, items, &row)?;
    relink::<K, B>(blocks, task, draft, &row, behind)?;
    Ok(parts)
}

// A block with its records or entries changed, cut in two where these are too many for one.
pub(crate) fn rewrite<K: RecKind, B: Blocks>(
    blocks: &mut B,
    task: &Task<K::Rec>,
    draft: &mut Draft,
    spot: Spot,
    items: &Items<K::Rec, K::Key>,
) -> Result<Parts<K::Key>, EditFault>
    requires inside { spot.block < task.now.ask.site.bounds.length }
    requires here { B.place blocks.old ≡ task.now.ask.site }
    requires draft { IsDraft task.now draft.old }
    requires items { Fits K.form spot.level items.now }
    requires room { items.now.count ≤ 2 * most_at K.form.kind spot.level }
    ensures draft { IsDraft task.now draft.new }
    ensures reading { Reads B.Blocks blocks.old blocks.new }
    ensures cause { HasCause is_devices (B.faults blocks.old) (B.faults blocks.new) result }
{
    if items.count > most::<K>(spot.level) {
        return cut_in_two::<K, B>(blocks, task, draft, spot, items);
    }
    let stand = Stand {
        at: spot.block,
        level: spot.level,
        left: left_of(&items.first),
        right: right_of(&items.first),
    };
    let piece = Piece {
        from: 0,
        count: items.count,
        stand,
    };
    let first = put_piece::<K>(task, draft, items, piece)?;
    Ok(Parts {
        first,
        second: None,
    })
}

// All records or entries of two neighbours in the first one; the second one is freed.
fn merge<K: RecKind, B: Blocks>(
    blocks: &mut B,
    task: &Task<K::Rec>,
    draft: &mut Draft,
    items: &Items<K::Rec, K::Key>,
    row: &Row,
) -> Result<Parts<K::Key>, EditFault>
    requires first { row.now.first < task.now.ask.site.bounds.length }
    requires here { B.place blocks.old ≡ task.now.ask.site }
    requires draft { IsDraft task.now draft.old }
    requires items { Fits K.form row.now.level items.now }
    requires room { items.now.count ≤ most_at K.form.kind row.now.level }
    ensures draft { IsDraft task.now draft.new }
    ensures reading { Reads B.Blocks blocks.old blocks.new }
    ensures cause { HasCause is_devices (B.faults blocks.old) (B.faults blocks.new) result }
{
    let stand = Stand {
        at: row.first,
        level: row.level,
        left: row.left,
        right: row.right,
    };
    let piece = Piece {
        from: 0,
        count: items.count,
        stand,
    };
    let first = put_piece::<K>(task, draft, items, piece)?;
    free(task, draft, row.second)?;
    relink::<K, B>(blocks, task, draft, row, row.first)?;
    Ok(Parts {
        first,
        second: None,
    })
}

// The records of two leaves, or the entries of two nodes, one behind the other.
#[tactic(auto, using(place_plan::proofs::SizeLemmas::most_small))]
fn both<K: RecKind>(a: &Block, b: &Block, level: u8) -> Items<K::Rec, K::Key>
    requires first { numrecs a.now.bytes ≤ most_at K.form.kind level }
    requires second { numrecs b.now.bytes ≤ most_at K.form.kind level }
    ensures fits { Fits K.form level result }
    ensures count { result.count ≤ 2 * most_at K.form.kind level }
{
    let change = if level == 0 {
        Change::Records(Cut {
            at: 0,
            gone: 0,
            first: None,
            second: None,
        })
    } else {
        Change::Entries(Cut {
            at: 0,
            gone: 0,
            first: None,
            second: None,
        })
    };
    Items {
        first: *a,
        second: *b,
        change,
        count: count_of(a) + count_of(b),
    }
}

// Two neighbours of a level, one of which may have too few: they have half of all each, or become
// one where there is room for all.
pub(crate) fn even<K: RecKind, B: Blocks>(
    blocks: &mut B,
    task: &Task<K::Rec>,
    draft: &mut Draft,
    first: Spot,
    second: Spot,
) -> Result<Parts<K::Key>, EditFault>
    requires first { first.block < task.now.ask.site.bounds.length }
    requires second { second.block < task.now.ask.site.bounds.length }
    requires level { second.level ≡ first.level }
    requires here { B.place blocks.old ≡ task.now.ask.site }
    requires draft { IsDraft task.now draft.old }
    ensures draft { IsDraft task.now draft.new }
    ensures reading { Reads B.Blocks blocks.old blocks.new }
    ensures cause { HasCause is_devices (B.faults blocks.old) (B.faults blocks.new) result }
{
    let a = look::<K, B>(blocks, draft, &task.ask.site, first)?;
    let b = look::<K, B>(blocks, draft, &task.ask.site, second)?;
    let items = both::<K>(&a, &b, first.level);
    let row = Row {
        level: first.level,
        left: left_of(&a),
        first: first.block,
        second: second.block,
        right: right_of(&b),
    };
    if items.count > most::<K>(first.level) {
        return put_halves::<K>(task, draft, &items, &row);
    }
    merge::<K, B>(blocks, task, draft, &items, &row)
}
