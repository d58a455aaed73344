ghost use Rattle.std.specs.Prelude.{◌≡◌, ◌-◌, ◌*◌, ◌+◌, ◌^◌, ◌<◌, ◌≤◌, ℕ, suc, length, true, All, min, slice_index, IfOk, OnOk, OnErr};
ghost use Rattle.sblock.specs.Blocks.{IsRising};
ghost use Rattle.sblock.specs.Headers.{no_block};
ghost use Rattle.sblock.specs.declared.kind.Kind.{Kind};
ghost use Rattle.bulk_load.specs.Loaded.{left_for, right_for, header_for, IsLaid, IsNumber, IsLoaded};
ghost use Rattle.bulk_load.specs.Shapes.{width, start, HasLevel, IsRow, IsShape};

use crate::areas::area_for;
use crate::header::block_of;
use crate::keys::number_of;
use crate::memory::Memory;
use crate::rows::{Row, Shape};
use byte_fields::{Block, Steps};
use sblock::{Frame, Header, Kind, RecKind};
use std::alloc::Global;
use std::sync::ledger::Ledger;

/// The blocks that one call puts in at most.
pub const PIECE: u64 = 64;

// A sibling that isn't there.
pub(crate) const NO_BLOCK: u32 = 0xffff_ffff;

// The block to the left of block `i` of this level.
fn left_of(row: &Row, claimed: &[u32], i: u64) -> u32
    requires { row.now.start + i ≤ length claimed.now }
    ensures { (kind : Kind) (n j : ℕ) → IsRow kind n j row.now → result ≡ left_for kind n claimed.now j i }
{
    if i == 0 {
        return NO_BLOCK;
    }
    claimed[(row.start + (i - 1)) as usize]
}

// The block to its right.
fn right_of(row: &Row, claimed: &[u32], i: u64) -> u32
    requires within { i < row.now.width }
    requires claimed { row.now.start + row.now.width ≤ length claimed.now }
    ensures { (kind : Kind) (n j : ℕ) → IsRow kind n j row.now → result ≡ right_for kind n claimed.now j i }
{
    if i + 1 == row.width {
        return NO_BLOCK;
    }
    claimed[(row.start + (i + 1)) as usize]
}

// The numbers of a block's header.
fn header_of(records: u64, kind: Kind, claimed: &[u32], level: u32, i: u64, lsn: u64) -> Header
    requires level { HasLevel kind records level }
    requires within { i < width kind records level }
    requires claimed { start kind records (suc level) ≤ length claimed.now }
    ensures { result ≡ header_for kind records claimed.now lsn level i }
{
    let row = Row::of_level(records, kind, level);
    Header {
        level: level as u8,
        numrecs: row.share(i) as u16,
        left: left_of(&row, claimed, i),
        right: right_of(&row, claimed, i),
        lsn,
    }
}

// The level of block number `k`.
fn level_with(records: u64, kind: Kind, levels: u32, k: u64) -> u32
    requires some { 1 ≤ levels }
    requires level { HasLevel kind records (levels - 1) }
    requires within { k < start kind records levels }
    ensures level { result < levels }
    ensures from { start kind records result ≤ k }
    ensures to { k < start kind records (suc result) }
{
    for level in 0..levels - 1 {
        let row = Row::of_level(records, kind, level);
        if k < row.start + row.width {
            return level;
        }
    }
    levels - 1
}

// Block number `k` of a tree of so many levels.
fn load_number<K: RecKind>(
    list: &[K::Rec],
    levels: u32,
    frame: &Frame,
    claimed: &[u32],
    k: u64,
) -> Block
    requires some { 1 ≤ levels }
    requires level { HasLevel K.form.kind (length list.now) (levels - 1) }
    requires claimed { length claimed.now ≡ start K.form.kind (length list.now) levels }
    requires within { k < length claimed.now }
    requires ends { All (λ r. K.form.has_end r ≡ true) list.now }
    requires place { 8 * (frame.now.first + slice_index claimed.now k) < 2 ^ 64 }
    ensures { IsNumber K.form list.now claimed.now frame.now k result.bytes }
{
    let records = number_of(list);
    let level = level_with(records, K::kind(), levels, k);
    let row = Row::of_level(records, K::kind(), level);
    let i = k - row.start;
    let header = header_of(records, K::kind(), claimed, level, i, frame.lsn);
    let area = area_for::<K>(list, claimed, level, i);
    block_of(&area, K::kind(), &header, frame, claimed[k as usize])
}

/// Puts in the blocks of the next 64 numbers from `from` on of a new tree of this list, or those that
/// are left, each with the claimed block that it is for, and answers the number of the next one. Blocks
/// are numbered from the leaves up and on each level from left to right: the root is the last one. The
/// records are in range. Where memory is short, `into` stays as it was. It costs two looks at each
/// record below a block for a node's keys, and takes memory for the new blocks alone
/// (XFS Online Fsck Design, "Bulk Loading of New Btree Blocks").
pub fn load_piece<K: RecKind, L: Ledger>(
    _alloc: Global,
    list: &[K::Rec],
    shape: &Shape,
    frame: &Frame,
    claimed: &[u32],
    from: u64,
    into: &mut Vec<(u32, Block)>,
    steps: &mut Steps<L>,
) -> Result<u64, Memory>
    requires rising { IsRising K.form list.now }
    requires ends { All (λ r. K.form.has_end r ≡ true) list.now }
    requires shaped { IsShape K.form.kind (length list.now) shape.now.levels shape.now.blocks }
    requires claimed { length claimed.now ≡ shape.now.blocks }
    requires places { (k : ℕ) → k < length claimed.now → 8 * (frame.now.first + slice_index claimed.now k) < 2 ^ 64 }
    requires begins { from < shape.now.blocks }
    ensures next { IfOk result (λ next. next ≡ from + min (shape.now.blocks - from) 64) }
    ensures loaded { IfOk result (λ next.
        IsLoaded K.form list.now claimed.now frame.now from next into.old.items into.new.items) }
    ensures written { IfOk result (λ next. steps.new ≡ record steps.old { writes = steps.old.writes + (next - from) }) }
    ensures kept { OnErr result (into.new.items ≡ into.old.items) }
    ensures unwritten { OnErr result (steps.new ≡ steps.old) }
{
    let count = (shape.blocks - from).min(PIECE);
    into.try_reserve(count as usize)?;
    for k in 0..count {
        let number = from + k;
        let block = load_number::<K>(list, shape.levels, frame, claimed, number);
        into.push_reserved((claimed[number as usize], block));
        steps.block_written();
    }
    Ok(from + count)
}
