ghost use Rattle.std.specs.Prelude.{◌≡◌, ◌+◌, ◌*◌, ◌^◌, ◌<◌, ◌≤◌, ℕ, true, length};
ghost use Rattle.block_head.specs.Head.{IsHeaded};
ghost use Rattle.sblock.specs.Blocks.{numrecs, records_of};
ghost use Rattle.sblock.specs.Kinds.{leaf_most_of};
ghost use Rattle.sblock.specs.Lists.{items_from};
ghost use Rattle.place_cells.specs.Cells.{from_at, item_at, record_both, StandsIn, header_at};

use crate::cut::{Cut, From, from_of};
use block_head::block_of;
use byte_fields::Block;
use sblock::{Frame, Header, RecKind, count_of, data_area};

/// Where a block stands in its group, on which level, and between which neighbours.
#[derive(Clone, Copy)]
pub struct Stand {
    pub at: u32,
    pub level: u8,
    pub left: u32,
    pub right: u32,
}

pub(crate) fn header_of(stand: &Stand, count: u16, lsn: u64) -> Header
    ensures { result ≡ header_at stand.now count lsn }
{
    Header {
        level: stand.level,
        numrecs: count,
        left: stand.left,
        right: stand.right,
        lsn,
    }
}

// Record `i` of two leaves, one behind the other.
fn record_of_both<K: RecKind>(a: &Block, b: &Block, i: usize) -> K::Rec
    requires first { numrecs a.now.bytes ≤ leaf_most_of K.form.kind }
    requires second { i < numrecs a.now.bytes + leaf_most_of K.form.kind }
    ensures { result ≡ record_both K.form a.now.bytes b.now.bytes i }
{
    let many = count_of(a) as usize;
    if i < many {
        K::record_at(data_area(a), i)
    } else {
        K::record_at(data_area(b), i - many)
    }
}

// Record `i` of the new list.
fn record_of<K: RecKind>(a: &Block, b: &Block, cut: &Cut<K::Rec>, i: usize) -> K::Rec
    requires first { numrecs a.now.bytes ≤ leaf_most_of K.form.kind }
    requires small { i + cut.now.gone < 2 ^ 64 }
    requires fits { cut.now.at + 1 < 2 ^ 64 }
    requires inside { StandsIn (numrecs a.now.bytes + leaf_most_of K.form.kind) (from_at cut.now i) }
    ensures { result ≡ item_at (record_both K.form a.now.bytes b.now.bytes) cut.now i }
{
    match from_of(cut, i) {
        From::New(rec) => rec,
        From::Old(j) => record_of_both::<K>(a, b, j),
    }
}

/// A leaf of `n` records of the new list, from number `from` on.
pub fn leaf_of<K: RecKind>(
    a: &Block,
    b: &Block,
    cut: &Cut<K::Rec>,
    from: usize,
    n: u16,
    stand: &Stand,
    frame: &Frame,
) -> Block
    requires first { numrecs a.now.bytes ≤ leaf_most_of K.form.kind }
    requires room { n ≤ leaf_most_of K.form.kind }
    requires small { from + n + cut.now.gone < 2 ^ 64 }
    requires fits { cut.now.at + 1 < 2 ^ 64 }
    requires inside { (i : ℕ) → from ≤ i → i < from + n → StandsIn (numrecs a.now.bytes + leaf_most_of K.form.kind) (from_at cut.now i) }
    requires place { 8 * (frame.now.first + stand.now.at) < 2 ^ 64 }
    ensures records { ((i : ℕ) → from ≤ i → i < from + n → K.form.is_written (item_at (record_both K.form a.now.bytes b.now.bytes) cut.now i) ≡ true) → records_of K.form result.bytes ≡ items_from (item_at (record_both K.form a.now.bytes b.now.bytes) cut.now) n from }
    ensures head { IsHeaded K.form.kind (header_at stand.now n frame.now.lsn) frame.now stand.now.at result.bytes }
{
    let mut area = [0; 4040];
    for i in 0..n {
        let rec = record_of::<K>(a, b, cut, from + i as usize);
        K::put_record(&mut area, i as usize, &rec);
    }
    block_of(
        &area,
        K::kind(),
        &header_of(stand, n, frame.lsn),
        frame,
        stand.at,
    )
}
