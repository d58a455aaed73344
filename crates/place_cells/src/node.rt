ghost use Rattle.std.specs.Prelude.{◌≡◌, ◌+◌, ◌*◌, ◌^◌, ◌<◌, ◌≤◌, ℕ, true, length};
ghost use Rattle.block_head.specs.Head.{IsHeaded};
ghost use Rattle.sblock.specs.Area.{area_of};
ghost use Rattle.sblock.specs.Blocks.{numrecs};
ghost use Rattle.sblock.specs.Kinds.{node_most_of};
ghost use Rattle.place_cells.specs.Cells.{from_at, item_at, StandsIn, header_at};
ghost use Rattle.place_cells.specs.Entries.{cell_both, cell_in, HasCell};
ghost use Rattle.place_cells.specs.declared.node.Cell.{Cell};

use crate::cut::{Cut, From, from_of};
use crate::leaf::{Stand, header_of};
use block_head::block_of;
use byte_fields::Block;
use sblock::{Frame, RecKind, Span, child_at, count_of, data_area, put_child};

/// An entry of a node: the keys of what is below its child, and that
/// (XFS Algorithms and Data Structures, "Short Format B+trees").
#[derive(Clone, Copy)]
pub struct Cell<Q> {
    pub span: Span<Q>,
    pub child: u32,
}

fn cell_at<K: RecKind>(block: &Block, i: usize) -> Cell<K::Key>
    requires { i < node_most_of K.form.kind }
    ensures { result ≡ cell_in K.form block.now.bytes i }
{
    let area = data_area(block);
    Cell {
        span: Span {
            low: K::key_at(area, i),
            high: K::high_key_at(area, i),
        },
        child: child_at(K::kind(), area, i),
    }
}

// Entry `i` of two nodes, one behind the other.
fn cell_of_both<K: RecKind>(a: &Block, b: &Block, i: usize) -> Cell<K::Key>
    requires first { numrecs a.now.bytes ≤ node_most_of K.form.kind }
    requires second { i < numrecs a.now.bytes + node_most_of K.form.kind }
    ensures { result ≡ cell_both K.form a.now.bytes b.now.bytes i }
{
    let many = count_of(a) as usize;
    if i < many {
        cell_at::<K>(a, i)
    } else {
        cell_at::<K>(b, i - many)
    }
}

// Entry `i` of the new list.
fn cell_of<K: RecKind>(a: &Block, b: &Block, cut: &Cut<Cell<K::Key>>, i: usize) -> Cell<K::Key>
    requires first { numrecs a.now.bytes ≤ node_most_of K.form.kind }
    requires small { i + cut.now.gone < 2 ^ 64 }
    requires fits { cut.now.at + 1 < 2 ^ 64 }
    requires inside { StandsIn (numrecs a.now.bytes + node_most_of K.form.kind) (from_at cut.now i) }
    ensures { result ≡ item_at (cell_both K.form a.now.bytes b.now.bytes) cut.now i }
{
    match from_of(cut, i) {
        From::New(cell) => cell,
        From::Old(j) => cell_of_both::<K>(a, b, j),
    }
}

// Writes entry `i` of a node.
fn put_cell<K: RecKind>(area: &mut [u8], i: usize, cell: &Cell<K::Key>)
    requires whole { length area.old ≡ 4040 }
    requires room { i < node_most_of K.form.kind }
    ensures whole { length area.new ≡ 4040 }
    ensures taken { HasCell K.form area.new i cell.now }
    ensures others { (j : ℕ) → j < node_most_of K.form.kind → (j ≡ i → ⊥) → (other : Cell K.Key) → HasCell K.form area.old j other → HasCell K.form area.new j other }
{
    K::put_keys(area, i, &cell.span.low, &cell.span.high);
    put_child(K::kind(), area, i, cell.child);
}

/// A node of `n` entries of the new list, from number `from` on; the keys are equal to theirs.
pub fn node_of<K: RecKind>(
    a: &Block,
    b: &Block,
    cut: &Cut<Cell<K::Key>>,
    from: usize,
    n: u16,
    stand: &Stand,
    frame: &Frame,
) -> Block
    requires first { numrecs a.now.bytes ≤ node_most_of K.form.kind }
    requires room { n ≤ node_most_of K.form.kind }
    requires small { from + n + cut.now.gone < 2 ^ 64 }
    requires fits { cut.now.at + 1 < 2 ^ 64 }
    requires inside { (i : ℕ) → from ≤ i → i < from + n → StandsIn (numrecs a.now.bytes + node_most_of K.form.kind) (from_at cut.now i) }
    requires place { 8 * (frame.now.first + stand.now.at) < 2 ^ 64 }
    ensures cells { (k : ℕ) → k < n → HasCell K.form (area_of result.bytes) k (item_at (cell_both K.form a.now.bytes b.now.bytes) cut.now (from + k)) }
    ensures head { IsHeaded K.form.kind (header_at stand.now n frame.now.lsn) frame.now stand.now.at result.bytes }
{
    let mut area = [0; 4040];
    for i in 0..n {
        let cell = cell_of::<K>(a, b, cut, from + i as usize);
        put_cell::<K>(&mut area, i as usize, &cell);
    }
    block_of(
        &area,
        K::kind(),
        &header_of(stand, n, frame.lsn),
        frame,
        stand.at,
    )
}
