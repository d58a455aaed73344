// New contents of a block: records or entries of one or two blocks with some put in and taken out.
ghost use Rattle.std.specs.Prelude.{◌≡◌, ◌+◌, ◌*◌, ◌^◌, ◌<◌, ◌≤◌};
ghost use Rattle.sblock.specs.Blocks.{numrecs};
ghost use Rattle.place_plan.specs.Counts.{most_at};
ghost use Rattle.place_apply.specs.Fitting.{Fits};

use byte_fields::Block;
use place_cells::{Cell, Cut, Stand, leaf_of, node_of};
use sblock::{Frame, RecKind};

// What is put into the records of a leaf, or into the entries of a node, and taken out.
#[derive(Clone, Copy)]
pub(crate) enum Change<R, Q> {
    Records(Cut<R>),
    Entries(Cut<Cell<Q>>),
}

// The records or entries of two blocks, one behind the other, once they are changed, and how many
// these are. Where they are of one block alone, both are that one.
#[derive(Clone, Copy)]
pub(crate) struct Items<R, Q> {
    pub first: Block,
    pub second: Block,
    pub change: Change<R, Q>,
    pub count: u16,
}

// So many of the changed records or entries from a number on, and where the block of them stands.
#[derive(Clone, Copy)]
pub(crate) struct Piece {
    pub from: u16,
    pub count: u16,
    pub stand: Stand,
}

// The block of a piece.
pub(crate) fn make_block<K: RecKind>(
    items: &Items<K::Rec, K::Key>,
    piece: &Piece,
    frame: &Frame,
) -> Block
    requires items { Fits K.form piece.now.stand.level items.now }
    requires within { piece.now.from + piece.now.count ≤ items.now.count }
    requires room { piece.now.count ≤ most_at K.form.kind piece.now.stand.level }
    requires place { 8 * (frame.now.first + piece.now.stand.at) < 2 ^ 64 }
    ensures count { numrecs result.bytes ≡ piece.now.count }
{
    let (a, b) = (&items.first, &items.second);
    let from = usize::from(piece.from);
    match &items.change {
        Change::Records(cut) => leaf_of::<K>(a, b, cut, from, piece.count, &piece.stand, frame),
        Change::Entries(cut) => node_of::<K>(a, b, cut, from, piece.count, &piece.stand, frame),
    }
}
