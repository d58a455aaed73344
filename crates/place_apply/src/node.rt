// The entries of a node once blocks below it were made.
ghost use Rattle.std.specs.Prelude.{◌≡◌, ◌+◌, ◌≤◌, ℕ, IfOk};
ghost use Rattle.blk_device.specs.Causes.{HasCause};
ghost use Rattle.edit_terms.specs.Faults.{is_devices};
ghost use Rattle.sblock.specs.Blocks.{numrecs};
ghost use Rattle.sblock.specs.Kinds.{node_most_of};
ghost use Rattle.place_apply.specs.Fitting.{Fits};

use crate::items::{Change, Items};
use crate::task::{Part, Parts};
use byte_fields::Block;
use edit_terms::EditFault;
use place_cells::{Cell, Cut};
use sblock::{BlockFault, RecKind, count_of};

// The entries of a node from a place on that go, and what was made in their place.
#[derive(Clone, Copy)]
pub(crate) struct Turn<Q> {
    pub at: usize,
    pub gone: u16,
    pub parts: Parts<Q>,
}

// The entry of a block that was made; one without records has none.
fn cell_of<Q: Copy>(part: &Part<Q>) -> Result<Cell<Q>, EditFault>
    ensures { (n : ℕ) → HasCause is_devices n n result }
{
    match part.span {
        Some(span) => Ok(Cell {
            span,
            child: part.block,
        }),
        None => Err(EditFault::Bad {
            block: part.block,
            fault: BlockFault::Count,
        }),
    }
}

// The entry of the second block that was made, if there is one.
fn second_cell<Q: Copy>(parts: &Parts<Q>) -> Result<Option<Cell<Q>>, EditFault>
    ensures { (n : ℕ) → HasCause is_devices n n result }
{
    match &parts.second {
        Some(part) => Ok(Some(cell_of(part)?)),
        None => Ok(None),
    }
}

// The entries of a node with those of the made blocks in their place.
pub(crate) fn node_items<K: RecKind>(
    block: &Block,
    turn: &Turn<K::Key>,
) -> Result<Items<K::Rec, K::Key>, EditFault>
    requires room { numrecs block.now.bytes ≤ node_most_of K.form.kind }
    requires within { turn.now.at + turn.now.gone ≤ numrecs block.now.bytes }
    ensures fits { (level : ℕ) → 1 ≤ level → IfOk result (λ items. Fits K.form level items) }
    ensures count { IfOk result (λ items. items.count + turn.now.gone ≤ numrecs block.now.bytes + 2) }
    ensures quiet { (n : ℕ) → HasCause is_devices n n result }
{
    let first = cell_of(&turn.parts.first)?;
    let second = second_cell(&turn.parts)?;
    let more = 1 + u16::from(second.is_some());
    Ok(Items {
        first: *block,
        second: *block,
        change: Change::Entries(Cut {
            at: turn.at,
            gone: usize::from(turn.gone),
            first: Some(first),
            second,
        }),
        count: count_of(block) - turn.gone + more,
    })
}
