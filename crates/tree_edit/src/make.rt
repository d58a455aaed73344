// The blocks of an edited tree, made before anything is changed.
ghost use Rattle.std.specs.Prelude.{◌≡◌, ◌+◌, ◌*◌, ◌^◌, ◌<◌, ◌≤◌, ◌++◌, IfOk, IfErr, OnOk, length};
ghost use Rattle.ag_headers.specs.Ring.{entries};
ghost use Rattle.bulk_load.specs.Shapes.{IsShape};
ghost use Rattle.sblock.specs.Blocks.{IsRising, AllInside};
ghost use Rattle.edit_blocks.specs.Choice.{freed};
ghost use Rattle.tree_edit.specs.Anew.{root_of, IsMade};
ghost use Rattle.tree_edit.specs.Device.{OnlyWrites};
ghost use Rattle.tree_edit.specs.Making.{IsReady, RefusesLaying, RefusesMaking, CountsLaying, laid_as};

use crate::fault::EditFault;
use crate::plan::plan_blocks;
use ag_headers::Agfl;
use bulk_load::shape;
use byte_fields::{Block, Steps};
use load_trees::{Unfit, load_tree};
use sblock::{BlockFault, RecKind};
use std::alloc::{AllocError, Global};
use std::sync::ledger::Ledger;
use tree_blocks::TreeAt;
use tree_defs::Site;

// An edited tree's blocks with what goes into them, those that it leaves, all of them, its root and
// levels, and how many blocks it takes from the list.
#[derive(Drop)]
pub(crate) struct Made {
    pub placed: Vec<(u32, Block)>,
    pub left: Vec<u32>,
    pub touched: Vec<u32>,
    pub root: u32,
    pub levels: u32,
    pub need: u32,
}

// What isn't want of memory is told as a bad root.
fn laying_fault(unfit: Unfit, root: u32) -> EditFault
    ensures { result ≡ laid_as root unfit }
{
    match unfit {
        Unfit::Memory => EditFault::Memory,
        Unfit::Order | Unfit::Range | Unfit::Blocks => EditFault::Bad {
            block: root,
            fault: BlockFault::Sibling,
        },
    }
}

// The blocks of a tree of these records. A block that stands twice among the tree's and the list's, or
// that is no tree's, is told as a bad root.
fn lay<K: RecKind, L: Ledger>(
    alloc: Global,
    recs: &[K::Rec],
    site: &Site,
    tree: &TreeAt,
    claimed: &[u32],
    levels: u32,
    steps: &mut Steps<L>,
) -> Result<Vec<(u32, Block)>, EditFault>
    requires fits { 8 * (site.now.first + site.now.bounds.length) < 2 ^ 64 }
    requires shape { IsShape K.form.kind (length recs.now) levels (length claimed.now) }
    requires rising { IsRising K.form recs.now }
    requires inside { AllInside K.form site.now.bounds recs.now }
    ensures made { IfOk result (λ placed. IsMade K.form site.now tree.now.lsn levels recs.now claimed.now placed.items) }
    ensures counted { OnOk result (steps.new ≡ record steps.old { writes = steps.old.writes + length claimed.now }) }
    ensures steps { OnlyWrites steps.old steps.new }
    ensures refused { IfErr result (RefusesLaying site.now.bounds.length claimed.now) }
    ensures unlaid { IfErr result (CountsLaying K.form.kind (length recs.now) steps.old steps.new) }
{
    let laid = load_tree::<K, L>(alloc, recs, site, tree.lsn, claimed, steps);
    laid.map_err(|unfit| laying_fault(unfit, tree.root))
}

// The tree's blocks behind the first so many.
fn left_over(alloc: Global, blocks: &[u32], kept: usize) -> Result<Vec<u32>, AllocError>
    ensures { IfOk result (λ left. left.items ≡ freed blocks.now kept) }
{
    let (_, rest) = blocks.split_at(kept.min(blocks.len()));
    Vec::from_slice(alloc, rest)
}

// Both lists, one behind the other.
fn joined(alloc: Global, first: &[u32], rest: &[u32]) -> Result<Vec<u32>, AllocError>
    ensures { IfOk result (λ both. both.items ≡ first.now ++ rest.now) }
{
    let mut both = Vec::from_slice(alloc, first)?;
    both.extend_from_slice(rest)?;
    Ok(both)
}

// The last of some blocks.
fn last_of(blocks: &[u32]) -> u32
    requires { 1 ≤ length blocks.now }
    ensures { result ≡ root_of blocks.now }
{
    blocks[blocks.len() - 1]
}

// All that an edited tree of these records needs, made from the tree's blocks and the list's.
pub(crate) fn make<K: RecKind, L: Ledger>(
    alloc: Global,
    recs: &[K::Rec],
    before: &[u32],
    site: &Site,
    tree: &TreeAt,
    list: &Agfl,
    steps: &mut Steps<L>,
) -> Result<Made, EditFault>
    requires fits { 8 * (site.now.first + site.now.bounds.length) < 2 ^ 64 }
    requires rising { IsRising K.form recs.now }
    requires inside { AllInside K.form site.now.bounds recs.now }
    ensures ready { IfOk result (IsReady K.form site.now tree.now.lsn recs.now before.now (entries list.now)) }
    ensures counted { IfOk result (λ made. steps.new ≡ record steps.old { writes = steps.old.writes + length made.placed.items }) }
    ensures steps { OnlyWrites steps.old steps.new }
    ensures refused { IfErr result (RefusesMaking K.form site.now.bounds.length (length recs.now) before.now (entries list.now)) }
    ensures unlaid { IfErr result (CountsLaying K.form.kind (length recs.now) steps.old steps.new) }
{
    let form = shape(recs.len() as u64, K::kind());
    let plan = plan_blocks(alloc, before, list, &form)?;
    let placed = lay::<K, L>(alloc, recs, site, tree, &plan.claimed, form.levels, steps)?;
    let left = left_over(alloc, before, plan.claimed.len())?;
    let touched = joined(alloc, &plan.claimed, &left)?;
    Ok(Made {
        placed,
        root: last_of(&plan.claimed),
        left,
        touched,
        levels: form.levels,
        need: plan.need,
    })
}
