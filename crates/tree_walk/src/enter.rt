ghost use Rattle.std.specs.Prelude.{◌≡◌, List, ℕ, ◌+◌, ◌*◌, ◌^◌, ◌<◌, ◌==◌, IfErr, OnOk, Some, None};
ghost use Rattle.tree_defs.specs.Tree.{order_fault, fault_here, noted};
ghost use Rattle.tree_blocks.specs.Meets.{RefusesTold};
ghost use Rattle.tree_blocks.specs.Calls.{Reads};
ghost use Rattle.blk_device.specs.Causes.{HasCause};
ghost use Rattle.tree_blocks.specs.Reading.{is_failed};
ghost use Rattle.tree_walk.specs.Trails.{trail_of};

use crate::seen::{Seen, does_come_after, sibling_fault_of, sooner_of};
use byte_fields::Block;
use sblock::{BlockFault, RecKind, count_of, data_area, right_of};
use tree_blocks::{Blocks, WalkFault, own_fault, want_at};
use tree_defs::Site;

// Whether a leaf's first record doesn't come after the last one of the leaf read before.
#[tactic(auto, unfolding(tree_defs::specs::Tree::order_fault))]
fn order_fault_of<K: RecKind>(block: &Block, seen: &Seen<K::Rec>, level: u8) -> Option<BlockFault>
    ensures { result ≡ order_fault K.form (trail_of seen.now) level block.now.bytes }
{
    if level == 0 && count_of(block) >= 1 {
        let first = K::record_at(data_area(block), 0);
        if !does_come_after::<K>(seen.recs.as_slice(), &first) {
            return Some(BlockFault::Order);
        }
    }
    None
}

// The first test of the block, in its place in the tree, that fails.
#[tactic(auto, unfolding(tree_defs::specs::Tree::fault_here))]
fn fault_in_place<K: RecKind>(
    block: &Block,
    seen: &Seen<K::Rec>,
    site: &Site,
    level: u8,
    root: bool,
    p: u32,
) -> Option<BlockFault>
    requires low { level < 9 }
    requires fits { 8 * (site.now.first + p) < 2 ^ 64 }
    ensures { result ≡ fault_here K.form site.now (trail_of seen.now) level root p block.now.bytes }
{
    let left = seen.before[level as usize];
    let want = want_at::<K>(site, level, root, left, p);
    let own = own_fault::<K>(block, &want);
    let sibling = sibling_fault_of(seen, level, p);
    let order = order_fault_of::<K>(block, seen, level);
    sooner_of(own, sooner_of(sibling, order))
}

/// Reads block `p` of the group into one that is lent, and tests it in its place; it is then the last one
/// of its level. Where it is refused the bytes may be any.
#[tactic(auto, unfolding(tree_defs::specs::Tree::noted))]
pub fn enter<K: RecKind, B: Blocks>(
    blocks: &mut B,
    site: &Site,
    level: u8,
    root: bool,
    p: u32,
    seen: &mut Seen<K::Rec>,
    block: &mut Block,
) -> Result<(), WalkFault>
    requires low { level < 9 }
    requires inside { p < site.now.bounds.length }
    requires here { B.place blocks.old ≡ site.now }
    ensures passes { OnOk result (fault_here K.form site.now (trail_of seen.old) level root p block.new.bytes ≡ None) }
    ensures trail { OnOk result (trail_of seen.new ≡ noted (trail_of seen.old) level p block.new.bytes) }
    ensures told { OnOk result ((m : ℕ → List ℕ) → B.told blocks.old ≡ Some m → block.new.bytes ≡ m p) }
    ensures refused { IfErr result (RefusesTold (B.told blocks.old) p (fault_here K.form site.now (trail_of seen.old) level root p)) }
    ensures reading { Reads B.Blocks blocks.old blocks.new }
    ensures cause { HasCause is_failed (B.faults blocks.old) (B.faults blocks.new) result }
    ensures one { B.count blocks.new ≡ B.count blocks.old + 1 }
{
    blocks.load_into(p, block)?;
    if let Some(fault) = fault_in_place::<K>(block, seen, site, level, root, p) {
        return Err(WalkFault::Bad { block: p, fault });
    }
    seen.blocks.push(p)?;
    seen.before[level as usize] = p;
    seen.next[level as usize] = right_of(block);
    Ok(())
}
