ghost use Rattle.std.specs.Prelude.{◌≡◌, ◌+◌, ◌*◌, ◌^◌, ◌<◌, ℕ, List, IfOk, IfErr, Some, None};
ghost use Rattle.sblock.specs.Blocks.{block_fault};
ghost use Rattle.tree_defs.specs.Tree.{want_of};
ghost use Rattle.tree_defs.specs.Claims.{lone_fault};
ghost use Rattle.tree_blocks.specs.Meets.{RefusesTold, IsNoMemory};
ghost use Rattle.tree_blocks.specs.Calls.{Reads};
ghost use Rattle.blk_device.specs.Causes.{HasCause};
ghost use Rattle.tree_blocks.specs.Reading.{is_failed};

use crate::blocks::Blocks;
use crate::tree::WalkFault;
use byte_fields::Block;
use sblock::{BlockFault, RecKind, Want, left_of, verify};
use tree_defs::Site;

/// What block `p` of the group is to be, where it is on this level, behind this left sibling.
pub fn want_at<K: RecKind>(site: &Site, level: u8, root: bool, left: u32, p: u32) -> Want
    requires fits { 8 * (site.now.first + p) < 2 ^ 64 }
    ensures { result ≡ want_of K.form.kind site.now level root left p }
{
    let uuid = site.uuid;
    let bounds = site.bounds;
    Want {
        kind: K::kind(),
        level,
        root,
        left,
        place: 8 * (site.first + u64::from(p)),
        group: site.group,
        bounds,
        uuid,
    }
}

/// The first test of the block by itself that fails.
pub fn own_fault<K: RecKind>(block: &Block, want: &Want) -> Option<BlockFault>
    requires { want.now.kind ≡ K.form.kind }
    ensures { result ≡ block_fault K.form block.now.bytes want.now }
{
    match verify::<K>(block, want) {
        Ok(_) => None,
        Err(fault) => Some(fault),
    }
}

/// The first test of block `p` that fails, whatever its left sibling is.
#[tactic(auto, unfolding(tree_defs::specs::Claims::lone_fault))]
pub fn lone_fault_of<K: RecKind>(
    block: &Block,
    site: &Site,
    level: u8,
    root: bool,
    p: u32,
) -> Option<BlockFault>
    requires fits { 8 * (site.now.first + p) < 2 ^ 64 }
    ensures { result ≡ lone_fault K.form site.now level root p block.now.bytes }
{
    let left = left_of(block);
    let want = want_at::<K>(site, level, root, left, p);
    own_fault::<K>(block, &want)
}

/// Reads block `p` of the group and tests it by itself, whatever its left sibling is; a block that
/// fails is told with the first test that it fails. It takes no memory.
pub fn open_block<K: RecKind, B: Blocks>(
    blocks: &mut B,
    site: &Site,
    level: u8,
    root: bool,
    p: u32,
) -> Result<Block, WalkFault>
    requires inside { p < site.now.bounds.length }
    requires here { B.place blocks.old ≡ site.now }
    ensures passes { IfOk result (λ block. lone_fault K.form site.now level root p block.bytes ≡ None) }
    ensures told { IfOk result (λ block. (m : ℕ → List ℕ) → B.told blocks.old ≡ Some m → block.bytes ≡ m p) }
    ensures refused { IfErr result (RefusesTold (B.told blocks.old) p (lone_fault K.form site.now level root p)) }
    ensures no_memory { IfErr result IsNoMemory }
    ensures reading { Reads B.Blocks blocks.old blocks.new }
    ensures cause { HasCause is_failed (B.faults blocks.old) (B.faults blocks.new) result }
    ensures one { B.count blocks.new ≡ B.count blocks.old + 1 }
{
    let block = blocks.load(p)?;
    if let Some(fault) = lone_fault_of::<K>(&block, site, level, root, p) {
        return Err(WalkFault::Bad { block: p, fault });
    }
    Ok(block)
}
