ghost use Rattle.std.specs.Prelude.{◌≡◌, ◌<◌, ◌≤◌, ◌+◌, ◌++◌, ◌==◌, ℕ, [], ◌∷◌, length, map, if◌then◌else◌, IfErr, OnOk};
ghost use Rattle.dinode_core.specs.ForkTree.{is_beside, leaf_mappings, numrecs, ends, start, with_mappings};
ghost use Rattle.fork_read.specs.Answers.{given_of};
ghost use Rattle.fork_read.specs.Walk.{block_of, blocks_given, entry_of, last_or, is_resumed, last_in, passed_from, skipped_to, trail_of};

use crate::fault::ReadFault;
use crate::tasks::Task;
use byte_fields::{Block, get_u16, get_u64};
use dinode_core::{Mapping, mapping_at};
use std::alloc::Global;

/// What a sibling is where there is none (XFS Algorithms and Data Structures, "Long Format B+trees").
pub const NOBODY: u64 = u64::MAX;

/// The block that was read last on a level, and the right sibling that it names, if one was read.
#[derive(Clone, Copy, Drop)]
pub struct LastRead {
    pub known: bool,
    pub block: u64,
    pub right: u64,
}

/// A block of the btree, and how many mappings were read before it.
#[derive(Clone, Copy, Drop)]
pub struct BlockRead {
    pub block: u64,
    pub before: usize,
}

/// What a walk has read so far.
#[derive(Drop)]
pub struct Seen {
    pub lasts: [LastRead; 9],
    pub mappings: Vec<Mapping>,
    pub blocks: Vec<BlockRead>,
}

/// Nothing is read yet.
pub fn fresh_seen(alloc: Global) -> Seen
    ensures { trail_of result ≡ start }
{
    let unread = LastRead {
        known: false,
        block: 0,
        right: 0,
    };
    Seen {
        lasts: [unread; 9],
        mappings: Vec::new(alloc),
        blocks: Vec::new(alloc),
    }
}

/// Whether the block's left sibling was read by an earlier piece.
pub fn is_resumed_at(seen: &Seen, task: &Task, from: u64) -> bool
    requires { task.now.level < 9 }
    ensures { result ≡ is_resumed from (last_in seen.now.lasts task.now.level) task.now.key }
{
    let last = seen.lasts[task.level as usize];
    !last.known && task.key < from
}

/// Whether the block's siblings are the ones that the walk has met.
#[tactic(auto, unfolding(dinode_core::specs::ForkTree::is_beside))]
pub fn is_beside_last(seen: &Seen, task: &Task, block: &Block) -> bool
    requires { task.now.level < 9 }
    ensures { result ≡ is_beside (last_in seen.now.lasts task.now.level) (entry_of task.now) block.now.bytes }
{
    let last = seen.lasts[task.level as usize];
    let left = get_u64(&block.bytes, 8);
    if last.known {
        left == last.block && last.right == task.block
    } else {
        left == NOBODY
    }
}

/// The offset up to which subtrees of a block are passed by: of each block but those that an earlier piece
/// has read, none is.
pub fn skipped_at(seen: &Seen, task: &Task, from: u64) -> u64
    requires { task.now.level < 9 }
    ensures { result ≡ skipped_to from (last_in seen.now.lasts task.now.level) task.now.key }
{
    if is_resumed_at(seen, task, from) {
        from
    } else {
        0
    }
}

// Gives a block of the btree, where no earlier piece has read it.
fn give_block(seen: &mut Seen, task: &Task, from: u64) -> Result<(), ReadFault>
    requires { task.now.level < 9 }
    ensures blocks { OnOk result (map block_of seen.new.blocks.items ≡ blocks_given from task.now seen.old) }
    ensures mappings { seen.new.mappings.items ≡ seen.old.mappings.items }
    ensures lasts { seen.new.lasts ≡ seen.old.lasts }
    ensures memory { IfErr result (λ error. error ≡ ReadFault.Memory) }
{
    let resumed = is_resumed_at(seen, task, from);
    if resumed {
        return Ok(());
    }
    let read = BlockRead {
        block: task.block,
        before: seen.mappings.len(),
    };
    seen.blocks.push(read)?;
    Ok(())
}

// Keeps what was read last on a level.
fn set_last(lasts: &mut [LastRead], level: u8, read: LastRead)
    requires { level < length lasts.old }
    ensures { (l : ℕ) → last_in lasts.new l ≡ (if l == level then last_or read else last_in lasts.old l) }
{
    lasts[level as usize] = read;
}

/// Takes a block of the btree in.
pub fn note_block(seen: &mut Seen, task: &Task, from: u64, block: &Block) -> Result<(), ReadFault>
    requires { task.now.level < 9 }
    ensures trail { OnOk result (trail_of seen.new ≡ passed_from from task.now.level (entry_of task.now) block.now.bytes (trail_of seen.old)) }
    ensures mappings { seen.new.mappings.items ≡ seen.old.mappings.items }
    ensures memory { IfErr result (λ error. error ≡ ReadFault.Memory) }
{
    give_block(seen, task, from)?;
    let read = LastRead {
        known: true,
        block: task.block,
        right: get_u64(&block.bytes, 16),
    };
    set_last(&mut seen.lasts, task.level, read);
    Ok(())
}

/// Takes the mappings of a leaf in.
pub fn take_leaf(seen: &mut Seen, block: &Block) -> Result<(), ReadFault>
    requires { numrecs block.now.bytes ≤ 251 }
    ensures trail { OnOk result (trail_of seen.new ≡ with_mappings (leaf_mappings block.now.bytes) (trail_of seen.old)) }
    ensures few { OnOk result ((from : ℕ) → given_of from seen.new.mappings.items ≤ given_of from seen.old.mappings.items + 251) }
    ensures memory { IfErr result (λ error. error ≡ ReadFault.Memory) }
{
    let (_, area) = block.bytes.split_at(72);
    let mut rest = area;
    let mut left = get_u16(&block.bytes, 6);
    while left > 0 {
        seen.mappings.push(mapping_at(rest, 0))?;
        let (_, tail) = rest.split_at(16);
        rest = tail;
        left -= 1;
    }
    Ok(())
}
