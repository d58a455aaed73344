ghost use Rattle.std.specs.Prelude.{◌≡◌, ◌<◌, true, IfSome};
ghost use Rattle.geom.specs.Layout.{Layout};
ghost use Rattle.geom.specs.Places.{layout, HasBlock};
ghost use Rattle.dinode_core.specs.ForkTree.{first_key, is_fork_block, is_right};
ghost use Rattle.fork_read.specs.Walk.{entry_of, is_task_sound};

use crate::seen::{Seen, is_beside_last, is_resumed_at};
use crate::tasks::Task;
use byte_fields::{Block, get_u16, get_u32, get_u64, is_summed, is_uuid_at};
use dinode_core::{Core3, mapping_at};
use geom::Geometry;

/// `bb_magic` of a long-form block of a fork's btree: "BMA3"
/// (XFS Algorithms and Data Structures, "Long Format B+trees").
pub const MAGIC: u32 = 0x424d_4133;

/// How many mappings, or keys and pointers, a block has room for.
pub const MOST_RECORDS: u16 = 251;

// The lowest offset of a block: that of its first mapping, or its first key.
fn first_key_of(block: &Block, level: u8) -> u64
    ensures { result ≡ first_key level block.now.bytes }
{
    if level == 0 {
        let (_, area) = block.bytes.split_at(72);
        return mapping_at(area, 0).offset;
    }
    get_u64(&block.bytes, 72)
}

fn is_magic_right(block: &Block) -> bool
    ensures { result ≡ is_fork_block block.now.bytes }
{
    get_u32(&block.bytes, 0) == MAGIC
}

// Whether a block passes its own tests, at block `b` of group `g`.
#[tactic(auto, unfolding(dinode_core::specs::ForkTree::is_right))]
fn is_right_at(block: &Block, geo: &Geometry, core: &Core3, task: &Task, g: u32, b: u32) -> bool
    requires { HasBlock geo.now g b }
    ensures { result ≡ is_right (layout geo.now) core.now task.now.level (entry_of task.now) (g, b) block.now.bytes }
{
    let bytes = &block.bytes;
    let count = get_u16(bytes, 6);
    is_magic_right(block)
        && 0 < b
        && get_u16(bytes, 4) == u16::from(task.level)
        && 1 <= count
        && count <= MOST_RECORDS
        && get_u64(bytes, 24) == geo.blkno(g, b)
        && get_u64(bytes, 56) == core.ino
        && is_uuid_at(bytes, 40, &geo.uuid)
        && is_summed(bytes, 64)
        && first_key_of(block, task.level) == task.key
}

/// Whether a block passes its tests in its place in the walk.
#[tactic(auto, unfolding(crate::specs::Walk::is_sound_from))]
pub fn is_sound_at(
    block: &Block,
    geo: &Geometry,
    core: &Core3,
    seen: &Seen,
    task: &Task,
    from: u64,
    place: (u32, u32),
) -> bool
    requires place { HasBlock geo.now place.0 place.1 }
    requires level { task.now.level < 9 }
    ensures { result ≡ is_task_sound (layout geo.now) core.now from task.now seen.now.lasts (place.0, place.1) block.now.bytes }
{
    is_right_at(block, geo, core, task, place.0, place.1)
        && (is_resumed_at(seen, task, from) || is_beside_last(seen, task, block))
}
