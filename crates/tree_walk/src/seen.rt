ghost use Rattle.std.specs.Prelude.{◌≡◌, ◌-◌, ◌<◌, ◌≤◌, length, slice_get};
ghost use Rattle.tree_defs.specs.Tree.{turn_of, sooner, comes_after, sibling_fault, open_end, fresh};
ghost use Rattle.tree_walk.specs.Trails.{trail_of};

use sblock::{BlockFault, RecKind};
use std::alloc::Global;

/// What a sibling is where there is none.
pub const NO_BLOCK: u32 = 0xffff_ffff;

/// What a walk has read so far; on each level, the block that was read last and its right sibling.
#[derive(Drop)]
pub struct Seen<R> {
    pub before: [u32; 9],
    pub next: [u32; 9],
    pub recs: Vec<R>,
    pub blocks: Vec<u32>,
}

/// Nothing is read yet.
pub fn fresh_seen<R>(alloc: Global) -> Seen<R>
    ensures { trail_of result ≡ fresh {R = R} }
{
    Seen {
        before: [NO_BLOCK; 9],
        next: [NO_BLOCK; 9],
        recs: Vec::new(alloc),
        blocks: Vec::new(alloc),
    }
}

// Where the test that failed stands in the order of tests.
fn turn(fault: BlockFault) -> u8
    ensures { result ≡ turn_of fault }
{
    match fault {
        BlockFault::Magic => 1,
        BlockFault::Level => 2,
        BlockFault::Count => 3,
        BlockFault::Sibling => 4,
        BlockFault::Place => 5,
        BlockFault::Owner => 6,
        BlockFault::Uuid => 7,
        BlockFault::Checksum => 8,
        BlockFault::Order => 9,
        BlockFault::Key => 10,
        BlockFault::Range => 11,
        BlockFault::Later => 12,
    }
}

fn sooner_of_two(a: BlockFault, b: BlockFault) -> Option<BlockFault>
    ensures { result ≡ sooner (Some a) (Some b) }
{
    if turn(b) < turn(a) { Some(b) } else { Some(a) }
}

/// The fault whose test comes first.
pub fn sooner_of(a: Option<BlockFault>, b: Option<BlockFault>) -> Option<BlockFault>
    ensures { result ≡ sooner a b }
{
    match (a, b) {
        (None, b) => b,
        (Some(a), None) => Some(a),
        (Some(a), Some(b)) => sooner_of_two(a, b),
    }
}

/// Whether the record comes after the last of these.
pub fn does_come_after<K: RecKind>(recs: &[K::Rec], rec: &K::Rec) -> bool
    ensures { result ≡ comes_after K.form (slice_get recs.now (length recs.now - 1)) rec.now }
{
    match recs.last() {
        None => true,
        Some(last) => K::is_before(&K::key_of(last), &K::key_of(rec)),
    }
}

/// Whether the block read before on this level doesn't name this one as its right sibling.
#[tactic(auto, unfolding(tree_defs::specs::Tree::sibling_fault))]
pub fn sibling_fault_of<R>(seen: &Seen<R>, level: u8, p: u32) -> Option<BlockFault>
    requires { level < 9 }
    ensures { result ≡ sibling_fault (trail_of seen.now) level p }
{
    let at = level as usize;
    if seen.before[at] == NO_BLOCK || seen.next[at] == p {
        None
    } else {
        Some(BlockFault::Sibling)
    }
}

/// The last block of the lowest level where it has a right sibling.
pub fn open_end_of<R>(seen: &Seen<R>, levels: u32) -> Option<u32>
    requires { levels ≤ 9 }
    ensures { result ≡ open_end (trail_of seen.now) 0 levels }
{
    for level in 0..levels {
        let at = level as usize;
        if seen.next[at] != NO_BLOCK {
            return Some(seen.before[at]);
        }
    }
    None
}
