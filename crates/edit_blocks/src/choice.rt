ghost use Rattle.std.specs.Prelude.{◌≡◌, ◌+◌, ◌-◌, ◌≤◌, length, take, drop, ◌++◌, IfOk, OnOk};
ghost use Rattle.std.specs.Vec.{vec_capacity};
ghost use Rattle.ag_headers.specs.Ring.{entries};
ghost use Rattle.edit_blocks.specs.Choice.{need_of, chosen, for_list, for_limbo, IsSameList, HasRoomFor};

use ag_headers::Agfl;
use std::alloc::{AllocError, Global};

/// How many blocks a group's free list holds at most
/// (XFS Algorithms and Data Structures, "AG Free List").
pub const LIST_MOST: u32 = 119;

/// The blocks for an edited tree of so many: those that it has, group-relative and in their order,
/// and then those that it needs, the free list's first ones
/// (XFS Algorithms and Data Structures, "AG Free List").
pub fn choose(
    alloc: Global,
    blocks: &[u32],
    list: &Agfl,
    after: usize,
    need: u32,
) -> Result<Vec<u32>, AllocError>
    requires needed { need ≡ need_of (length blocks.now) after }
    requires enough { need ≤ length (entries list.now) }
    ensures { IfOk result (λ claimed. claimed.items ≡ chosen blocks.now (entries list.now) after) }
{
    let kept = after.min(blocks.len());
    let (first, _) = blocks.split_at(kept);
    let mut claimed = Vec::from_slice(alloc, first)?;
    // Its own blocks first, then the list's: so the blocks of a tree are known before anything is joined.
    for i in 0..need {
        claimed.push(list.entry(i))?;
    }
    Ok(claimed)
}

/// Takes so many of the free list's first blocks off it.
pub fn take_from(list: &mut Agfl, count: u32)
    requires enough { count ≤ length (entries list.old) }
    ensures rest { entries list.new ≡ drop count (entries list.old) }
    ensures same { IsSameList list.old list.new }
{
    for i in 0..count {
        let _ = list.take_first();
    }
}

// Puts these blocks behind the last one of the list, which has room for them.
fn put_all(list: &mut Agfl, blocks: &[u32])
    requires room { length (entries list.old) + length blocks.now ≤ LIST_MOST }
    ensures list { entries list.new ≡ entries list.old ++ blocks.now }
    ensures same { IsSameList list.old list.new }
{
    let mut rest = blocks;
    while let Some((block, later)) = rest.split_first() {
        list.put_last(*block);
        rest = later;
    }
}

// Puts these blocks into limbo, which has room for them.
fn push_all(limbo: &mut Vec<u32>, blocks: &[u32])
    requires room { HasRoomFor limbo.old blocks.now }
    ensures items { limbo.new.items ≡ limbo.old.items ++ blocks.now }
    ensures capacity { vec_capacity limbo.new ≡ vec_capacity limbo.old }
{
    let mut rest = blocks;
    while let Some((block, later)) = rest.split_first() {
        limbo.push_reserved(*block);
        rest = later;
    }
}

/// Makes room in `limbo` for those of the blocks that are left over for which the free list has none
/// once so many of its first blocks are taken off it. What limbo has stays; without memory it is
/// refused (XFS Algorithms and Data Structures, "AG Free List").
pub fn make_room(
    list: &Agfl,
    taken: u32,
    limbo: &mut Vec<u32>,
    freed: &[u32],
) -> Result<(), AllocError>
    requires enough { taken ≤ length (entries list.now) }
    ensures same { limbo.new.items ≡ limbo.old.items }
    ensures capacity { vec_capacity limbo.old ≤ vec_capacity limbo.new }
    ensures room { OnOk result (HasRoomFor limbo.new (for_limbo (drop taken (entries list.now)) freed.now)) }
{
    let room = (LIST_MOST - (list.len() - taken)) as usize;
    limbo.try_reserve(freed.len().saturating_sub(room))
}

/// Puts the blocks that are left over at the end of the free list, in their order, and into `limbo`,
/// which has room for them, those for which the list has none
/// (XFS Algorithms and Data Structures, "AG Free List").
pub fn give_back(list: &mut Agfl, limbo: &mut Vec<u32>, freed: &[u32])
    requires room { HasRoomFor limbo.old (for_limbo (entries list.old) freed.now) }
    ensures list { entries list.new ≡ entries list.old ++ for_list (entries list.old) freed.now }
    ensures limbo { limbo.new.items ≡ limbo.old.items ++ for_limbo (entries list.old) freed.now }
    ensures capacity { vec_capacity limbo.new ≡ vec_capacity limbo.old }
    ensures same { IsSameList list.old list.new }
    ensures most { length (entries list.old) ≤ LIST_MOST }
{
    let room = (LIST_MOST - list.len()) as usize;
    let (to_list, to_limbo) = freed.split_at(room.min(freed.len()));
    push_all(limbo, to_limbo);
    put_all(list, to_list);
}
