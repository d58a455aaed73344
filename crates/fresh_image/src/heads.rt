// Block 0 of a group.
ghost use Rattle.std.specs.Prelude.{◌≡◌, ◌≤◌, ◌==◌, if◌then◌else◌};
ghost use Rattle.fresh_image.specs.Fresh.{fresh_agf, fresh_agi, empty_list as empty_ring, fresh_list, fresh_heads, free_blocks as free_of, longest_run as longest_of};

use crate::superblock::{UUID, put_superblock};
use ag_headers::{Agf, Agfl, Agi};
use byte_fields::Block;

// All ones, for no inode.
const NO_INODE: u32 = 0xffff_ffff;

// The first block of the free list, and the one behind its last.
const LIST: u32 = 7;

const LIST_END: u32 = 19;

fn free_blocks(len: u32, g: u32) -> u32
    requires { 64 ≤ len }
    ensures { result ≡ free_of len g }
{
    if g == 0 { len - 27 } else { len - 19 }
}

fn longest_run(len: u32, g: u32) -> u32
    requires { 64 ≤ len }
    ensures { result ≡ longest_of len g }
{
    if g == 0 { len - 32 } else { len - 19 }
}

#[tactic(auto, unfolding(crate::specs::Fresh::fresh_agf))]
fn agf_of(len: u32, g: u32) -> Agf
    requires { 64 ≤ len }
    ensures { result ≡ fresh_agf len g }
{
    Agf {
        seqno: g,
        length: len,
        bno_root: 1,
        cnt_root: 2,
        rmap_root: 5,
        bno_level: 1,
        cnt_level: 1,
        rmap_level: 1,
        flfirst: 0,
        fllast: 11,
        flcount: 12,
        freeblks: free_blocks(len, g),
        longest: longest_run(len, g),
        btreeblks: 0,
        uuid: UUID,
        rmap_blocks: 1,
        refcount_blocks: 1,
        refcount_root: 6,
        refcount_level: 1,
        lsn: 0,
    }
}

// The number for group 0, or the one for the others.
fn first_or(g: u32, first: u32, others: u32) -> u32
    ensures { result ≡ (if g == 0 then first else others) }
{
    if g == 0 { first } else { others }
}

#[tactic(auto, unfolding(crate::specs::Fresh::fresh_agi))]
fn agi_of(len: u32, g: u32) -> Agi
    ensures { result ≡ fresh_agi len g }
{
    Agi {
        seqno: g,
        length: len,
        count: first_or(g, 64, 0),
        root: 3,
        level: 1,
        freecount: first_or(g, 61, 0),
        newino: first_or(g, 192, NO_INODE),
        dirino: NO_INODE,
        unlinked: [NO_INODE; 64],
        uuid: UUID,
        lsn: 0,
        free_root: 4,
        free_level: 1,
        iblocks: 1,
        fblocks: 1,
    }
}

#[tactic(auto, unfolding(crate::specs::Fresh::empty_list))]
fn empty_list(g: u32) -> Agfl
    ensures { result ≡ empty_ring g }
{
    Agfl {
        seqno: g,
        uuid: UUID,
        lsn: 0,
        numbers: [0; 119],
        first: 0,
        last: 118,
        count: 0,
    }
}

// The free list with its blocks.
#[tactic(auto, unfolding(crate::specs::Fresh::fresh_list))]
fn list_of(g: u32) -> Agfl
    ensures { result ≡ fresh_list g }
{
    let mut list = empty_list(g);
    for block in LIST..LIST_END {
        list.put_last(block);
    }
    list
}

/// Block 0 of group `g`: a copy of the superblock, and the three heads.
#[tactic(auto, unfolding(crate::specs::Fresh::fresh_heads))]
pub fn heads(n: u32, len: u32, g: u32) -> Block
    requires { 64 ≤ len }
    ensures { result.bytes ≡ fresh_heads n len g }
{
    let mut block = Block::zeroed();
    put_superblock(&mut block.bytes, n, len);
    agf_of(len, g).encode(&mut block);
    agi_of(len, g).encode(&mut block);
    list_of(g).encode(&mut block);
    block
}
