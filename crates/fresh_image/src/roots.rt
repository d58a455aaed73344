// The roots of a group's six trees, each of them one leaf.
ghost use Rattle.std.specs.Prelude.{◌≡◌, ◌+◌, ◌*◌, ◌^◌, ◌<◌, ◌≤◌, [], ◌==◌, if◌then◌else◌, length};
ghost use Rattle.sblock.specs.Kinds.{leaf_most_of};
ghost use Rattle.bulk_load.specs.Leaf.{leaf_bytes};
ghost use Rattle.ino_recs.specs.Chunks.{ino_form, fino_form};
ghost use Rattle.rmap_recs.specs.Rmap.{rmap_form};
ghost use Rattle.span_recs.specs.Refcounts.{refc_form};
ghost use Rattle.span_recs.specs.Spans.{bno_form, cnt_form};
ghost use Rattle.fresh_image.specs.Fresh.{free_runs, chunks, owned, fresh_frame, fresh_root, held as held_of};

use crate::superblock::UUID;
use bulk_load::lone_leaf;
use byte_fields::Block;
use ino_recs::{FinoKind, InoKind, InoRec};
use rmap_recs::{Owner, RmapKind, RmapRec};
use sblock::{Frame, RecKind};
use span_recs::{BnoKind, CntKind, RefcKind, SpanRec};

// The chunk of group 0.
const CHUNK: InoRec = InoRec {
    startino: 192,
    holemask: 0,
    count: 64,
    freecount: 61,
    free: 0xffff_ffff_ffff_fff8,
};

const fn run(start: u32, count: u32) -> SpanRec
    ensures { result ≡ record { start = start; count = count } }
{
    SpanRec { start, count }
}

// The tree of these records in block `at` of group `g`.
fn leaf<K: RecKind>(list: &[K::Rec], len: u32, g: u32, at: u32) -> Block
    requires room { length list.now ≤ leaf_most_of K.form.kind }
    requires group { g < 65536 }
    requires long { len ≤ 2 ^ 28 }
    ensures { result.bytes ≡ leaf_bytes K.form list.now (fresh_frame len g) at }
{
    let frame = Frame {
        group: g,
        first: u64::from(g) * u64::from(len),
        uuid: UUID,
        lsn: 0,
    };
    lone_leaf::<K>(list, &frame, at)
}

fn bno_leaf(len: u32, g: u32) -> Block
    requires group { g < 65536 }
    requires long { (64 ≤ len) × (len ≤ 2 ^ 28) }
    ensures { result.bytes ≡ leaf_bytes bno_form (free_runs len g) (fresh_frame len g) 1 }
{
    if g == 0 {
        return leaf::<BnoKind>(&[run(19, 5), run(32, len - 32)], len, g, 1);
    }
    leaf::<BnoKind>(&[run(19, len - 19)], len, g, 1)
}

fn cnt_leaf(len: u32, g: u32) -> Block
    requires group { g < 65536 }
    requires long { (64 ≤ len) × (len ≤ 2 ^ 28) }
    ensures { result.bytes ≡ leaf_bytes cnt_form (free_runs len g) (fresh_frame len g) 2 }
{
    if g == 0 {
        return leaf::<CntKind>(&[run(19, 5), run(32, len - 32)], len, g, 2);
    }
    leaf::<CntKind>(&[run(19, len - 19)], len, g, 2)
}

fn ino_leaf(len: u32, g: u32) -> Block
    requires group { g < 65536 }
    requires long { len ≤ 2 ^ 28 }
    ensures { result.bytes ≡ leaf_bytes ino_form (chunks g) (fresh_frame len g) 3 }
{
    if g == 0 {
        return leaf::<InoKind>(&[CHUNK], len, g, 3);
    }
    leaf::<InoKind>(&[], len, g, 3)
}

fn fino_leaf(len: u32, g: u32) -> Block
    requires group { g < 65536 }
    requires long { len ≤ 2 ^ 28 }
    ensures { result.bytes ≡ leaf_bytes fino_form (chunks g) (fresh_frame len g) 4 }
{
    if g == 0 {
        return leaf::<FinoKind>(&[CHUNK], len, g, 4);
    }
    leaf::<FinoKind>(&[], len, g, 4)
}

fn held(start: u32, count: u32, owner: Owner) -> RmapRec
    ensures { result ≡ held_of start count owner }
{
    RmapRec {
        start,
        count,
        owner: owner.number(),
        word: 0,
    }
}

fn rmap_leaf(len: u32, g: u32) -> Block
    requires group { g < 65536 }
    requires long { len ≤ 2 ^ 28 }
    ensures { result.bytes ≡ leaf_bytes rmap_form (owned g) (fresh_frame len g) 5 }
{
    let heads = held(0, 1, Owner::Fs);
    let free_space = held(1, 2, Owner::Ag);
    let inode_trees = held(3, 2, Owner::Inobt);
    let owners = held(5, 1, Owner::Ag);
    let counts = held(6, 1, Owner::Refc);
    let list = held(7, 12, Owner::Ag);
    if g == 0 {
        let inodes = held(24, 8, Owner::Inodes);
        let all = [heads, free_space, inode_trees, owners, counts, list, inodes];
        return leaf::<RmapKind>(&all, len, g, 5);
    }
    let all = [heads, free_space, inode_trees, owners, counts, list];
    leaf::<RmapKind>(&all, len, g, 5)
}

fn refc_leaf(len: u32, g: u32) -> Block
    requires group { g < 65536 }
    requires long { len ≤ 2 ^ 28 }
    ensures { result.bytes ≡ leaf_bytes refc_form [] (fresh_frame len g) 6 }
{
    leaf::<RefcKind>(&[], len, g, 6)
}

/// The root in block `b` of group `g`, one of blocks 1 to 6.
#[tactic(auto, unfolding(crate::specs::Fresh::fresh_root))]
pub fn root(len: u32, g: u32, b: u32) -> Block
    requires group { g < 65536 }
    requires long { (64 ≤ len) × (len ≤ 2 ^ 28) }
    ensures { result.bytes ≡ fresh_root len g b }
{
    match b {
        1 => bno_leaf(len, g),
        2 => cnt_leaf(len, g),
        3 => ino_leaf(len, g),
        4 => fino_leaf(len, g),
        5 => rmap_leaf(len, g),
        _ => refc_leaf(len, g),
    }
}
