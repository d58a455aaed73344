// Two trees edited in one transaction: they share the free list, and what the second one does may be
// taken back to the mark between them.
ghost use Rattle.std.specs.Prelude.{◌≡◌};
ghost use Rattle.blk_cache.specs.Cache.{AgreesTold};
ghost use Rattle.blk_device.specs.declared.device.Region.TheVariants.{Image};
ghost use Rattle.meta_txn.specs.Joined.{AreBelow};
ghost use Rattle.sblock.specs.declared.kind.Kind.TheVariants.{Bno, Cnt};

use super::same::same;
use crate::groups::free_list;
use crate::kinds::{evens, list_of};
use crate::play::{apply, are_same, device_with, lay, records_of, tree_at, write};
use ag_headers::Agfl;
use blk_cache::BlkCache;
use blk_device::{Device, MemDevice};
use byte_fields::Steps;
use meta_txn::Txn;
use sblock::RecKind;
use span_recs::{BnoKind, CntKind, SpanRec};
use std::alloc::Global;
use std::collections::BTreeMap;
use std::marker::Brand;
use std::sync::ledger::{Blank, Ledger};
use std::test::Fail;
use tree_blocks::TreeAt;
use tree_edit::{Edit, EditFault};

// A record put in where that can be done; else the transaction goes back to where it was.
fn put_or_back<K: RecKind, D: Device, L: Ledger>(
    alloc: Global,
    dev: &mut D,
    cache: &mut BlkCache,
    txn: &mut Txn,
    tree: &mut TreeAt,
    list: &mut Agfl,
    limbo: &mut Vec<u32>,
    rec: K::Rec,
    steps: &mut Steps<L>,
) -> Result<(), EditFault>
    requires kind { tree.old.kind ≡ K.form.kind }
    requires group { tree.old.group ≡ 0 }
    requires agreed { AgreesTold cache.old (D.content dev.old) }
    requires inside { AreBelow (D.blocks dev.old Image) txn.old.blocks }
    ensures agreed { AgreesTold cache.new (D.content dev.new) }
    ensures inside { AreBelow (D.blocks dev.new Image) txn.new.blocks }
{
    txn.mark();
    let how = Edit::Insert;
    match apply::<K, D, L>(alloc, dev, cache, txn, tree, list, limbo, how, rec, steps) {
        Ok(()) => Ok(()),
        Err(fault) => {
            txn.back();
            Err(fault)
        }
    }
}

// The record put into both trees of free space, in one transaction, which is written; answers what the
// second edit did.
fn put_both<D: Device, L: Ledger>(
    alloc: Global,
    dev: &mut D,
    bno: &mut TreeAt,
    cnt: &mut TreeAt,
    list: &mut Agfl,
    rec: SpanRec,
    blank: Blank,
) -> Result<Result<(), EditFault>, EditFault>
    requires kind { bno.old.kind ≡ Bno }
    requires group { bno.old.group ≡ 0 }
    requires other_kind { cnt.old.kind ≡ Cnt }
    requires other_group { cnt.old.group ≡ 0 }
    requires name { blank.name ≡ L.name }
    requires parts { blank.parts ≡ L.parts }
    requires three { blank.parts ≡ 3 }
{
    let Ok(mut cache) = BlkCache::new(alloc, 8) else {
        return Err(EditFault::Memory);
    };
    let Ok(mut txn) = Txn::new(alloc) else {
        return Err(EditFault::Memory);
    };
    let mut limbo = Vec::new(alloc);
    let mut steps = Steps::<L>::new(blank);
    apply::<BnoKind, D, L>(
        alloc,
        dev,
        &mut cache,
        &mut txn,
        bno,
        list,
        &mut limbo,
        Edit::Insert,
        rec,
        &mut steps,
    )?;
    let second = put_or_back::<CntKind, D, L>(
        alloc, dev, &mut cache, &mut txn, cnt, list, &mut limbo, rec, &mut steps,
    );
    write::<D, L>(&mut txn, dev, &mut cache, &mut steps)?;
    Ok(second)
}

fn put_into(
    alloc: Global,
    dev: &mut MemDevice,
    bno: &mut TreeAt,
    cnt: &mut TreeAt,
    list: &mut Agfl,
    rec: SpanRec,
) -> Result<Result<(), EditFault>, EditFault>
    requires kind { bno.old.kind ≡ Bno }
    requires group { bno.old.group ≡ 0 }
    requires other_kind { cnt.old.kind ≡ Cnt }
    requires other_group { cnt.old.group ≡ 0 }
{
    let blank = Blank::new(3);
    put_both::<MemDevice, Brand>(alloc, dev, bno, cnt, list, rec, blank)
}

// What two full leaves and a free list of so many blocks are after a record was put into both: the
// second edit's answer, both levels, how many records are read of each, and the list's blocks.
fn after_both(
    alloc: Global,
    listed: u32,
) -> Result<(Result<(), EditFault>, [u32; 2], [usize; 2], u32), Fail> {
    let recs = list_of::<BnoKind>(alloc, &evens(alloc, 505)?)?;
    let mut blocks = BTreeMap::new(alloc);
    let mut bno = tree_at::<BnoKind>(lay::<BnoKind>(alloc, &mut blocks, &recs, 500)?, 1);
    let mut cnt = tree_at::<CntKind>(lay::<CntKind>(alloc, &mut blocks, &recs, 600)?, 1);
    let mut dev = device_with(alloc, blocks)?;
    let mut list = free_list(listed);
    let rec = SpanRec { start: 2, count: 1 };
    let second = put_into(alloc, &mut dev, &mut bno, &mut cnt, &mut list, rec)?;
    let by_start = records_of::<BnoKind>(alloc, &mut dev, bno.root, bno.levels)?;
    let by_count = records_of::<CntKind>(alloc, &mut dev, cnt.root, cnt.levels)?;
    let is_same = are_same::<CntKind>(&by_count, &recs)
        || are_same::<BnoKind>(&by_start, &by_count);
    let many = if is_same {
        [by_start.len(), by_count.len()]
    } else {
        [0, 0]
    };
    Ok((second, [bno.levels, cnt.levels], many, list.len()))
}

#[test]
fn two_trees_share_the_free_list(rt: HostRuntime) -> Result<(), Fail> {
    let alloc = rt.alloc();
    same(&rt, after_both(alloc, 5)?, (Ok(()), [2, 2], [506, 506], 1));
    same(&rt, after_both(alloc, 4)?, (Ok(()), [2, 2], [506, 506], 0));
    Ok(())
}

#[test]
fn what_the_second_tree_lacks_leaves_the_first(rt: HostRuntime) -> Result<(), Fail> {
    let short = EditFault::Short { have: 1, need: 2 };
    same(
        &rt,
        after_both(rt.alloc(), 3)?,
        (Err(short), [2, 1], [506, 505], 1),
    );
    Ok(())
}
