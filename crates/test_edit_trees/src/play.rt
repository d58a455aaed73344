// A tree of any kind in group 0, edited with a transaction each time, and read by a walk.
ghost use Rattle.std.specs.Prelude.{◌≡◌, OnOk};
ghost use Rattle.blk_cache.specs.Cache.{AgreesTold};
ghost use Rattle.blk_device.specs.declared.device.Region.TheVariants.{Image};
ghost use Rattle.meta_txn.specs.Joined.{AreBelow};

use crate::groups::{LENGTH, REDO, free_list, three_groups};
use crate::kinds::{Sample, list_of};
use ag_headers::Agfl;
use blk_cache::BlkCache;
use blk_device::{Device, MemDevice, Region};
use bulk_load::shape;
use byte_fields::{Block, Steps};
use load_trees::{Unfit, load_tree};
use meta_txn::Txn;
use sblock::RecKind;
use std::alloc::{AllocError, Global};
use std::collections::BTreeMap;
use std::marker::Brand;
use std::sync::ledger::{Blank, Ledger};
use std::test::Fail;
use tree_blocks::{TreeAt, WalkFault};
use tree_defs::Site;
use tree_edit::{Edit, EditFault, change, insert, remove};
use tree_walk::walk;

/// A tree of group 0 between edits: its device, root and levels, the free list and limbo.
#[derive(Drop)]
pub struct State {
    pub dev: MemDevice,
    pub root: u32,
    pub levels: u32,
    pub list: Agfl,
    pub limbo: Vec<u32>,
}

/// One edit of a tree of group 0, in a transaction; refused as Failed where the device is too small, or
/// where a record that is put in or changed isn't in range.
pub fn apply<K: RecKind, D: Device, L: Ledger>(
    alloc: Global,
    dev: &mut D,
    cache: &mut BlkCache,
    txn: &mut Txn,
    tree: &mut TreeAt,
    list: &mut Agfl,
    limbo: &mut Vec<u32>,
    how: Edit,
    rec: K::Rec,
    steps: &mut Steps<L>,
) -> Result<(), EditFault>
    requires kind { tree.old.kind ≡ K.form.kind }
    requires group { tree.old.group ≡ 0 }
    requires agreed { AgreesTold cache.old (D.content dev.old) }
    ensures agreed { AgreesTold cache.new (D.content dev.new) }
    ensures sizes { D.blocks dev.new ≡ D.blocks dev.old }
    ensures marked { txn.new.marked ≡ txn.old.marked }
    ensures below { AreBelow (D.blocks dev.old Image) txn.old.blocks → OnOk result (AreBelow (D.blocks dev.old Image) txn.new.blocks) }
{
    let geo = three_groups();
    let site = Site::of_group(&geo, tree.group);
    if dev.size(Region::Image) < 3 * u64::from(LENGTH) {
        return Err(EditFault::Failed);
    }
    if how == Edit::Remove {
        return remove::<K, D, L>(alloc, dev, cache, &geo, txn, tree, list, limbo, rec, steps);
    }
    if !K::is_in_range(&rec, &site.bounds) || !K::is_supported(&rec) {
        return Err(EditFault::Failed);
    }
    if how == Edit::Insert {
        return insert::<K, D, L>(alloc, dev, cache, &geo, txn, tree, list, limbo, rec, steps);
    }
    change::<K, D, L>(alloc, dev, cache, &geo, txn, tree, list, limbo, rec, steps)
}

/// Writes what the transaction has joined.
pub fn write<D: Device, L: Ledger>(
    txn: &mut Txn,
    dev: &mut D,
    cache: &mut BlkCache,
    steps: &mut Steps<L>,
) -> Result<(), EditFault>
    requires agreed { AgreesTold cache.old (D.content dev.old) }
    requires inside { AreBelow (D.blocks dev.old Image) txn.old.blocks }
{
    if dev.size(Region::Redo) < REDO {
        return Err(EditFault::Failed);
    }
    match txn.commit(dev, cache, steps) {
        Ok(()) => Ok(()),
        Err(_) => Err(EditFault::Failed),
    }
}

/// One edit with a transaction of its own, which is written.
pub fn edit_in<K: RecKind, D: Device, L: Ledger>(
    alloc: Global,
    dev: &mut D,
    tree: &mut TreeAt,
    list: &mut Agfl,
    limbo: &mut Vec<u32>,
    how: Edit,
    rec: K::Rec,
    blank: Blank,
) -> Result<(), EditFault>
    requires kind { tree.old.kind ≡ K.form.kind }
    requires group { tree.old.group ≡ 0 }
    requires name { blank.name ≡ L.name }
    requires parts { blank.parts ≡ L.parts }
    requires three { blank.parts ≡ 3 }
{
    let Ok(mut cache) = BlkCache::new(alloc, 8) else {
        return Err(EditFault::Memory);
    };
    let Ok(mut txn) = Txn::new(alloc) else {
        return Err(EditFault::Memory);
    };
    let mut steps = Steps::<L>::new(blank);
    apply::<K, D, L>(
        alloc, dev, &mut cache, &mut txn, tree, list, limbo, how, rec, &mut steps,
    )?;
    write::<D, L>(&mut txn, dev, &mut cache, &mut steps)
}

/// A tree of this kind in group 0.
pub fn tree_at<K: RecKind>(root: u32, levels: u32) -> TreeAt
    ensures kind { result.kind ≡ K.form.kind }
    ensures group { result.group ≡ 0 }
{
    TreeAt {
        kind: K::kind(),
        group: 0,
        root,
        levels,
        lsn: 7,
    }
}

/// One edit of the state's tree.
pub fn step<K: RecKind>(
    alloc: Global,
    state: &mut State,
    how: Edit,
    rec: K::Rec,
) -> Result<(), EditFault> {
    let mut tree = tree_at::<K>(state.root, state.levels);
    let blank = Blank::new(3);
    let answer = edit_in::<K, MemDevice, Brand>(
        alloc,
        &mut state.dev,
        &mut tree,
        &mut state.list,
        &mut state.limbo,
        how,
        rec,
        blank,
    );
    state.root = tree.root;
    state.levels = tree.levels;
    answer
}

fn placed_in<K: RecKind, L: Ledger>(
    alloc: Global,
    recs: &[K::Rec],
    claimed: &[u32],
    blank: Blank,
) -> Result<Vec<(u32, Block)>, Unfit>
    requires name { blank.name ≡ L.name }
    requires parts { blank.parts ≡ L.parts }
    requires three { blank.parts ≡ 3 }
{
    let site = Site::of_group(&three_groups(), 0);
    let mut steps = Steps::<L>::new(blank);
    load_tree::<K, L>(alloc, recs, &site, 7, claimed, &mut steps)
}

// The blocks of a tree of these records, for a caller that counts no steps.
fn placed<K: RecKind>(
    alloc: Global,
    recs: &[K::Rec],
    claimed: &[u32],
) -> Result<Vec<(u32, Block)>, Unfit> {
    let blank = Blank::new(3);
    placed_in::<K, Brand>(alloc, recs, claimed, blank)
}

/// How many blocks the tree of so many records has.
pub fn blocks_for<K: RecKind>(records: usize) -> u32 {
    match u32::try_from(shape(records as u64, K::kind()).blocks) {
        Ok(count) => count,
        Err(_) => 0,
    }
}

/// Puts the blocks of a tree of these records onto an image, from this block on; answers the root.
pub fn lay<K: RecKind>(
    alloc: Global,
    blocks: &mut BTreeMap<u64, Block>,
    recs: &[K::Rec],
    first: u32,
) -> Result<u32, Fail> {
    let mut claimed = Vec::new(alloc);
    for i in 0..blocks_for::<K>(recs.len()) {
        claimed.push(first.saturating_add(i))?;
    }
    let mut root = first;
    for (at, block) in &placed::<K>(alloc, recs, &claimed)? {
        blocks.insert(u64::from(*at), *block)?;
        root = *at;
    }
    Ok(root)
}

/// The device with these blocks, and a redo area.
pub fn device_with(alloc: Global, blocks: BTreeMap<u64, Block>) -> Result<MemDevice, AllocError> {
    MemDevice::with_image(alloc, 3 * u64::from(LENGTH), REDO, blocks, Vec::new(alloc))
}

/// A tree of these records from block 500 on, and a free list of so many blocks from block 700 on.
pub fn state_of<K: RecKind>(alloc: Global, recs: &[K::Rec], listed: u32) -> Result<State, Fail> {
    let mut blocks = BTreeMap::new(alloc);
    let root = lay::<K>(alloc, &mut blocks, recs, 500)?;
    Ok(State {
        dev: device_with(alloc, blocks)?,
        root,
        levels: shape(recs.len() as u64, K::kind()).levels,
        list: free_list(listed),
        limbo: Vec::new(alloc),
    })
}

fn records_in<K: RecKind, L: Ledger>(
    alloc: Global,
    dev: &mut MemDevice,
    tree: &TreeAt,
    blank: Blank,
) -> Result<Vec<K::Rec>, WalkFault>
    requires kind { tree.now.kind ≡ K.form.kind }
    requires group { tree.now.group ≡ 0 }
    requires name { blank.name ≡ L.name }
    requires parts { blank.parts ≡ L.parts }
    requires three { blank.parts ≡ 3 }
{
    let geo = three_groups();
    if dev.size(Region::Image) < 3 * u64::from(LENGTH) {
        return Err(WalkFault::Failed);
    }
    let Ok(mut cache) = BlkCache::new(alloc, 8) else {
        return Err(WalkFault::Memory);
    };
    let mut steps = Steps::<L>::new(blank);
    match walk::<K, MemDevice, L>(alloc, dev, &mut cache, &geo, tree, &mut steps) {
        Ok(read) => Ok(read.recs),
        Err(fault) => Err(fault),
    }
}

/// The records of the tree with this root and so many levels.
pub fn records_of<K: RecKind>(
    alloc: Global,
    dev: &mut MemDevice,
    root: u32,
    levels: u32,
) -> Result<Vec<K::Rec>, WalkFault> {
    let tree = tree_at::<K>(root, levels);
    let blank = Blank::new(3);
    records_in::<K, Brand>(alloc, dev, &tree, blank)
}

/// Whether two lists have the same records in the same order.
pub fn are_same<K: RecKind>(read: &[K::Rec], list: &[K::Rec]) -> bool {
    if read.len() != list.len() {
        return false;
    }
    for (a, b) in read.iter().zip(list) {
        if !K::is_same(a, b) {
            return false;
        }
    }
    true
}

/// Whether the state's tree has exactly these records.
pub fn reads<K: RecKind>(alloc: Global, state: &mut State, list: &[K::Rec]) -> bool {
    let (root, levels) = (state.root, state.levels);
    match records_of::<K>(alloc, &mut state.dev, root, levels) {
        Ok(read) => are_same::<K>(&read, list),
        Err(_) => false,
    }
}

/// Whether the state's tree has exactly the records of these numbers.
pub fn has_numbers<K: Sample>(
    alloc: Global,
    state: &mut State,
    numbers: &[u32],
) -> Result<bool, AllocError> {
    let list = list_of::<K>(alloc, numbers)?;
    Ok(reads::<K>(alloc, state, &list))
}
