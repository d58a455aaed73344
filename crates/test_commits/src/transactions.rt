ghost use Rattle.std.specs.Prelude.{◌≡◌, OnOk};
ghost use Rattle.blk_cache.specs.Cache.{AgreesTold};
ghost use Rattle.blk_device.specs.declared.device.Region.TheVariants.{Image};
ghost use Rattle.meta_txn.specs.Joined.{IsInside};

use super::same::same;
use blk_cache::{BlkCache, Memory};
use blk_device::{Device, FuseDevice, MemDevice, Region, Unsynced};
use byte_fields::{Block, Steps};
use meta_txn::{Txn, TxnFault};
use redo_area::recover;
use std::alloc::{AllocError, Global};
use std::marker::Brand;
use std::sync::ledger::{Blank, Ledger};

// One call of a transaction, or a look through the cache.
#[derive(Clone, Copy)]
enum Deed {
    Change(u64, u8),
    Look(u64),
    Mark,
    Back,
    Abandon,
    Commit,
}

// What the deeds answered up to the first that was refused, and the device.
#[derive(Drop)]
struct Played {
    dev: FuseDevice,
    seen: Vec<u8>,
    fault: Option<TxnFault>,
}

// Joins a block and puts a byte in its front; answers the one that stood there.
fn change<D: Device, L: Ledger>(
    txn: &mut Txn,
    dev: &mut D,
    cache: &mut BlkCache,
    at: u64,
    byte: u8,
    steps: &mut Steps<L>,
) -> Result<u8, TxnFault>
    requires agreed { AgreesTold cache.old (D.content dev.old) }
    requires inside { IsInside (D.blocks dev.old Image) txn.old }
    ensures agreed { OnOk result (AgreesTold cache.new (D.content dev.new)) }
    ensures inside { OnOk result (IsInside (D.blocks dev.new Image) txn.new) }
{
    if at >= dev.size(Region::Image) {
        return Err(TxnFault::Failed);
    }
    let block = txn.join(dev, cache, at, steps)?;
    let found = block.bytes[0];
    block.bytes[0] = byte;
    Ok(found)
}

// The first byte of a block, through the cache.
fn look<D: Device>(dev: &mut D, cache: &mut BlkCache, at: u64) -> Result<u8, TxnFault>
    requires agreed { AgreesTold cache.old (D.content dev.old) }
    ensures agreed { AgreesTold cache.new (D.content dev.new) }
    ensures sizes { D.blocks dev.new ≡ D.blocks dev.old }
{
    let mut block = Block::zeroed();
    if at >= dev.size(Region::Image) {
        return Err(TxnFault::Failed);
    }
    match cache.get(dev, at, &mut block) {
        Ok(()) => Ok(block.bytes[0]),
        Err(_) => Err(TxnFault::Failed),
    }
}

fn write<D: Device, L: Ledger>(
    txn: &mut Txn,
    dev: &mut D,
    cache: &mut BlkCache,
    steps: &mut Steps<L>,
) -> Result<u8, TxnFault>
    requires agreed { AgreesTold cache.old (D.content dev.old) }
    requires inside { IsInside (D.blocks dev.old Image) txn.old }
    ensures agreed { OnOk result (AgreesTold cache.new (D.content dev.new)) }
    ensures inside { OnOk result (IsInside (D.blocks dev.new Image) txn.new) }
{
    if dev.size(Region::Redo) < 162 {
        return Err(TxnFault::Failed);
    }
    match txn.commit(dev, cache, steps) {
        Ok(()) => Ok(0),
        Err(fault) => Err(fault),
    }
}

fn act<D: Device, L: Ledger>(
    txn: &mut Txn,
    dev: &mut D,
    cache: &mut BlkCache,
    deed: Deed,
    steps: &mut Steps<L>,
) -> Result<u8, TxnFault>
    requires agreed { AgreesTold cache.old (D.content dev.old) }
    requires inside { IsInside (D.blocks dev.old Image) txn.old }
    ensures agreed { OnOk result (AgreesTold cache.new (D.content dev.new)) }
    ensures inside { OnOk result (IsInside (D.blocks dev.new Image) txn.new) }
{
    match deed {
        Deed::Change(at, byte) => change(txn, dev, cache, at, byte, steps),
        Deed::Look(at) => look(dev, cache, at),
        Deed::Mark => {
            txn.mark();
            Ok(0)
        }
        Deed::Back => {
            txn.back();
            Ok(0)
        }
        Deed::Abandon => {
            txn.abandon();
            Ok(0)
        }
        Deed::Commit => write(txn, dev, cache, steps),
    }
}

// A call of its own, since `Memory` is not made of an error that hands the byte back.
fn keep(seen: &mut Vec<u8>, byte: u8) -> Result<(), AllocError> {
    seen.push(byte)?;
    Ok(())
}

fn play<L: Ledger>(
    alloc: Global,
    dev: FuseDevice,
    deeds: &[Deed],
    blank: Blank,
) -> Result<Played, Memory>
    requires name { blank.name ≡ L.name }
    requires parts { blank.parts ≡ L.parts }
    requires three { blank.parts ≡ 3 }
{
    let mut dev = dev;
    let mut txn = Txn::new(alloc)?;
    let mut cache = BlkCache::new(alloc, 4)?;
    let mut steps = Steps::<L>::new(blank);
    let mut seen = Vec::new(alloc);
    for deed in deeds {
        match act(&mut txn, &mut dev, &mut cache, *deed, &mut steps) {
            Ok(byte) => keep(&mut seen, byte)?,
            Err(refused) => {
                return Ok(Played {
                    dev,
                    seen,
                    fault: Some(refused),
                });
            }
        }
    }
    Ok(Played {
        dev,
        seen,
        fault: None,
    })
}

// An image of 200 blocks of zeros, after these deeds; the device passes so many calls on.
fn outcome_of(alloc: Global, calls: u64, deeds: &[Deed]) -> Result<Played, Memory> {
    let dev = MemDevice::new(alloc, 200, 162, Vec::new(alloc));
    let blank = Blank::new(3);
    play::<Brand>(alloc, FuseDevice::new(dev, calls), deeds, blank)
}

// The first bytes of blocks 3 and 5.
fn bytes_of(dev: &mut MemDevice) -> Option<[u8; 2]> {
    let mut third = Block::zeroed();
    let mut fifth = Block::zeroed();
    if dev.size(Region::Image) < 6 {
        return None;
    }
    if dev.read(Region::Image, 3, &mut third).is_err()
        || dev.read(Region::Image, 5, &mut fifth).is_err()
    {
        return None;
    }
    Some([third.bytes[0], fifth.bytes[0]])
}

#[test]
fn a_commit_writes_its_blocks_and_tells_the_cache(rt: HostRuntime) {
    let deeds = [
        Deed::Look(3),
        Deed::Change(5, 10),
        Deed::Change(3, 20),
        Deed::Change(5, 30),
        Deed::Commit,
        Deed::Look(3),
        Deed::Look(5),
        Deed::Change(5, 40),
        Deed::Abandon,
        Deed::Commit,
    ];
    let played = outcome_of(rt.alloc(), 1000, &deeds).expect(&rt, "memory is there");
    same(&rt, played.fault, None);
    same(
        &rt,
        played.seen.as_slice(),
        [0, 0, 0, 10, 0, 20, 30, 30, 0, 0].as_slice(),
    );
    same(&rt, bytes_of(&mut played.dev.into_inner()), Some([20, 30]));
}

#[test]
fn back_returns_to_the_mark(rt: HostRuntime) {
    let deeds = [
        Deed::Change(5, 1),
        Deed::Back,
        Deed::Change(5, 2),
        Deed::Mark,
        Deed::Change(5, 3),
        Deed::Change(3, 4),
        Deed::Back,
        Deed::Change(3, 5),
        Deed::Back,
        Deed::Commit,
        Deed::Back,
        Deed::Change(5, 6),
    ];
    let played = outcome_of(rt.alloc(), 1000, &deeds).expect(&rt, "memory is there");
    same(&rt, played.fault, None);
    same(
        &rt,
        played.seen.as_slice(),
        [0, 0, 0, 0, 2, 0, 0, 0, 0, 0, 0, 2].as_slice(),
    );
    same(&rt, bytes_of(&mut played.dev.into_inner()), Some([0, 2]));
}

// What a crash and a recovery leave of blocks 3 and 5 after a commit that stops after so many calls,
// and whether it was done.
fn left_by(
    alloc: Global,
    calls: u64,
    choices: &[Unsynced],
) -> Result<(Option<[u8; 2]>, bool), Memory> {
    let deeds = [Deed::Change(5, 2), Deed::Change(3, 1), Deed::Commit];
    let played = outcome_of(alloc, calls, &deeds)?;
    let is_done = played.fault.is_none();
    let mut left = played.dev.into_inner().crash_by(alloc, choices)?;
    if recover(&mut left).is_err() {
        return Ok((None, is_done));
    }
    Ok((bytes_of(&mut left), is_done))
}

// Two reads of the joins, and two calls a block and seven of the commit.
#[test]
fn a_stopped_commit_leaves_both_blocks_or_none(rt: HostRuntime) {
    let alloc = rt.alloc();
    let mixed = [Unsynced::Present, Unsynced::Torn, Unsynced::Absent];
    for calls in 2..14u64 {
        for choices in [[Unsynced::Absent; 3], [Unsynced::Present; 3], mixed] {
            let (left, is_done) = left_by(alloc, calls, &choices).expect(&rt, "memory is there");
            same(&rt, is_done, calls == 13);
            let is_old = !is_done && left == Some([0, 0]);
            assert!(rt; is_old || left == Some([1, 2]), "after {calls} calls");
        }
    }
}

// As many joins as this, of the first blocks.
fn joins(alloc: Global, count: u8) -> Result<Vec<Deed>, AllocError> {
    let mut deeds = Vec::new(alloc);
    for at in 0..count {
        deeds.push(Deed::Change(u64::from(at), 1))?;
    }
    Ok(deeds)
}

#[test]
fn a_block_more_than_160_is_refused(rt: HostRuntime) {
    let alloc = rt.alloc();
    let deeds = joins(alloc, 161).expect(&rt, "memory is there");
    let played = outcome_of(alloc, 1000, &deeds).expect(&rt, "memory is there");
    same(&rt, played.seen.len(), 160);
    same(&rt, played.fault, Some(TxnFault::TooMany(161)));
}
