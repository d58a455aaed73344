ghost use Rattle.std.specs.Prelude.{◌≡◌, ◌<◌};

use crate::commits::write_batch;
use crate::fault::TxnFault;
use crate::list::{copy_of, copy_over, find, load};
use blk_cache::{BlkCache, Memory};
use blk_device::Device;
use byte_fields::{Block, Steps};
use redo_area::{MAX_BATCH, REDO_BLOCKS};
use std::alloc::Global;
use std::marker::Model;
use std::sync::ledger::Ledger;

/// Changed image blocks that aren't written yet, and a copy of those that were joined at the last
/// mark. Contracts see both as lists of block number and bytes, rising by number; blocks are
/// counted from the image's start. All room is taken by `new`, so that no other call needs memory.
#[derive(Drop)]
pub struct Txn {
    blocks: Vec<(u64, Block)>,
    marked: Vec<(u64, Block)>,
}

impl Model for Txn {
    ghost use Rattle.meta_txn.specs.Joined.{Joined};

    ghost Value = { Joined };

    ghost use Rattle.redo_area.specs.Area.{bytes_of};
    ghost use Rattle.meta_txn.specs.Room.{HasRoom};

    ghost view = { λ t. record { blocks = bytes_of t.blocks.items; marked = bytes_of t.marked.items } };

    ghost invariant = { λ t. HasRoom t.blocks × HasRoom t.marked };
}

impl Txn {
    ghost use Rattle.std.specs.Prelude.{◌≤◌, ◌+◌, ◌↔◌, ℕ, Bool, List, [], true, false, length, is_some, option_map, IsOk, IfOk, IfErr, OnOk, OnErr, IsErrOf};
    ghost use Rattle.std.specs.Borrow.{sem};
    ghost use Rattle.blk_cache.specs.Cache.{capacity_of, AgreesTold};
    ghost use Rattle.blk_device.specs.Causes.{HasCause, any_error, Rose};
    ghost use Rattle.blk_device.specs.Contents.{Becomes, Holds};
    ghost use Rattle.blk_device.specs.Crash.{Elapses, NoMore};
    ghost use Rattle.blk_device.specs.declared.device.Region.TheVariants.{Image, Redo};
    ghost use Rattle.redo_area.specs.Area.{Batch};
    ghost use Rattle.redo_area.specs.Calls.{LeavesFrom, Reaches};
    ghost use Rattle.redo_area.specs.Recover.{StaysTold};
    ghost use Rattle.redo_area.specs.Stages.{AtRest, AtRestBut, BeforeOrAfter, BeforeOrAfterBut, EndsAs, EndsAsBut};
    ghost use Rattle.meta_txn.specs.Entering.{reads_after, IsAbsent, IsEntered, IsFound, IsReadIn};
    ghost use Rattle.meta_txn.specs.Joined.{bytes_at, empty, reads_block, with_block, written, written_by, AreBelow, Finds, IsBatch, WouldBe};
    ghost use Rattle.meta_txn.specs.Lending.{LendsJoined, LendsPlace};
    ghost use Rattle.meta_txn.specs.Places.{bytes_in};

    /// An empty transaction, with room for 160 blocks and for as many at the mark.
    pub fn new(alloc: Global) -> Result<Self, Memory>
        ensures empty { IfOk result (λ txn. txn ≡ empty) }
    {
        let blocks = Vec::with_capacity(alloc, MAX_BATCH)?;
        let marked = Vec::with_capacity(alloc, MAX_BATCH)?;
        Ok(Txn { blocks, marked })
    }

    // The block in a place of the list.
    fn block_in(&mut self, i: usize) -> &mut Block
        requires { i < length self.old.blocks }
        ensures* lends { sem 𝓛 (LendsPlace self.entry i result) }
        ensures value { result.now.bytes ≡ bytes_in i self.old.blocks }
    {
        let pair = &mut self.blocks[i];
        &mut pair.1
    }

    // Puts in a block whose number isn't joined, in its place.
    fn insert(&mut self, i: usize, at: u64, block: Block)
        requires few { length self.old.blocks < MAX_BATCH }
        requires absent { IsAbsent at i self.old.blocks }
        ensures { self.new ≡ record self.old { blocks = with_block at block.bytes self.old.blocks } }
    {
        let _ = self.blocks.insert(i, (at, block));
    }

    /// How many blocks are joined. What is joined is always a batch, and so is what was at the mark:
    /// at most 160 blocks of 4,096 bytes each, their numbers rising.
    pub fn len(&self) -> usize
        ensures count { result ≡ length self.now.blocks }
        ensures few { length self.now.blocks ≤ MAX_BATCH }
        ensures batch { IsBatch self.now.blocks }
        ensures marked { IsBatch self.now.marked }
    {
        self.blocks.len()
    }

    /// A copy of the block that is joined at this number; none exactly where none is.
    pub fn joined(&self, at: u64) -> Option<Block>
        ensures { bytes_at at self.now.blocks ≡ option_map (λ block. block.bytes) result }
    {
        copy_of(&self.blocks, at)
    }

    /// A look at the block at a number of the image, as the transaction has it: as it was joined, or
    /// else read through the cache. It isn't joined by that. Answers Failed only where the device
    /// failed.
    pub fn peek<D: Device, L: Ledger>(
        &self,
        dev: &mut D,
        cache: &mut BlkCache,
        at: u64,
        steps: &mut Steps<L>,
    ) -> Result<Block, TxnFault>
        requires inside { at < D.blocks dev.old Image }
        requires agreed { AgreesTold cache.old (D.content dev.old) }
        ensures bytes { IfOk result (λ block. Finds at self.now.blocks (D.content dev.old) block.bytes) }

        // A block that is joined costs nothing, and any other is read through the cache.
        ensures joined { is_some (bytes_at at self.now.blocks) ≡ true →
            IsOk result × (dev.new ≡ dev.old) × (cache.new ≡ cache.old) × (steps.new ≡ steps.old) }
        ensures ticks { is_some (bytes_at at self.now.blocks) ≡ false → steps.new ≡ record steps.old { reads = steps.old.reads + 1 } }
        ensures reads { is_some (bytes_at at self.now.blocks) ≡ false → D.reads dev.new ≡ reads_after cache.old at (D.reads dev.old) }
        ensures same { D.content dev.new ≡ D.content dev.old }
        ensures crash { NoMore (D.may_hold_now dev.old) (D.may_hold_now dev.new) }
        ensures time { Elapses (D.clock dev.old) (D.clock dev.new) (D.may_have_held_since dev.old) (D.may_have_held_since dev.new) (D.may_hold_now dev.new) }
        ensures sizes { D.blocks dev.new ≡ D.blocks dev.old }
        ensures kind { IfErr result (λ fault. fault ≡ TxnFault.Failed) }
        ensures cause { HasCause any_error (D.faults dev.old) (D.faults dev.new) result }
        ensures agrees { AgreesTold cache.new (D.content dev.new) }
    {
        match self.joined(at) {
            Some(block) => Ok(block),
            None => load(dev, cache, at, steps),
        }
    }

    // Where the block with this number stands, or as Err where it belongs.
    fn look(&self, at: u64) -> Result<usize, usize>
        ensures found { IfOk result (λ i. IsFound at i self.now.blocks) }
        ensures absent { IfErr result (λ i. IsAbsent at i self.now.blocks) }
    {
        find(&self.blocks, at)
    }

    // Reads a block whose number isn't joined, and puts it in, in its place.
    fn read_in<D: Device, L: Ledger>(
        &mut self,
        dev: &mut D,
        cache: &mut BlkCache,
        i: usize,
        at: u64,
        steps: &mut Steps<L>,
    ) -> Result<usize, TxnFault>
        requires absent { IsAbsent at i self.old.blocks }
        requires inside { at < D.blocks dev.old Image }
        requires agreed { AgreesTold cache.old (D.content dev.old) }
        ensures read { IfOk result (λ j. IsReadIn at j (D.content dev.old) self.old self.new) }
        ensures refused { OnErr result (self.new ≡ self.old) }
        ensures too_many { (n : ℕ) → IsErrOf result (TxnFault.TooMany n) ↔ ((n ≡ length self.old.blocks + 1) × (MAX_BATCH < n)) }
        ensures untouched { MAX_BATCH ≤ length self.old.blocks → (dev.new ≡ dev.old) × (cache.new ≡ cache.old) × (steps.new ≡ steps.old) }
        ensures ticks { length self.old.blocks < MAX_BATCH → steps.new ≡ record steps.old { reads = steps.old.reads + 1 } }
        ensures reads { length self.old.blocks < MAX_BATCH → D.reads dev.new ≡ reads_after cache.old at (D.reads dev.old) }
        ensures same { D.content dev.new ≡ D.content dev.old }
        ensures crash { NoMore (D.may_hold_now dev.old) (D.may_hold_now dev.new) }
        ensures time { Elapses (D.clock dev.old) (D.clock dev.new) (D.may_have_held_since dev.old) (D.may_have_held_since dev.new) (D.may_hold_now dev.new) }
        ensures sizes { D.blocks dev.new ≡ D.blocks dev.old }
        ensures failed { IsErrOf result TxnFault.Failed → Rose (D.faults dev.old) (D.faults dev.new) }
        ensures calm { (IsErrOf result TxnFault.Failed → ⊥) → D.faults dev.new ≡ D.faults dev.old }
        ensures later { D.faults dev.old ≤ D.faults dev.new }
        ensures agrees { AgreesTold cache.new (D.content dev.new) }
    {
        let count = self.len();
        if count >= MAX_BATCH {
            return Err(TxnFault::TooMany(count as u64 + 1));
        }
        let block = load(dev, cache, at, steps)?;
        self.insert(i, at, block);
        Ok(i)
    }

    // The place of the block with this number, which is read where it isn't joined.
    fn enter<D: Device, L: Ledger>(
        &mut self,
        dev: &mut D,
        cache: &mut BlkCache,
        at: u64,
        steps: &mut Steps<L>,
    ) -> Result<usize, TxnFault>
        requires inside { at < D.blocks dev.old Image }
        requires agreed { AgreesTold cache.old (D.content dev.old) }
        ensures entered { IfOk result (λ i. IsEntered at i (D.content dev.old) self.old self.new) }
        ensures refused { OnErr result (self.new ≡ self.old) }
        ensures too_many { (n : ℕ) → IsErrOf result (TxnFault.TooMany n) ↔ WouldBe at self.old.blocks n }
        ensures untouched { reads_block at self.old.blocks ≡ false → (dev.new ≡ dev.old) × (cache.new ≡ cache.old) × (steps.new ≡ steps.old) }
        ensures ticks { reads_block at self.old.blocks ≡ true → steps.new ≡ record steps.old { reads = steps.old.reads + 1 } }
        ensures reads { reads_block at self.old.blocks ≡ true → D.reads dev.new ≡ reads_after cache.old at (D.reads dev.old) }
        ensures same { D.content dev.new ≡ D.content dev.old }
        ensures crash { NoMore (D.may_hold_now dev.old) (D.may_hold_now dev.new) }
        ensures time { Elapses (D.clock dev.old) (D.clock dev.new) (D.may_have_held_since dev.old) (D.may_have_held_since dev.new) (D.may_hold_now dev.new) }
        ensures sizes { D.blocks dev.new ≡ D.blocks dev.old }
        ensures failed { IsErrOf result TxnFault.Failed → Rose (D.faults dev.old) (D.faults dev.new) }
        ensures calm { (IsErrOf result TxnFault.Failed → ⊥) → D.faults dev.new ≡ D.faults dev.old }
        ensures later { D.faults dev.old ≤ D.faults dev.new }
        ensures agrees { AgreesTold cache.new (D.content dev.new) }
    {
        match self.look(at) {
            Ok(i) => Ok(i),
            Err(i) => self.read_in(dev, cache, i, at, steps),
        }
    }

    /// The block at a number of the image, to be changed: as it was joined before, or else read
    /// through the cache. Answers TooMany exactly where the transaction would have more than 160
    /// blocks, and Failed only where the device failed; then nothing joined has changed.
    pub fn join<D: Device, L: Ledger>(
        &mut self,
        dev: &mut D,
        cache: &mut BlkCache,
        at: u64,
        steps: &mut Steps<L>,
    ) -> Result<&mut Block, TxnFault>
        requires inside { at < D.blocks dev.old Image }
        requires agreed { AgreesTold cache.old (D.content dev.old) }

        // The caller may change the bytes at this number, and nothing else of the transaction.
        ensures* lends { sem 𝓛 (LendsJoined self.entry at result) }
        ensures bytes { IfOk result (λ block. Finds at self.old.blocks (D.content dev.old) block.now.bytes) }
        ensures too_many { (n : ℕ) → IsErrOf result (TxnFault.TooMany n) ↔ WouldBe at self.old.blocks n }

        // A block that is joined or has no room costs nothing, and any other is read through the cache.
        ensures untouched { reads_block at self.old.blocks ≡ false → (dev.new ≡ dev.old) × (cache.new ≡ cache.old) × (steps.new ≡ steps.old) }
        ensures ticks { reads_block at self.old.blocks ≡ true → steps.new ≡ record steps.old { reads = steps.old.reads + 1 } }
        ensures reads { reads_block at self.old.blocks ≡ true → D.reads dev.new ≡ reads_after cache.old at (D.reads dev.old) }
        ensures same { D.content dev.new ≡ D.content dev.old }
        ensures crash { NoMore (D.may_hold_now dev.old) (D.may_hold_now dev.new) }
        ensures time { Elapses (D.clock dev.old) (D.clock dev.new) (D.may_have_held_since dev.old) (D.may_have_held_since dev.new) (D.may_hold_now dev.new) }
        ensures sizes { D.blocks dev.new ≡ D.blocks dev.old }
        ensures failed { IsErrOf result TxnFault.Failed → Rose (D.faults dev.old) (D.faults dev.new) }
        ensures calm { (IsErrOf result TxnFault.Failed → ⊥) → D.faults dev.new ≡ D.faults dev.old }
        ensures later { D.faults dev.old ≤ D.faults dev.new }
        ensures agrees { AgreesTold cache.new (D.content dev.new) }
    {
        let i = self.enter(dev, cache, at, steps)?;
        Ok(self.block_in(i))
    }

    /// Writes the joined blocks as one batch, and tells the cache. Where no batch waits and all
    /// writes are synced, a crash at any moment of it leaves contents that recovery turns into the
    /// image before, or into that with all joined blocks; after Ok it has them, all synced. Where
    /// blocks of the image (the set K) aren't synced, the same holds but for these, and after Ok
    /// they are, unless nothing was joined. Answers Failed only where the device failed. The
    /// transaction is empty afterwards, whatever the answer.
    pub fn commit<D: Device, L: Ledger>(
        &mut self,
        dev: &mut D,
        cache: &mut BlkCache,
        steps: &mut Steps<L>,
    ) -> Result<(), TxnFault>
        requires room { REDO_BLOCKS ≤ D.blocks dev.old Redo }
        requires inside { AreBelow (D.blocks dev.old Image) self.old.blocks }
        requires agreed { AgreesTold cache.old (D.content dev.old) }
        ensures image { OnOk result (Becomes (D.content dev.old) (D.content dev.new) (λ m n. n Image ≡ written (m Image) self.old)) }
        ensures done { Reaches D.Device dev.old dev.new result AtRest (EndsAs (written_by self.old)) }
        ensures any_moment { LeavesFrom D.Device dev.old dev.new AtRest (BeforeOrAfter (written_by self.old)) }
        ensures done_but { (K : ℕ → Bool) → 0 < length self.old.blocks → Reaches D.Device dev.old dev.new result
            (AtRestBut K) (EndsAs (written_by self.old)) }
        ensures rest_but { (K : ℕ → Bool) → Reaches D.Device dev.old dev.new result (AtRestBut K) (EndsAsBut K (written_by self.old)) }
        ensures any_moment_but { (K : ℕ → Bool) → LeavesFrom D.Device dev.old dev.new
            (AtRestBut K) (BeforeOrAfterBut K (written_by self.old)) }
        ensures emptied { self.new ≡ empty }
        ensures batch { IsBatch self.old.blocks }
        ensures nothing { self.old.blocks ≡ [] → IsOk result × (dev.new ≡ dev.old) × (cache.new ≡ cache.old) }
        ensures agrees { OnOk result (AgreesTold cache.new (D.content dev.new)) }
        ensures untold { OnErr result (cache.new ≡ cache.old) }
        ensures capacity { capacity_of cache.new ≡ capacity_of cache.old }
        ensures ticks { steps.new ≡ record steps.old { writes = steps.old.writes + length self.old.blocks } }
        ensures kind { IfErr result (λ fault. fault ≡ TxnFault.Failed) }
        ensures cause { HasCause any_error (D.faults dev.old) (D.faults dev.new) result }
        ensures reads { D.reads dev.new ≡ D.reads dev.old }
        ensures told { StaysTold (D.content dev.old) (D.content dev.new) }
        ensures sizes { D.blocks dev.new ≡ D.blocks dev.old }
    {
        let answer = write_batch(dev, cache, &self.blocks, steps);
        // Also after a failure: what waits in the redo region decides then, and isn't written a second time.
        self.abandon();
        answer
    }

    /// Lets go of all joined blocks and of the mark.
    pub fn abandon(&mut self)
        ensures { self.new ≡ empty }
    {
        self.blocks.clear();
        self.marked.clear();
    }

    /// Keeps a copy of the blocks joined so far.
    pub fn mark(&mut self)
        ensures { self.new ≡ record self.old { marked = self.old.blocks } }
    {
        copy_over(&mut self.marked, &self.blocks);
    }

    /// Returns to the blocks of the last mark, or to none where there was no mark.
    pub fn back(&mut self)
        ensures { self.new ≡ record self.old { blocks = self.old.marked } }
    {
        copy_over(&mut self.blocks, &self.marked);
    }
}
