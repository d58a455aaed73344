ghost use Rattle.std.specs.Prelude.{◌≡◌, [], ◌≤◌, ◌↔◌, ◌||◌, ℕ, List, Some, true, false, IsErr, IsTrue, OnErr, OnOk, IfOk, IfSome, Contains, is_ok};
ghost use Rattle.blk_device.specs.Causes.{HasCause, any_error, one_more};
ghost use Rattle.blk_device.specs.Contents.{InDoubt, Holds, Doubts, map_told, put};
ghost use Rattle.blk_device.specs.Crash.{Follows, NoMore, Elapses, IsDurable, KeepsOther, LeavesAny};

use crate::counted::answer;
use crate::device::{Device, DeviceFailed, Region};
use crate::record::Record;
use crate::unsynced::Unsynced;
use byte_fields::Block;
use std::alloc::{AllocError, Global};
use std::collections::BTreeMap;

/// A device in memory, by its first content and the list of what was asked of it since. Reads,
/// writes and syncs are numbered from 0 in one count, and those of chosen numbers fail. A write
/// or a sync for which no memory is left fails too. A call that fails changes no content, but the
/// block of a write that failed is in doubt like one that was written.
#[derive(Drop)]
pub struct MemDevice {
    log: Record,
    image: u64,
    redo: u64,
    failing: Vec<u64>,
    asked: u64,
    faults: u64,
    reads: u64,
    lost: bool,
}

impl MemDevice {
    ghost use Rattle.std.specs.Prelude.{if◌then◌else◌};
    ghost use Rattle.blk_device.specs.Contents.{Contents, same_region};
    ghost use Rattle.blk_device.specs.Memory.{FailsNext, AskedOnce, calls_asked, failing_calls, has_lost_doubt, holds_block, left_after_crash, left_keeping, reads_of, size_of};
    ghost use Rattle.blk_device.specs.Recorded.{Adds, KeepsCounts, KeepsWritten, seen, left_now, moment, left_since};
    ghost use Rattle.blk_device.specs.declared.record.Call.TheVariants.{Wrote};
    ghost use Rattle.blk_device.specs.Stored.{blank, stored, with_stored};
    ghost use Rattle.blk_device.specs.Tally.{has};
    ghost use Rattle.blk_device.specs.declared.device.Region.{Region};
    ghost use Rattle.blk_device.specs.declared.device.Region.TheVariants.{Image};

    fn over(log: Record, image: u64, redo: u64, failing: Vec<u64>) -> Self
        ensures log { result.log ≡ log }
        ensures sizes { (result.image ≡ image) × (result.redo ≡ redo) }
        ensures failing { result.failing.items ≡ failing.items }
        ensures counts { (result.asked ≡ 0) × (result.faults ≡ 0) × (result.reads ≡ 0) }
        ensures kept { result.lost ≡ false }
    {
        MemDevice {
            log,
            image,
            redo,
            failing,
            asked: 0,
            faults: 0,
            reads: 0,
            lost: false,
        }
    }

    /// A device of zeros with so many blocks in its two regions, of which the calls of these
    /// numbers will fail.
    pub fn new(alloc: Global, image: u64, redo: u64, failing: Vec<u64>) -> Self
        ensures content { ⟦<MemDevice as Device>⟧.content result ≡ Some blank }
        ensures quiet { (c : Contents) → ⟦<MemDevice as Device>⟧.may_hold_now result c → c ≡ blank }
        ensures sizes { (r : Region) → ⟦<MemDevice as Device>⟧.blocks result r ≡ (if same_region r Image then image else redo) }
        ensures faults { ⟦<MemDevice as Device>⟧.faults result ≡ 0 }
        ensures reads { ⟦<MemDevice as Device>⟧.reads result ≡ 0 }
        ensures asked { calls_asked result ≡ 0 }
        ensures failing { failing_calls result ≡ failing.items }
        ensures none { (b : ℕ) → holds_block result b ≡ false }
        ensures unread { (b : ℕ) → reads_of result b ≡ 0 }
        ensures kept { has_lost_doubt result ≡ false }
    {
        MemDevice::over(Record::blank(alloc), image, redo, failing)
    }

    /// A device whose image holds these blocks, and zeros where there is none; its redo region
    /// holds zeros, and all is durable. Fails for want of memory.
    pub fn with_image(
        alloc: Global,
        image: u64,
        redo: u64,
        blocks: BTreeMap<u64, Block>,
        failing: Vec<u64>,
    ) -> Result<Self, AllocError>
        ensures content { IfOk result (λ d. ⟦<MemDevice as Device>⟧.content d ≡ Some (with_stored blocks)) }
        ensures quiet { IfOk result (λ d. (c : Contents) → ⟦<MemDevice as Device>⟧.may_hold_now d c → c ≡ with_stored blocks) }
        ensures sizes { IfOk result (λ d. (r : Region) → ⟦<MemDevice as Device>⟧.blocks d r ≡ (if same_region r Image then image else redo)) }
        ensures faults { IfOk result (λ d. ⟦<MemDevice as Device>⟧.faults d ≡ 0) }
        ensures reads { IfOk result (λ d. ⟦<MemDevice as Device>⟧.reads d ≡ 0) }
        ensures asked { IfOk result (λ d. calls_asked d ≡ 0) }
        ensures failing { IfOk result (λ d. failing_calls d ≡ failing.items) }
        ensures there { IfOk result (λ d. (b : ℕ) → holds_block d b ≡ has blocks b) }
        ensures unread { IfOk result (λ d. (b : ℕ) → reads_of d b ≡ 0) }
        ensures kept { IfOk result (λ d. has_lost_doubt d ≡ false) }
    {
        let log = Record::over(alloc, blocks)?;
        Ok(MemDevice::over(log, image, redo, failing))
    }

    /// The image's blocks as they read now.
    pub fn into_image(self) -> BTreeMap<u64, Block>
        ensures { IfSome (⟦<MemDevice as Device>⟧.content self) (λ c. (b : ℕ) → stored result b ≡ c Image b) }
    {
        self.log.into_image()
    }

    /// How often an image read of this block answered Ok since it was first written, or since
    /// the device was made with it; 0 for any other block. Stays at 2^64 - 1.
    pub fn reads_at(&self, at: u64) -> u64
        ensures count { result ≡ reads_of self.now at }
        ensures none { holds_block self.now at ≡ false → result ≡ 0 }
    {
        self.log.reads_of(at)
    }

    /// A device that holds what a crash now may leave of this one, in which all is durable. The
    /// writes in doubt, done or failed, are those after which no sync of their region answered Ok.
    /// They are counted in order over both regions, and bit i of `keep`, the lowest being bit 0,
    /// tells whether the write with index i stands whole; one with index 64 or more is lost. Fails
    /// for want of memory.
    pub fn crash(&self, alloc: Global, keep: u64) -> Result<Self, AllocError>
        ensures content { IfOk result (λ d. ⟦<MemDevice as Device>⟧.content d ≡ Some (left_keeping keep self.now)) }
        ensures may { ⟦<MemDevice as Device>⟧.may_hold_now self.now (left_keeping keep self.now) }
        ensures quiet { IfOk result (λ d. (c : Contents) → ⟦<MemDevice as Device>⟧.may_hold_now d c → c ≡ left_keeping keep self.now) }
        ensures sizes { IfOk result (λ d. ⟦<MemDevice as Device>⟧.blocks d ≡ ⟦<MemDevice as Device>⟧.blocks self.now) }
        ensures counts { IfOk result (λ d. (⟦<MemDevice as Device>⟧.faults d ≡ 0) × (⟦<MemDevice as Device>⟧.reads d ≡ 0)) }
        ensures calls { IfOk result (λ d. (calls_asked d ≡ 0) × (failing_calls d ≡ [])) }
        ensures kept { IfOk result (λ d. has_lost_doubt d ≡ false) }
    {
        let choices = self.log.choices_keeping(alloc, keep)?;
        self.crash_by(alloc, &choices)
    }

    /// The same by a choice for each call. The calls asked of this device are taken in order, the
    /// choices in turn: the write of the i-th call, done or failed, has the i-th choice, where no
    /// sync of its region followed; with no choice it is absent. Fails for want of memory.
    pub fn crash_by(&self, alloc: Global, choices: &[Unsynced]) -> Result<Self, AllocError>
        ensures content { IfOk result (λ d. ⟦<MemDevice as Device>⟧.content d ≡ Some (left_after_crash choices.now self.now)) }
        ensures may { ⟦<MemDevice as Device>⟧.may_hold_now self.now (left_after_crash choices.now self.now) }
        ensures quiet { IfOk result (λ d. (c : Contents) → ⟦<MemDevice as Device>⟧.may_hold_now d c → c ≡ left_after_crash choices.now self.now) }
        ensures sizes { IfOk result (λ d. ⟦<MemDevice as Device>⟧.blocks d ≡ ⟦<MemDevice as Device>⟧.blocks self.now) }
        ensures counts { IfOk result (λ d. (⟦<MemDevice as Device>⟧.faults d ≡ 0) × (⟦<MemDevice as Device>⟧.reads d ≡ 0)) }
        ensures calls { IfOk result (λ d. (calls_asked d ≡ 0) × (failing_calls d ≡ [])) }
        ensures kept { IfOk result (λ d. has_lost_doubt d ≡ false) }
    {
        let log = self.log.crash(alloc, choices)?;
        Ok(MemDevice::over(log, self.image, self.redo, Vec::new(alloc)))
    }

    /// Whether a write failed and there was no memory to keep in the record that its block is in
    /// doubt. Once true, it stays so.
    pub fn has_lost_doubt(&self) -> bool
        ensures { result ≡ has_lost_doubt self.now }
    {
        self.lost
    }

    /// Puts a block in doubt, as a write that fails does: a crash may leave any bytes in it.
    pub(crate) fn doubt(&mut self, region: Region, at: u64, from: &Block)
        ensures same { seen self.new.log ≡ seen self.old.log }
        ensures crash { Follows (InDoubt region at) (left_now self.old.log) (left_now self.new.log) }
        ensures time { Elapses (moment self.old.log) (moment self.new.log) (left_since self.old.log) (left_since self.new.log) (left_now self.new.log) }
        ensures left { has_lost_doubt self.new ≡ false → LeavesAny region at (left_now self.old.log) (left_now self.new.log) }
        ensures lost { has_lost_doubt self.old ≡ true → has_lost_doubt self.new ≡ true }
        ensures sizes { size_of self.new ≡ size_of self.old }
        ensures faults { self.new.faults ≡ self.old.faults }
        ensures reads { self.new.reads ≡ self.old.reads }
        ensures asked { (calls_asked self.new ≡ calls_asked self.old) × (failing_calls self.new ≡ failing_calls self.old) }
        ensures tally { KeepsCounts self.old.log self.new.log }
    {
        let is_kept = self.log.doubt(region, at, from);
        self.lost = self.lost || !is_kept;
    }

    // Writes a block, unless this call is to fail or memory is refused.
    fn try_write(&mut self, region: Region, at: u64, from: &Block) -> Result<(), DeviceFailed>
        ensures log { Adds (is_ok result) (Wrote region at from.now) self.old.log self.new.log }
        ensures lost { self.new.lost ≡ self.old.lost }
        ensures sizes { size_of self.new ≡ size_of self.old }
        ensures cause { HasCause any_error self.old.faults self.new.faults result }
        ensures reads { self.new.reads ≡ self.old.reads }
        ensures fails { FailsNext self.old → IsErr result }
        ensures asked { AskedOnce self.old self.new }
        ensures tally { KeepsWritten (is_ok result) region at self.old.log self.new.log }
    {
        self.ask()?;
        let is_kept = self.log.write(region, at, from);
        answer(is_kept, &mut self.faults)
    }

    // Counts a call, and fails it if its number is one of those that fail.
    fn ask(&mut self) -> Result<(), DeviceFailed>
        ensures log { self.new.log ≡ self.old.log }
        ensures asked { AskedOnce self.old self.new }
        ensures sizes { (self.new.image ≡ self.old.image) × (self.new.redo ≡ self.old.redo) }
        ensures reads { self.new.reads ≡ self.old.reads }
        ensures lost { self.new.lost ≡ self.old.lost }
        ensures cause { HasCause any_error self.old.faults self.new.faults result }
        ensures fails { IsErr result ↔ FailsNext self.old }
    {
        let call = self.asked;
        self.asked = self.asked.saturating_add(1);
        let is_good = !self.failing.contains(&call);
        answer(is_good, &mut self.faults)
    }
}

impl Device for MemDevice {
    ghost use Rattle.std.specs.Prelude.{reverse};
    ghost use Rattle.blk_device.specs.Calls.{held_now, only_held, seen_now, seen_whole, LeavesSettled};
    ghost use Rattle.blk_device.specs.Memory.{FailsNext, AskedOnce, TalliesRead, TalliesWrite, SameTally, has_lost_doubt, size_of};
    ghost use Rattle.blk_device.specs.Recorded.{seen, left_now, moment, left_since};
    ghost use Rattle.blk_device.specs.Stored.{with_stored, stored_whole};

    ghost content = { λ d. Some (seen d.log) };

    ghost may_hold_now = { λ d. left_now d.log };

    ghost clock = { λ d. moment d.log };

    ghost may_have_held_since = { λ d. left_since d.log };

    ghost faults = { λ d. d.faults };

    ghost reads = { λ d. d.reads };

    ghost blocks = { size_of };

    ghost only_now = { λ d c held. only_held (with_stored d.log.base) (reverse d.log.calls.items) c held };

    ghost counts_now = { λ d t c before now. held_now (with_stored d.log.base) (reverse d.log.calls.items) t c now };

    ghost told_now = { λ d. seen_now (with_stored d.log.base) (reverse d.log.calls.items) };

    ghost whole_blocks = { λ d. seen_whole (with_stored d.log.base) (stored_whole d.log.base) (reverse d.log.calls.items) };

    fn size(&self, region: Region) -> u64 {
        match region {
            Region::Image => self.image,
            Region::Redo => self.redo,
        }
    }

    fn fault_count(&self) -> u64 {
        self.faults
    }

    /// Fails exactly where this call's number is one of those that fail.
    fn read(&mut self, region: Region, at: u64, into: &mut Block) -> Result<(), DeviceFailed>
        ensures bytes { OnOk result (Holds region at into.new.bytes (Some (seen self.old.log))) }
        ensures same { Some (seen self.new.log) ≡ Some (seen self.old.log) }
        ensures crash { NoMore (left_now self.old.log) (left_now self.new.log) }
        ensures time { Elapses (moment self.old.log) (moment self.new.log) (left_since self.old.log) (left_since self.new.log) (left_now self.new.log) }
        ensures sizes { size_of self.new ≡ size_of self.old }
        ensures cause { HasCause any_error self.old.faults self.new.faults result }
        ensures reads { self.new.reads ≡ one_more self.old.reads }
        ensures fails { IsErr result ↔ FailsNext self.old }
        ensures asked { AskedOnce self.old self.new }
        ensures tally { TalliesRead (is_ok result) region at self.old self.new }
        ensures doubts { NoMore (left_now self.new.log) (left_now self.old.log) }
        ensures lost { has_lost_doubt self.new ≡ has_lost_doubt self.old }
    {
        self.reads = self.reads.saturating_add(1);
        self.ask()?;
        *into = self.log.latest(region, at);
        self.log.count_read(region, at);
        Ok(())
    }

    /// Changes nothing: its blocks are in memory.
    fn will_read(&mut self, _region: Region, _at: u64, _count: u64)
        ensures same { Some (seen self.new.log) ≡ Some (seen self.old.log) }
        ensures crash { NoMore (left_now self.old.log) (left_now self.new.log) }
        ensures time { Elapses (moment self.old.log) (moment self.new.log) (left_since self.old.log) (left_since self.new.log) (left_now self.new.log) }
        ensures sizes { size_of self.new ≡ size_of self.old }
        ensures faults { self.new.faults ≡ self.old.faults }
        ensures reads { self.new.reads ≡ self.old.reads }
        ensures all { self.new ≡ self.old }
    {}

    /// Fails where this call's number is one of those that fail, and where memory is refused.
    /// After it a crash may leave any bytes in the block, whether it answers Ok or Failed, unless
    /// there was no memory to keep that.
    fn write(&mut self, region: Region, at: u64, from: &Block) -> Result<(), DeviceFailed>
        ensures written { OnOk result (Some (seen self.new.log) ≡ Some (put region at from.now.bytes (seen self.old.log))) }
        ensures doubt { InDoubt region at (seen self.old.log) (seen self.new.log) }
        ensures crash { Follows (InDoubt region at) (left_now self.old.log) (left_now self.new.log) }
        ensures time { Elapses (moment self.old.log) (moment self.new.log) (left_since self.old.log) (left_since self.new.log) (left_now self.new.log) }
        ensures sizes { size_of self.new ≡ size_of self.old }
        ensures cause { HasCause any_error self.old.faults self.new.faults result }
        ensures reads { self.new.reads ≡ self.old.reads }
        ensures fails { FailsNext self.old → IsErr result }
        ensures asked { AskedOnce self.old self.new }
        ensures unwritten { OnErr result (seen self.new.log ≡ seen self.old.log) }
        ensures tally { TalliesWrite (is_ok result) region at self.old self.new }
        ensures torn { OnOk result (LeavesAny region at (left_now self.old.log) (left_now self.new.log)) }
        ensures torn_failed { OnErr result (has_lost_doubt self.new ≡ false → LeavesAny region at (left_now self.old.log) (left_now self.new.log)) }
        ensures kept { OnOk result (has_lost_doubt self.new ≡ has_lost_doubt self.old) }
        ensures lost { has_lost_doubt self.old ≡ true → has_lost_doubt self.new ≡ true }
    {
        match self.try_write(region, at, from) {
            Ok(()) => Ok(()),
            Err(failed) => {
                self.doubt(region, at, from);
                Err(failed)
            }
        }
    }

    /// Fails where this call's number is one of those that fail, and where memory is refused. A
    /// sync that fails leaves each block in the doubt that it was in, and any sync each block of
    /// the other region.
    fn sync(&mut self, region: Region) -> Result<(), DeviceFailed>
        ensures durable { OnOk result (IsDurable region (Some (seen self.old.log)) (left_now self.new.log)) }
        ensures settled { OnOk result (LeavesSettled region (seen self.old.log) (left_now self.old.log) (left_now self.new.log)) }
        ensures other { KeepsOther region (left_now self.old.log) (left_now self.new.log) }
        ensures same { Some (seen self.new.log) ≡ Some (seen self.old.log) }
        ensures crash { NoMore (left_now self.old.log) (left_now self.new.log) }
        ensures time { Elapses (moment self.old.log) (moment self.new.log) (left_since self.old.log) (left_since self.new.log) (left_now self.new.log) }
        ensures sizes { size_of self.new ≡ size_of self.old }
        ensures cause { HasCause any_error self.old.faults self.new.faults result }
        ensures reads { self.new.reads ≡ self.old.reads }
        ensures fails { FailsNext self.old → IsErr result }
        ensures asked { AskedOnce self.old self.new }
        ensures tally { SameTally self.old self.new }
        ensures doubts { OnErr result (NoMore (left_now self.new.log) (left_now self.old.log)) }
        ensures lost { has_lost_doubt self.new ≡ has_lost_doubt self.old }
    {
        self.ask()?;
        let is_kept = self.log.sync(region);
        answer(is_kept, &mut self.faults)
    }
}
