ghost use Rattle.std.specs.Prelude.{◌≡◌, ◌<◌, ◌-◌, ◌↔◌, Some, true, false, IsErr, IsTrue, OnErr, OnOk};
ghost use Rattle.blk_device.specs.Causes.{HasCause, any_error, one_more};
ghost use Rattle.blk_device.specs.Contents.{InDoubt, Holds, Doubts, map_told, put};
ghost use Rattle.blk_device.specs.Crash.{Follows, NoMore, IsDurable, KeepsOther, LeavesAny};

use crate::counted::answer;
use crate::device::{Device, DeviceFailed, Region};
use crate::memory::MemDevice;
use byte_fields::Block;

/// A device in memory behind a fuse, which passes so many reads, writes and syncs on, and then
/// fails each. A write that the fuse fails changes no content, and puts its block in doubt in the
/// device behind, as any failed write does. It counts its faults and reads itself.
#[derive(Drop)]
pub struct FuseDevice {
    inner: MemDevice,
    left: u64,
    faults: u64,
    reads: u64,
}

// Whether a call is passed on.
fn does_pass(left: &mut u64) -> bool
    ensures passes { IsTrue result ↔ (0 < left.old) }
    ensures left { left.new ≡ left.old - 1 }
{
    if *left == 0 {
        return false;
    }
    *left -= 1;
    true
}

impl FuseDevice {
    ghost use Rattle.blk_device.specs.Fuse.{calls_left, behind};

    /// A fuse that passes this many calls on to the device.
    pub fn new(inner: MemDevice, calls: u64) -> Self
        ensures inner { behind result ≡ inner }
        ensures calls { calls_left result ≡ calls }
        ensures faults { ⟦<FuseDevice as Device>⟧.faults result ≡ 0 }
        ensures reads { ⟦<FuseDevice as Device>⟧.reads result ≡ 0 }
    {
        FuseDevice {
            inner,
            left: calls,
            faults: 0,
            reads: 0,
        }
    }

    /// The device behind the fuse.
    pub fn into_inner(self) -> MemDevice
        ensures { result ≡ behind self }
    {
        self.inner
    }
}

impl Device for FuseDevice {
    ghost use Rattle.std.specs.Prelude.{reverse};
    ghost use Rattle.blk_device.specs.Calls.{held_now, only_held, seen_now, seen_whole, LeavesSettled};
    ghost use Rattle.blk_device.specs.Stored.{with_stored, stored_whole};
    ghost use Rattle.blk_device.specs.Fuse.{behind, left_behind, ElapsesBehind, FailsSoon, PassesOne};
    ghost use Rattle.blk_device.specs.Memory.{has_lost_doubt, size_of};
    ghost use Rattle.blk_device.specs.Recorded.{seen};

    ghost content = { λ d. ⟦<MemDevice as Device>⟧.content d.inner };

    ghost may_hold_now = { λ d. ⟦<MemDevice as Device>⟧.may_hold_now d.inner };

    ghost clock = { λ d. ⟦<MemDevice as Device>⟧.clock d.inner };

    ghost may_have_held_since = { λ d. ⟦<MemDevice as Device>⟧.may_have_held_since d.inner };

    ghost faults = { λ d. d.faults };

    ghost reads = { λ d. d.reads };

    ghost blocks = { λ d. ⟦<MemDevice as Device>⟧.blocks d.inner };

    ghost only_now = { λ d c held. only_held (with_stored d.inner.log.base) (reverse d.inner.log.calls.items) c held };

    ghost counts_now = { λ d t c before now. held_now (with_stored d.inner.log.base) (reverse d.inner.log.calls.items) t c now };

    ghost told_now = { λ d. seen_now (with_stored d.inner.log.base) (reverse d.inner.log.calls.items) };

    ghost whole_blocks = { λ d. seen_whole (with_stored d.inner.log.base) (stored_whole d.inner.log.base) (reverse d.inner.log.calls.items) };

    fn size(&self, region: Region) -> u64 {
        self.inner.size(region)
    }

    fn fault_count(&self) -> u64 {
        self.faults
    }

    /// Fails exactly where no call is left to pass on, or where the device behind fails.
    fn read(&mut self, region: Region, at: u64, into: &mut Block) -> Result<(), DeviceFailed>
        ensures bytes { OnOk result (Holds region at into.new.bytes (Some (seen (behind self.old).log))) }
        ensures same { Some (seen (behind self.new).log) ≡ Some (seen (behind self.old).log) }
        ensures crash { NoMore (left_behind self.old) (left_behind self.new) }
        ensures time { ElapsesBehind self.old self.new }
        ensures sizes { size_of (behind self.new) ≡ size_of (behind self.old) }
        ensures cause { HasCause any_error self.old.faults self.new.faults result }
        ensures reads { self.new.reads ≡ one_more self.old.reads }
        ensures fails { IsErr result ↔ FailsSoon self.old }
        ensures calls { PassesOne self.old self.new }
        ensures doubts { NoMore (left_behind self.new) (left_behind self.old) }
        ensures lost { has_lost_doubt (behind self.new) ≡ has_lost_doubt (behind self.old) }
    {
        self.reads = self.reads.saturating_add(1);
        if !does_pass(&mut self.left) {
            return answer(false, &mut self.faults);
        }
        match self.inner.read(region, at, into) {
            Ok(()) => Ok(()),
            Err(_) => answer(false, &mut self.faults),
        }
    }

    /// Changes nothing, and isn't counted: the device behind reads nothing ahead.
    fn will_read(&mut self, _region: Region, _at: u64, _count: u64)
        ensures same { Some (seen (behind self.new).log) ≡ Some (seen (behind self.old).log) }
        ensures crash { NoMore (left_behind self.old) (left_behind self.new) }
        ensures time { ElapsesBehind self.old self.new }
        ensures sizes { size_of (behind self.new) ≡ size_of (behind self.old) }
        ensures faults { self.new.faults ≡ self.old.faults }
        ensures reads { self.new.reads ≡ self.old.reads }
        ensures all { self.new ≡ self.old }
    {}

    /// Fails where no call is left to pass on, or where the device behind fails. After it a crash
    /// may leave any bytes in the block, as after a write of the device behind.
    fn write(&mut self, region: Region, at: u64, from: &Block) -> Result<(), DeviceFailed>
        ensures written { OnOk result (Some (seen (behind self.new).log) ≡ Some (put region at from.now.bytes (seen (behind self.old).log))) }
        ensures doubt { InDoubt region at (seen (behind self.old).log) (seen (behind self.new).log) }
        ensures crash { Follows (InDoubt region at) (left_behind self.old) (left_behind self.new) }
        ensures time { ElapsesBehind self.old self.new }
        ensures sizes { size_of (behind self.new) ≡ size_of (behind self.old) }
        ensures cause { HasCause any_error self.old.faults self.new.faults result }
        ensures reads { self.new.reads ≡ self.old.reads }
        ensures fails { FailsSoon self.old → IsErr result }
        ensures calls { PassesOne self.old self.new }
        ensures unwritten { OnErr result (seen (behind self.new).log ≡ seen (behind self.old).log) }
        ensures torn { OnOk result (LeavesAny region at (left_behind self.old) (left_behind self.new)) }
        ensures torn_failed { OnErr result (has_lost_doubt (behind self.new) ≡ false → LeavesAny region at (left_behind self.old) (left_behind self.new)) }
        ensures kept { OnOk result (has_lost_doubt (behind self.new) ≡ has_lost_doubt (behind self.old)) }
        ensures lost { has_lost_doubt (behind self.old) ≡ true → has_lost_doubt (behind self.new) ≡ true }
    {
        if !does_pass(&mut self.left) {
            self.inner.doubt(region, at, from);
            return answer(false, &mut self.faults);
        }
        match self.inner.write(region, at, from) {
            Ok(()) => Ok(()),
            Err(_) => answer(false, &mut self.faults),
        }
    }

    /// Fails where no call is left to pass on, or where the device behind fails.
    fn sync(&mut self, region: Region) -> Result<(), DeviceFailed>
        ensures durable { OnOk result (IsDurable region (Some (seen (behind self.old).log)) (left_behind self.new)) }
        ensures settled { OnOk result (LeavesSettled region (seen (behind self.old).log) (left_behind self.old) (left_behind self.new)) }
        ensures other { KeepsOther region (left_behind self.old) (left_behind self.new) }
        ensures same { Some (seen (behind self.new).log) ≡ Some (seen (behind self.old).log) }
        ensures crash { NoMore (left_behind self.old) (left_behind self.new) }
        ensures time { ElapsesBehind self.old self.new }
        ensures sizes { size_of (behind self.new) ≡ size_of (behind self.old) }
        ensures cause { HasCause any_error self.old.faults self.new.faults result }
        ensures reads { self.new.reads ≡ self.old.reads }
        ensures fails { FailsSoon self.old → IsErr result }
        ensures calls { PassesOne self.old self.new }
        ensures doubts { OnErr result (NoMore (left_behind self.new) (left_behind self.old)) }
        ensures lost { has_lost_doubt (behind self.new) ≡ has_lost_doubt (behind self.old) }
    {
        if !does_pass(&mut self.left) {
            return answer(false, &mut self.faults);
        }
        match self.inner.sync(region) {
            Ok(()) => Ok(()),
            Err(_) => answer(false, &mut self.faults),
        }
    }
}
