ghost use Rattle.std.specs.Prelude.{◌≡◌, ◌≤◌, ◌<◌, List, ℕ, Option, IfSome, OnOk, length};
ghost use Rattle.blk_device.specs.declared.device.Region.{Region as GhostRegion};
ghost use Rattle.blk_device.specs.Causes.{HasCause, any_error, one_more};
ghost use Rattle.blk_device.specs.Contents.{Contents, InDoubt, Holds, Doubts, map_told, put};
ghost use Rattle.blk_device.specs.Crash.{Follows, NoMore, Elapses, IsDurable, KeepsOther};

use byte_fields::Block;
use thiserror::Error;

/// A part of a device: the file system image, or the redo file that lies beside it.
#[derive(Clone, Copy, Debug, PartialEq, Eq)]
pub enum Region {
    Image,
    Redo,
}

/// A call of a device failed, and its count of faults rose.
#[derive(Clone, Copy, Debug, PartialEq, Eq, Error)]
#[error("device failed")]
pub struct DeviceFailed;

/// Two regions of blocks that can be read, written and made durable. A block number counts
/// blocks of 4,096 bytes from the start of its region.
pub trait Device {
    /// What a read gives, where the device tells it.
    ghost content: { Self → Option Contents };

    /// The crash states now: each content that a crash now may leave.
    ghost may_hold_now: { Self → Contents → Type 0 };

    /// The moment, as a number that doesn't fall.
    ghost clock: { Self → ℕ };

    /// The crash states since a moment: what a crash at some moment from that one on might have
    /// left, during a call or between two.
    ghost may_have_held_since: { Self → ℕ → Contents → Type 0 };

    /// How often a call has failed. At 2^64 - 1 the count stays there.
    ghost faults: { Self → ℕ };

    /// How often `read` was called. At 2^64 - 1 the count stays there.
    ghost reads: { Self → ℕ };

    /// How many blocks a region has. No call changes it.
    ghost blocks: { Self → GhostRegion → ℕ };

    /// The blocks of a region, a partial last block not counted.
    fn size(&self, region: Region) -> u64
        ensures { result ≡ blocks self.now region };

    /// How often a call has failed. The count itself never fails.
    fn fault_count(&self) -> u64
        ensures { result ≡ faults self.now };

    /// Reads a block. At Failed the bytes of `into` may be any.
    fn read(&mut self, region: Region, at: u64, into: &mut Block) -> Result<(), DeviceFailed>
        requires { at < blocks self.old region }
        ensures bytes { OnOk result (Holds region at into.new.bytes (content self.old)) }
        ensures same { content self.new ≡ content self.old }
        ensures crash { NoMore (may_hold_now self.old) (may_hold_now self.new) }
        ensures time { Elapses (clock self.old) (clock self.new) (may_have_held_since self.old) (may_have_held_since self.new) (may_hold_now self.new) }
        ensures sizes { blocks self.new ≡ blocks self.old }
        ensures cause { HasCause any_error (faults self.old) (faults self.new) result }
        ensures reads { reads self.new ≡ one_more (reads self.old) };

    /// Tells that so many blocks from `at` on will be read, mostly in their order, so that a device that can
    /// read ahead does. It changes nothing that the device tells, and needs no such blocks.
    fn will_read(&mut self, region: Region, at: u64, count: u64)
        ensures same { content self.new ≡ content self.old }
        ensures crash { NoMore (may_hold_now self.old) (may_hold_now self.new) }
        ensures time { Elapses (clock self.old) (clock self.new) (may_have_held_since self.old) (may_have_held_since self.new) (may_hold_now self.new) }
        ensures sizes { blocks self.new ≡ blocks self.old }
        ensures faults { faults self.new ≡ faults self.old }
        ensures reads { reads self.new ≡ reads self.old };

    /// Writes a block. Until a sync of its region answers Ok, a crash may leave any bytes in it;
    /// at Failed its bytes may be any from now on. All other blocks stay.
    fn write(&mut self, region: Region, at: u64, from: &Block) -> Result<(), DeviceFailed>
        requires { at < blocks self.old region }
        ensures written { OnOk result (content self.new ≡ map_told (put region at from.now.bytes) (content self.old)) }
        ensures doubt { Doubts region at (content self.old) (content self.new) }
        ensures crash { Follows (InDoubt region at) (may_hold_now self.old) (may_hold_now self.new) }
        ensures time { Elapses (clock self.old) (clock self.new) (may_have_held_since self.old) (may_have_held_since self.new) (may_hold_now self.new) }
        ensures sizes { blocks self.new ≡ blocks self.old }
        ensures cause { HasCause any_error (faults self.old) (faults self.new) result }
        ensures reads { reads self.new ≡ reads self.old };

    /// Makes a region durable: after Ok a crash leaves in it what a read gives. What a crash may
    /// leave of the other region stays as it was, whatever the answer.
    fn sync(&mut self, region: Region) -> Result<(), DeviceFailed>
        ensures durable { OnOk result (IsDurable region (content self.old) (may_hold_now self.new)) }
        ensures other { KeepsOther region (may_hold_now self.old) (may_hold_now self.new) }
        ensures same { content self.new ≡ content self.old }
        ensures crash { NoMore (may_hold_now self.old) (may_hold_now self.new) }
        ensures time { Elapses (clock self.old) (clock self.new) (may_have_held_since self.old) (may_have_held_since self.new) (may_hold_now self.new) }
        ensures sizes { blocks self.new ≡ blocks self.old }
        ensures cause { HasCause any_error (faults self.old) (faults self.new) result }
        ensures reads { reads self.new ≡ reads self.old };

    /// The crash states since this very moment are those now.
    ghost only_now: { (d : Self) (c : Contents) → may_have_held_since d (clock d) c → may_hold_now d c };

    /// The crash states now are among those since each earlier moment.
    ghost counts_now: { (d : Self) (t : ℕ) (c : Contents) → t ≤ clock d → may_hold_now d c → may_have_held_since d t c };

    /// The content, where it is told, is one of the crash states now.
    ghost told_now: { (d : Self) → IfSome (content d) (may_hold_now d) };

    /// Each block that is told has 4,096 bytes.
    ghost whole_blocks: { (d : Self) → IfSome (content d) (λ c. (r : GhostRegion) (b : ℕ) → length (c r b) ≡ 4096) };
}
