ghost use Rattle.std.specs.Prelude.{◌≡◌, ◌<◌, ◌≤◌, ℕ, List, length, take, Option, OnErr, IfOk};
ghost use Rattle.blk_device.specs.Causes.{HasCause, any_error};
ghost use Rattle.blk_device.specs.Taken.{Gives, IsSpent};

use thiserror::Error;

/// A call of a source failed, and its count of faults rose.
#[derive(Clone, Copy, Debug, PartialEq, Eq, Error)]
#[error("source failed")]
pub struct SourceFailed;

/// What gives bytes in order, such as a script.
pub trait Source {
    /// The bytes that are left, where the source tells them.
    ghost bytes_left: { Self → Option (List ℕ) };

    /// How often a call has failed. At 2^64 - 1 the count stays there.
    ghost source_faults: { Self → ℕ };

    /// How often a call has failed. The count itself never fails.
    fn fault_count(&self) -> u64
        ensures { result ≡ source_faults self.now };

    /// Puts the next bytes in front of a slice and answers how many; 0 for a slice that isn't
    /// empty is the end of input. At Failed no byte is taken, and those of `into` may be any.
    fn take(&mut self, into: &mut [u8]) -> Result<usize, SourceFailed>
        ensures bound { IfOk result (λ n. n ≤ length into.new) }
        ensures bytes { IfOk result (λ n. Gives (take n into.new) (bytes_left self.old) (bytes_left self.new)) }
        ensures end { IfOk result (λ n. n ≡ 0 → 0 < length into.new → IsSpent (bytes_left self.old)) }
        ensures none { OnErr result (bytes_left self.new ≡ bytes_left self.old) }
        ensures cause { HasCause any_error (source_faults self.old) (source_faults self.new) result };
}
