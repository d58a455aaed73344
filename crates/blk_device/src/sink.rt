ghost use Rattle.std.specs.Prelude.{◌≡◌, ◌<◌, ◌≤◌, ℕ, List, length, take, Option, OnOk, OnErr, IfOk};
ghost use Rattle.blk_device.specs.Causes.{HasCause, any_error, Rose};
ghost use Rattle.blk_device.specs.Taken.{Takes, TakesFront};

use thiserror::Error;

/// A call of a sink failed, and its count of faults rose.
#[derive(Clone, Copy, Debug, PartialEq, Eq, Error)]
#[error("sink failed")]
pub struct SinkFailed;

/// What takes bytes in order, such as a report.
pub trait Sink {
    /// The bytes that were taken, where the sink tells them.
    ghost taken: { Self → Option (List ℕ) };

    /// How often a call has failed. At 2^64 - 1 the count stays there.
    ghost sink_faults: { Self → ℕ };

    /// What a call of `put` leaves as it was.
    ghost kept: { Self → Self → Type 0 };

    /// Takes bytes from the front of a piece and answers how many: at least one where there is one.
    /// At Failed it took none.
    fn put(&mut self, piece: &[u8]) -> Result<usize, SinkFailed>
        ensures bound { IfOk result (λ n. n ≤ length piece.now) }
        ensures progress { IfOk result (λ n. 0 < length piece.now → 0 < n) }
        ensures bytes { IfOk result (λ n. Takes (take n piece.now) (taken self.old) (taken self.new)) }
        ensures none { OnErr result (taken self.new ≡ taken self.old) }
        ensures rest { kept self.old self.new }
        ensures cause { HasCause any_error (sink_faults self.old) (sink_faults self.new) result };

    /// A call that is not made leaves everything.
    ghost kept_at_rest: { (a : Self) → kept a a };

    /// What each of two calls leaves, both leave.
    ghost kept_by_both: { (a b c : Self) → kept a b → kept b c → kept a c };
}

/// Puts all the bytes, one piece after the other. At Failed the sink took a front of them.
pub fn put_all<K: Sink>(sink: &mut K, bytes: &[u8]) -> Result<(), SinkFailed>
    ensures rest { K.kept sink.old sink.new }
    ensures bytes { OnOk result (Takes bytes.now (K.taken sink.old) (K.taken sink.new)) }
    ensures front { OnErr result (TakesFront bytes.now (K.taken sink.old) (K.taken sink.new)) }
    ensures cause { HasCause any_error (K.sink_faults sink.old) (K.sink_faults sink.new) result }
{
    let mut at = 0;
    while at < bytes.len() {
        at += sink.put(&bytes[at..])?;
    }
    Ok(())
}
