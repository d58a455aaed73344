//! Lines of the report that are gathered, so that many of them go to the sink at once.
ghost use Rattle.std.specs.Prelude.{◌≡◌, ◌+◌, ◌<◌, ◌≤◌, ◌++◌, [], length, OnOk, OnErr, if◌then◌else◌, true};
ghost use Rattle.blk_device.specs.Causes.{HasCause, any_error};
ghost use Rattle.blk_device.specs.Taken.{Takes, TakesFront};
ghost use Rattle.xscrub.specs.Shown.{Gathers};

use blk_device::{Sink, SinkFailed, put_all};

// The most bytes that are gathered before the sink is given them.
const PIECE_BYTES: usize = 65_536;

/// Puts what was gathered, if anything was, and nothing is gathered then. At Failed the sink took a
/// front of it.
pub fn put_gathered<K: Sink>(sink: &mut K, gathered: &mut Vec<u8>) -> Result<(), SinkFailed>
    ensures rest { K.kept sink.old sink.new }
    ensures bytes { OnOk result (Takes gathered.old.items (K.taken sink.old) (K.taken sink.new)) }
    ensures empty { OnOk result (gathered.new.items ≡ []) }
    ensures front { OnErr result (TakesFront gathered.old.items (K.taken sink.old) (K.taken sink.new)) }
    ensures some { OnErr result (0 < length gathered.old.items) }
    ensures cause { HasCause any_error (K.sink_faults sink.old) (K.sink_faults sink.new) result }
{
    if gathered.is_empty() {
        return Ok(());
    }
    put_all(sink, gathered.as_slice())?;
    gathered.clear();
    Ok(())
}

// Puts what was gathered where so many more bytes would be more than a piece.
fn make_room<K: Sink>(sink: &mut K, gathered: &mut Vec<u8>, more: usize) -> Result<(), SinkFailed>
    requires few { length gathered.old.items ≤ 65536 }
    ensures rest { K.kept sink.old sink.new }
    ensures bytes { OnOk result (Gathers gathered.old.items gathered.new.items (K.taken sink.old) (K.taken sink.new)) }
    ensures few { OnOk result (length gathered.new.items ≤ 65536) }
    ensures room { OnOk result (more ≤ 65536 → length gathered.new.items + more ≤ 65536) }
    ensures front { OnErr result (TakesFront gathered.old.items (K.taken sink.old) (K.taken sink.new)) }
    ensures cause { HasCause any_error (K.sink_faults sink.old) (K.sink_faults sink.new) result }
{
    if more > PIECE_BYTES - gathered.len() {
        put_gathered(sink, gathered)?;
    }
    Ok(())
}

// Keeps a line behind the others that are gathered, where it isn't longer than a piece and there is
// memory for it, and says whether it did.
fn keep(gathered: &mut Vec<u8>, line: &[u8]) -> bool
    ensures items { gathered.new.items ≡ (if result then gathered.old.items ++ line.now else gathered.old.items) }
    ensures few { result ≡ true → length line.now ≤ 65536 }
{
    line.len() <= PIECE_BYTES && gathered.extend_from_slice(line).is_ok()
}

/// Gathers a line behind others, of which the sink is given all where they would be more than 64 KiB
/// with it. A line for which there is no memory then goes to the sink at once, behind those that
/// were gathered. At Failed the sink took a front of them all.
pub fn gather<K: Sink>(sink: &mut K, gathered: &mut Vec<u8>, line: &[u8]) -> Result<(), SinkFailed>
    requires few { length gathered.old.items ≤ 65536 }
    ensures rest { K.kept sink.old sink.new }
    ensures bytes { OnOk result (Gathers (gathered.old.items ++ line.now) gathered.new.items
        (K.taken sink.old) (K.taken sink.new)) }
    ensures few { OnOk result (length gathered.new.items ≤ 65536) }
    ensures front { OnErr result (TakesFront (gathered.old.items ++ line.now) (K.taken sink.old) (K.taken sink.new)) }
    ensures cause { HasCause any_error (K.sink_faults sink.old) (K.sink_faults sink.new) result }
{
    make_room(sink, gathered, line.len())?;
    if keep(gathered, line) {
        return Ok(());
    }
    put_gathered(sink, gathered)?;
    put_all(sink, line)?;
    Ok(())
}
