ghost use Rattle.std.specs.Prelude.{◌≡◌, ◌≤◌, ◌<◌, ◌+◌, Err, IfOk, IfSome, OnErr, length, take};
ghost use Rattle.blk_device.specs.Causes.{HasCause};
ghost use Rattle.blk_device.specs.Taken.{Gives, IsSpent};
ghost use Rattle.script_defs.specs.Shape.{IsScript};
ghost use Rattle.script_defs.specs.Texts.{script_of};
ghost use Rattle.script_read.specs.Reading.{HasLine, IsReading, TakesUpTo, is_failed};
ghost use Rattle.script_read.specs.declared.fault.ScriptFault.TheVariants.{Failed};

use crate::fault::ScriptFault;
use crate::reader::Reader;
use blk_device::Source;
use script_defs::Script;
use std::alloc::Global;

// The next bytes of a source, at most `most` of them: how many, 0 being the end.
fn take_piece<S: Source>(
    src: &mut S,
    piece: &mut [u8; 4096],
    most: usize,
) -> Result<usize, ScriptFault>
    requires some { 0 < most }
    requires room { most ≤ 4096 }
    ensures size { length piece.new ≡ 4096 }
    ensures bound { IfOk result (λ n. n ≤ most) }
    ensures bytes { IfOk result (λ n. Gives (take n piece.new) (S.bytes_left src.old) (S.bytes_left src.new)) }
    ensures end { IfOk result (λ n. n ≡ 0 → IsSpent (S.bytes_left src.old)) }
    ensures none { OnErr result (S.bytes_left src.new ≡ S.bytes_left src.old) }
    ensures failed { OnErr result (result ≡ Err Failed) }
    ensures cause { HasCause is_failed (S.source_faults src.old) (S.source_faults src.new) result }
{
    match src.take(&mut piece[..most]) {
        Ok(n) => Ok(n),
        Err(_) => Err(ScriptFault::Failed),
    }
}

/// The script that a source gives, or why there is none: its first wrong line, a failed source, or
/// want of memory. A script has at most 4,194,304 bytes and 65,536 lines. At most one byte more is
/// taken, and none behind the piece in which a wrong line ends.
pub fn read_script<S: Source>(alloc: Global, src: &mut S) -> Result<Script, ScriptFault>
    ensures exact { IfSome (S.bytes_left src.old) (λ bytes. IsReading result (script_of bytes)) }
    ensures shape { IfOk result IsScript }
    ensures line { HasLine result }
    ensures taken { TakesUpTo 4194305 (S.bytes_left src.old) (S.bytes_left src.new) }
    ensures cause { HasCause is_failed (S.source_faults src.old) (S.source_faults src.new) result }
{
    let mut reader = Reader::new(alloc);
    let mut piece = [0; 4096];
    let mut n = take_piece(src, &mut piece, room(reader.taken()))?;
    while n > 0 {
        if let Err(fault) = reader.put(&piece[..n]) {
            return Err(fault);
        }
        n = take_piece(src, &mut piece, room(reader.taken()))?;
    }
    reader.finish()
}

// How many bytes may be taken next.
fn room(taken: u32) -> usize
    requires { taken ≤ 4194304 }
    ensures some { 0 < result }
    ensures piece { result ≤ 4096 }
    ensures most { taken + result ≤ 4194305 }
{
    let left = 4_194_305 - taken as usize;
    left.min(4096)
}
