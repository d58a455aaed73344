// What a crash leaves of writes that no sync followed.
ghost use Rattle.std.specs.Prelude.{◌≡◌, ◌≤◌, ◌/◌, ◌∷◌, [], ◌++◌, length, take, drop};
ghost use Rattle.blk_device.specs.Contents.{same_region};
ghost use Rattle.blk_device.specs.Replay.{choice_of, choices_by, in_doubt, lowest_choice, outcome, synced_in, left_of};
ghost use Rattle.blk_device.specs.declared.unsynced.Unsynced.TheVariants.{Torn};

use crate::device::Region;
use crate::record::Call;
use byte_fields::Block;

/// What a crash leaves of a write that no sync followed: the block as it was before, the block as
/// it was written, or the first half of the new block before the second half of the old one. These
/// are three of the crash states, in which such a block may have any bytes.
#[derive(Clone, Copy, Debug, PartialEq, Eq)]
pub enum Unsynced {
    Absent,
    Present,
    Torn,
}

/// The choice for the call of this number: the choices in turn, or absent where there is none.
pub fn choice_at(choices: &[Unsynced], i: usize) -> Unsynced
    ensures { result ≡ choice_of choices.now i }
{
    if choices.is_empty() {
        return Unsynced::Absent;
    }
    choices[i % choices.len()]
}

// Copies the first 2,048 bytes.
fn copy_front(from: &[u8], into: &mut [u8])
    requires from { 2048 ≤ length from.now }
    requires into { 2048 ≤ length into.old }
    ensures { into.new ≡ take 2048 from.now ++ drop 2048 into.old }
{
    into[..2048].copy_from_slice(&from[..2048]);
}

fn torn(new: &Block, old: &Block) -> Block
    ensures { result.bytes ≡ outcome Torn new.now.bytes old.now.bytes }
{
    let mut block = *old;
    copy_front(&new.bytes, &mut block.bytes);
    block
}

/// The block that a crash leaves of a write over an old block.
pub fn with_outcome(left: Unsynced, new: &Block, old: &Block) -> Block
    ensures { result.bytes ≡ outcome left new.now.bytes old.now.bytes }
{
    match left {
        Unsynced::Absent => *old,
        Unsynced::Present => *new,
        Unsynced::Torn => torn(new, old),
    }
}

// Whether one of these calls syncs the region.
fn is_synced_in(region: Region, calls: &[Call]) -> bool
    ensures { result ≡ synced_in region calls.now }
{
    for call in calls {
        if syncs(region, call) {
            return true;
        }
    }
    false
}

fn syncs(region: Region, call: &Call) -> bool
    ensures { result ≡ synced_in region (call.now ∷ []) }
{
    match call {
        Call::Synced(synced) => is_same(region, *synced),
        Call::Wrote(_, _, _) | Call::Doubted(_, _, _) => false,
    }
}

fn is_same(a: Region, b: Region) -> bool
    ensures { result ≡ same_region a b }
{
    match a {
        Region::Image => matches!(b, Region::Image),
        Region::Redo => matches!(b, Region::Redo),
    }
}

/// What a crash leaves of a call that these followed.
pub fn outcome_of(call: &Call, rest: &[Call], choice: Unsynced) -> Unsynced
    ensures { result ≡ left_of call.now rest.now choice }
{
    match call {
        Call::Wrote(region, _, _) if is_synced_in(*region, rest) => Unsynced::Present,
        Call::Doubted(region, _, _) if is_synced_in(*region, rest) => Unsynced::Absent,
        Call::Synced(_) => Unsynced::Absent,
        _ => choice,
    }
}

// Whether the call is a write, done or failed, that no sync of its region followed.
fn is_in_doubt(call: &Call, rest: &[Call]) -> bool
    ensures { result ≡ in_doubt call.now rest.now }
{
    match call {
        Call::Wrote(region, _, _) | Call::Doubted(region, _, _) => !is_synced_in(*region, rest),
        Call::Synced(_) => false,
    }
}

// Takes the lowest bit away, and tells what it says of a write.
fn take_bit(bits: &mut u64) -> Unsynced
    ensures choice { result ≡ lowest_choice bits.old }
    ensures rest { bits.new ≡ bits.old / 2 }
{
    let is_set = *bits % 2 == 1;
    *bits /= 2;
    if is_set {
        Unsynced::Present
    } else {
        Unsynced::Absent
    }
}

/// The choice for a call that these followed, by the lowest of the bits that are left.
pub fn next_choice(call: &Call, rest: &[Call], bits: &mut u64) -> Unsynced
    ensures { result ∷ choices_by bits.new rest.now ≡ choices_by bits.old (call.now ∷ rest.now) }
{
    if is_in_doubt(call, rest) {
        take_bit(bits)
    } else {
        Unsynced::Absent
    }
}
