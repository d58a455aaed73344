// Shadows as the rows of the tests edit and read them.
ghost use Rattle.std.specs.Prelude.{◌≡◌, true, IsTrue, nat_lt, ◌&&◌, ◌+◌, ◌^◌};
ghost use Rattle.rmap_recs.specs.Rmap.{has_end};

use rmap_recs::{Memory, RmapKind, RmapRec, is_fork_data};
use sblock::RecKind;
use shadow_rmap::Shadow;
use std::alloc::Global;

/// What is expected of each call that may refuse.
pub const FITS: &str = "memory is there, and the record's numbers fit";

/// The owner of the group's space btrees and its list.
pub const AG: u64 = 0xffff_ffff_ffff_fffb;

// One more than the greatest offset.
const OFFSETS: u64 = 1 << 54;

/// A record.
pub fn rec_of(start: u32, count: u32, owner: u64, word: u64) -> RmapRec {
    RmapRec {
        start,
        count,
        owner,
        word,
    }
}

/// Whether the record's numbers fit, so that it can be put in and taken out.
#[tactic(auto, unfolding(rmap_recs::specs::Rmap::has_end))]
pub fn has_room(rec: &RmapRec) -> bool
    ensures { result ≡ (has_end rec.now && nat_lt (rec.now.start + rec.now.count) (2 ^ 32)) }
{
    let end = u64::from(rec.start) + u64::from(rec.count);
    rec.count >= 1
        && end <= 1 << 32
        && (!is_fork_data(rec.owner, rec.word)
            || rec.word % OFFSETS + u64::from(rec.count) <= OFFSETS)
        && end < 1 << 32
}

/// Puts a record in, or takes it out.
pub fn edit(shadow: &mut Shadow, add: bool, rec: &RmapRec) -> Result<(), Memory> {
    if !has_room(rec) {
        return Err(Memory);
    }
    if add {
        shadow.add(rec)
    } else {
        shadow.remove(rec)
    }
}

/// All runs of a shadow in order, by its own walk; at most 64.
pub fn runs_of(alloc: Global, shadow: &Shadow) -> Result<Vec<RmapRec>, Memory> {
    let mut runs = Vec::new(alloc);
    let mut after = None;
    for _ in 0..64 {
        let Some(run) = shadow.next_run(after) else {
            return Ok(runs);
        };
        if runs.push(run).is_err() {
            return Err(Memory);
        }
        after = Some(RmapKind::key_of(&run));
    }
    Ok(runs)
}
