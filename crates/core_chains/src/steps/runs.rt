// The runs of an intent, and lists of the maximal runs of owners.
ghost use Rattle.std.specs.Prelude.{◌≡◌, ◌<◌, ◌^◌, true};
ghost use Rattle.core_scan.specs.Followed.{HasRuns};
ghost use Rattle.fs_change.specs.Chains.{run_of, word_taken};
ghost use Rattle.run_edits.specs.Edits.{HasRoom};
ghost use Rattle.core_chains.specs.Steps.Hears.{CanEdit, is_up};

use fs_state::{Intent, IntentKind};
use rmap_recs::{OFFSETS, RmapKind, RmapRec, UNWRITTEN, is_fork_data};
use sblock::RecKind;

// Words of mappings are smaller: they have no attribute flag.
const MOST_WORD: u64 = 0x8000_0000_0000_0000;

// The block behind the last one of a group that has the most.
const MOST_END: u64 = 0x1_0000_0000;

/// Whether there are numbers for the blocks and offsets of a run, and for the block behind it.
pub(crate) fn has_room(rec: &RmapRec) -> bool
    ensures { result ≡ true → HasRoom rec.now }
{
    let end = u64::from(rec.start) + u64::from(rec.count);
    if rec.count == 0 || end >= MOST_END {
        return false;
    }
    !is_fork_data(rec.owner, rec.word) || rec.word % OFFSETS + u64::from(rec.count) <= OFFSETS
}

/// The run of an intent, with this word of its first block.
pub(crate) fn run_with(intent: &Intent, word: u64) -> RmapRec
    ensures { result ≡ run_of intent.now word }
{
    RmapRec {
        start: intent.block,
        count: intent.count,
        owner: intent.ino,
        word,
    }
}

/// The word of the mapping that an intent takes away: that of the unwritten one, where it is converted.
pub(crate) fn taken_word(intent: &Intent) -> u64
    requires { intent.now.word < 2 ^ 63 }
    ensures { result ≡ word_taken intent.now }
{
    match intent.kind {
        IntentKind::RmapChange => intent.word + UNWRITTEN,
        IntentKind::RmapAdd => intent.word,
        IntentKind::RmapRemove => intent.word,
        IntentKind::RefMore => intent.word,
        IntentKind::RefLess => intent.word,
        IntentKind::Free => intent.word,
    }
}

/// Whether the runs that an intent gives and takes have numbers.
pub(crate) fn has_runs(intent: &Intent) -> bool
    ensures { result ≡ true → HasRuns intent.now }
{
    if intent.word >= MOST_WORD {
        return false;
    }
    has_room(&run_with(intent, intent.word)) && has_room(&run_with(intent, taken_word(intent)))
}

// Whether the first of the others doesn't come before a record.
fn goes_up(rec: &RmapRec, later: &[RmapRec]) -> bool
    ensures { result ≡ is_up rec.now later.now }
{
    match later.first() {
        Some(next) => !RmapKind::is_before(&RmapKind::key_of(next), &RmapKind::key_of(rec)),
        None => true,
    }
}

/// Whether runs can be given to a list of owners and taken from it, as to those that a scan found.
pub(crate) fn can_edit(list: &[RmapRec]) -> bool
    ensures { result ≡ true → CanEdit list.now }
{
    let mut rest = list;
    while let Some((first, later)) = rest.split_first() {
        if !has_room(first) || !goes_up(first, later) {
            return false;
        }
        rest = later;
    }
    true
}
