ghost use Rattle.std.specs.Prelude.{◌≡◌, ◌<◌, ◌≤◌, ◌+◌, ◌^◌, filter, length, if◌then◌else◌};
ghost use Rattle.std.specs.Vec.{vec_capacity, vec_len};
ghost use Rattle.block_reap.specs.Limbo.{HasRun, AllHaveRuns, before, touches as touches_is, union as union_is, hull_of, is_beside, place_in, put_run};

/// Blocks of a group that wait to be freed: `count` of them from group-relative block `start` on, with
/// one owner, by its number in reverse mappings
/// (XFS Online Fsck Design, "Reaping After Repairing Ondisk Metadata").
#[derive(Clone, Copy, Debug, PartialEq, Eq)]
pub struct LimboRun {
    pub start: u32,
    pub count: u32,
    pub owner: u64,
}

// Whether one run comes before the other, by start and owner.
fn is_before(first: &LimboRun, second: &LimboRun) -> bool
    ensures { result ≡ before first.now second.now }
{
    first.start < second.start || (first.start == second.start && first.owner < second.owner)
}

// Whether two runs of one owner have a block in common, or one ends where the other begins.
fn touches(first: &LimboRun, second: &LimboRun) -> bool
    ensures { result ≡ touches_is first.now second.now }
{
    first.owner == second.owner
        && u64::from(first.start) <= u64::from(second.start) + u64::from(second.count)
        && u64::from(second.start) <= u64::from(first.start) + u64::from(first.count)
}

// Two runs that touch, as one.
fn union(first: &LimboRun, second: &LimboRun) -> LimboRun
    requires first { HasRun first.now }
    requires second { HasRun second.now }
    ensures value { result ≡ union_is first.now second.now }
    ensures run { HasRun result }
{
    let start = first.start.min(second.start);
    let end = (first.start + first.count).max(second.start + second.count);
    LimboRun {
        start,
        count: end - start,
        owner: first.owner,
    }
}

/// The run with all runs of the list that touch it, as one.
pub fn hull(runs: &[LimboRun], run: &LimboRun) -> LimboRun
    requires run { HasRun run.now }
    requires runs { AllHaveRuns runs.now }
    ensures value { result ≡ hull_of run.now run.now runs.now }
    ensures run { HasRun result }
{
    let mut whole = *run;
    let mut rest = runs;
    while let Some((first, later)) = rest.split_first() {
        whole = grown(&whole, run, first);
        rest = later;
    }
    whole
}

// The run so far, with one run more where that touches the first one.
fn grown(whole: &LimboRun, run: &LimboRun, other: &LimboRun) -> LimboRun
    requires whole { HasRun whole.now }
    requires run { HasRun run.now }
    requires other { HasRun other.now }
    ensures value { result ≡ (if touches_is run.now other.now then union_is whole.now other.now else whole.now) }
    ensures run { HasRun result }
{
    if touches(run, other) {
        return union(whole, other);
    }
    *whole
}

// Where the run stands behind all that come before it.
fn place_of(runs: &[LimboRun], run: &LimboRun) -> usize
    ensures value { result ≡ place_in run.now runs.now }
    ensures within { result ≤ length runs.now }
{
    let mut place = 0;
    for other in runs {
        if !is_before(other, run) {
            return place;
        }
        place += 1;
    }
    place
}

/// Puts the run behind all that come before it, in room that is there.
pub fn put_in_place(runs: &mut Vec<LimboRun>, run: LimboRun)
    requires { vec_len runs.old < vec_capacity runs.old }
    ensures items { runs.new.items ≡ put_run run runs.old.items }
    ensures len { vec_len runs.new ≡ vec_len runs.old + 1 }
    ensures capacity { vec_capacity runs.new ≡ vec_capacity runs.old }
{
    let place = place_of(runs, &run);
    let _ = runs.insert(place, run);
}

/// Leaves out the runs that touch this one.
pub fn leave_beside(runs: &mut Vec<LimboRun>, run: &LimboRun)
    ensures items { runs.new.items ≡ filter (is_beside run.now) runs.old.items }
    ensures len { vec_len runs.new ≤ vec_len runs.old }
    ensures capacity { vec_capacity runs.new ≡ vec_capacity runs.old }
{
    runs.retain(|other| !touches(run, other));
}
