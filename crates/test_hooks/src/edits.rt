use super::same::same;
use crate::shadows::{AG, FITS, edit, rec_of, runs_of};
use rmap_recs::RmapRec;
use shadow_rmap::Shadow;
use std::alloc::Global;
use std::process::Abort;

// The runs that are left after some edits, each an addition or not.
fn edited(rt: &impl Abort, alloc: Global, edits: &[(bool, RmapRec)]) -> Vec<RmapRec> {
    let mut shadow = Shadow::new(alloc, 0).expect(rt, FITS);
    for (add, rec) in edits {
        edit(&mut shadow, *add, rec).expect(rt, FITS);
    }
    runs_of(alloc, &shadow).expect(rt, FITS)
}

// Asserts which runs are left after some edits.
fn expect_runs(rt: &impl Abort, alloc: Global, edits: &[(bool, RmapRec)], wanted: &[RmapRec]) {
    let runs = edited(rt, alloc, edits);
    same(rt, runs.as_slice(), wanted);
}

#[test]
fn an_addition_joins_on_both_sides_across_another_owner(rt: HostRuntime) {
    let edits = [
        (true, rec_of(0, 4, AG, 0)),
        (true, rec_of(6, 1, AG, 0)),
        (true, rec_of(1, 1, 133, 0)),
        (true, rec_of(4, 2, AG, 0)),
    ];
    let wanted = [rec_of(0, 7, AG, 0), rec_of(1, 1, 133, 0)];
    expect_runs(&rt, rt.alloc(), &edits, &wanted);
}

#[test]
fn a_run_is_cut_from_the_middle(rt: HostRuntime) {
    let edits = [
        (true, rec_of(40, 4, 195, 0)),
        (true, rec_of(50, 1, 196, 0)),
        (false, rec_of(41, 1, 195, 1)),
    ];
    let wanted = [
        rec_of(40, 1, 195, 0),
        rec_of(42, 2, 195, 2),
        rec_of(50, 1, 196, 0),
    ];
    expect_runs(&rt, rt.alloc(), &edits, &wanted);
}

#[test]
fn a_run_is_taken_whole_beside_files_that_share_it(rt: HostRuntime) {
    let edits = [
        (true, rec_of(40, 4, 195, 0)),
        (true, rec_of(40, 4, 196, 8)),
        (true, rec_of(42, 1, 197, 3)),
        (false, rec_of(40, 4, 195, 0)),
        (false, rec_of(41, 2, 196, 9)),
    ];
    let wanted = [
        rec_of(40, 1, 196, 8),
        rec_of(42, 1, 197, 3),
        rec_of(43, 1, 196, 11),
    ];
    expect_runs(&rt, rt.alloc(), &edits, &wanted);
}

// Asserts the first run, and how many there are, when a run of four blocks is there and one edit
// follows.
fn expect_over(
    rt: &impl Abort,
    alloc: Global,
    add: bool,
    rec: RmapRec,
    wanted: (Option<RmapRec>, usize),
) {
    let runs = edited(rt, alloc, &[(true, rec_of(40, 4, 195, 10)), (add, rec)]);
    let found = (runs.first().copied(), runs.len());
    same(rt, (rec, found), (rec, wanted));
}

#[test]
fn an_addition_leaves_each_block_once(rt: HostRuntime) {
    let rows = [
        (rec_of(40, 4, 195, 10), (rec_of(40, 4, 195, 10), 1)),
        (rec_of(38, 4, 195, 8), (rec_of(38, 6, 195, 8), 1)),
        (rec_of(42, 4, 195, 12), (rec_of(40, 6, 195, 10), 1)),
        (rec_of(41, 2, 195, 11), (rec_of(40, 4, 195, 10), 1)),
        (rec_of(39, 6, 195, 9), (rec_of(39, 6, 195, 9), 1)),
        (rec_of(41, 2, 195, 40), (rec_of(40, 4, 195, 10), 2)),
    ];
    for (rec, (first, many)) in rows {
        expect_over(&rt, rt.alloc(), true, rec, (Some(first), many));
    }
}

#[test]
fn a_removal_takes_what_is_there(rt: HostRuntime) {
    let rows = [
        (rec_of(38, 3, 195, 8), (Some(rec_of(41, 3, 195, 11)), 1)),
        (rec_of(42, 4, 195, 12), (Some(rec_of(40, 2, 195, 10)), 1)),
        (rec_of(41, 1, 195, 11), (Some(rec_of(40, 1, 195, 10)), 2)),
        (rec_of(39, 6, 195, 9), (None, 0)),
        (rec_of(50, 2, 195, 20), (Some(rec_of(40, 4, 195, 10)), 1)),
        (rec_of(41, 2, 195, 40), (Some(rec_of(40, 4, 195, 10)), 1)),
        (rec_of(41, 2, 196, 11), (Some(rec_of(40, 4, 195, 10)), 1)),
    ];
    for (rec, wanted) in rows {
        expect_over(&rt, rt.alloc(), false, rec, wanted);
    }
}

#[test]
fn an_addition_over_two_runs_makes_one_and_a_removal_over_both_cuts_them(rt: HostRuntime) {
    let first = (true, rec_of(40, 2, 195, 0));
    let second = (true, rec_of(44, 2, 195, 4));
    let between = rec_of(41, 4, 195, 1);
    let joined = [rec_of(40, 6, 195, 0)];
    let cut = [rec_of(40, 1, 195, 0), rec_of(45, 1, 195, 5)];
    expect_runs(&rt, rt.alloc(), &[first, second, (true, between)], &joined);
    expect_runs(&rt, rt.alloc(), &[first, second, (false, between)], &cut);
}

#[test]
fn room_is_kept_when_all_is_cleared(rt: HostRuntime) {
    let mut shadow = Shadow::new(rt.alloc(), 7).expect(&rt, FITS);
    shadow.room(3).expect(&rt, FITS);
    edit(&mut shadow, true, &rec_of(40, 4, 195, 0)).expect(&rt, FITS);
    shadow.clear();
    same(&rt, shadow.next_run(None), None);
    edit(&mut shadow, true, &rec_of(41, 1, 195, 9)).expect(&rt, FITS);
    same(&rt, shadow.next_run(None), Some(rec_of(41, 1, 195, 9)));
    same(&rt, shadow.group(), 7);
}
