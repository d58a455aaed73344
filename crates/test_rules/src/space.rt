ghost use Rattle.std.specs.Prelude.{◌≡◌};

use super::same::same;
use free_space::{
    GroupSpace, ListGoal, NoRun, Search, SickGroup, aligned_run, first_fit, front, group_tried,
    list_goal, wanted_count,
};
use fs_model::Extent;
use sblock::Kind;
use span_recs::SpanRec;

fn span(start: u32, count: u32) -> SpanRec
    ensures { result ≡ record { start = start; count = count } }
{
    SpanRec { start, count }
}

#[test]
fn a_list_is_filled_below_twelve_and_trimmed_above_sixty_four(rt: HostRuntime) {
    let rows = [
        (0, ListGoal::Take(16)),
        (11, ListGoal::Take(5)),
        (12, ListGoal::Nothing),
        (64, ListGoal::Nothing),
        (65, ListGoal::Give(49)),
        (119, ListGoal::Give(103)),
    ];
    for (len, wanted) in rows {
        same(&rt, list_goal(len), wanted);
    }
}

// What the first record that is long enough gives.
fn first_front(free: &[SpanRec], wanted: u32) -> Option<SpanRec> {
    let rec = first_fit(free, wanted)?;
    Some(front(&rec, wanted))
}

// Free space of the worked image, by count; then once six blocks were taken.
#[test]
fn the_first_record_that_is_long_enough_gives_its_front(rt: HostRuntime) {
    let free = [span(19, 5), span(32, 224)];
    let rows = [
        (6, Some(span(32, 6))),
        (5, Some(span(19, 5))),
        (1, Some(span(19, 1))),
        (224, Some(span(32, 224))),
        (225, None),
    ];
    for (wanted, run) in rows {
        same(&rt, first_front(&free, wanted), run);
    }
}

// Six blocks come from the long record, and then one from the short one.
#[test]
fn a_file_that_grows_twice_has_runs_of_two_records(rt: HostRuntime) {
    let rows = [
        (6, [span(19, 5), span(32, 224)], span(32, 6)),
        (1, [span(19, 5), span(38, 218)], span(19, 1)),
    ];
    for (wanted, free, run) in rows {
        same(&rt, first_front(&free, wanted), Some(run));
    }
}

#[test]
fn one_mapping_is_wanted_at_most(rt: HostRuntime) {
    let rows = [
        (1, 1),
        (2_097_151, 2_097_151),
        (2_097_152, 2_097_151),
        (u32::MAX, 2_097_151),
    ];
    for (count, wanted) in rows {
        same(&rt, wanted_count(count), wanted);
    }
}

#[test]
fn groups_are_tried_upwards_and_round(rt: HostRuntime) {
    same(&rt, group_tried(65_535, 0, 65_536), 65_535);
    same(&rt, group_tried(65_535, 1, 65_536), 0);
    same(&rt, group_tried(0, 65_535, 65_536), 65_535);
    same(&rt, group_tried(2, 3, 4), 1);
}

#[test]
fn a_chunk_fits_at_the_lowest_multiple_of_eight(rt: HostRuntime) {
    same(&rt, aligned_run(&span(19, 5)), None);
    same(&rt, aligned_run(&span(32, 224)), Some(32));
    same(&rt, aligned_run(&span(33, 15)), Some(40));
    same(&rt, aligned_run(&span(33, 14)), None);
    same(&rt, aligned_run(&span(268_435_440, 16)), Some(268_435_440));
}

fn space(group: u32, is_open: bool, sick: Option<Kind>, free: Option<SpanRec>) -> GroupSpace {
    GroupSpace {
        group,
        is_open,
        sick,
        is_large: false,
        fit: None,
        last: free,
    }
}

fn choose(wanted: u32, groups: &[GroupSpace]) -> Result<Extent, NoRun> {
    let mut search = Search::new(wanted);
    for group in groups {
        search.look(group);
    }
    search.answer()
}

#[test]
fn a_group_that_is_shut_is_told_before_a_sick_one(rt: HostRuntime) {
    let closed = space(3, false, None, None);
    let lower = space(1, false, Some(Kind::Cnt), None);
    let sick = space(0, true, Some(Kind::Rmap), None);
    let empty = space(2, true, None, None);
    same(
        &rt,
        choose(4, &[closed, lower, sick, empty]),
        Err(NoRun::Closing(1)),
    );
    let rmap = SickGroup {
        group: 0,
        kind: Kind::Rmap,
    };
    same(&rt, choose(4, &[empty, sick]), Err(NoRun::Sick(rmap)));
    same(&rt, choose(4, &[empty]), Err(NoRun::NoSpace));
}

#[test]
fn a_longer_record_of_a_later_group_comes_before_a_short_one(rt: HostRuntime) {
    let short = space(2, true, None, Some(span(19, 5)));
    let long = GroupSpace {
        fit: Some(span(32, 224)),
        last: Some(span(32, 224)),
        ..space(3, true, None, None)
    };
    let sick = GroupSpace {
        sick: Some(Kind::Bno),
        ..long
    };
    let large = GroupSpace {
        is_large: true,
        ..long
    };
    let taken = Extent {
        group: 3,
        block: 32,
        count: 6,
    };
    same(&rt, choose(6, &[short, long]), Ok(taken));
    let front = Extent {
        group: 2,
        block: 19,
        count: 5,
    };
    same(&rt, choose(6, &[short, sick]), Ok(front));
    same(&rt, choose(6, &[large]), Err(NoRun::TooLarge));
    let end = GroupSpace {
        group: 65_535,
        ..long
    };
    let end_taken = Extent {
        group: 65_535,
        ..taken
    };
    same(&rt, choose(6, &[short, end]), Ok(end_taken));
}
