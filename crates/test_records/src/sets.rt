ghost use Rattle.run_sets.specs.Runs.{IsRun};

use super::same::same;
use run_sets::{
    Memory, Run, RunSet, one_list, one_stretch_list, only_runs, only_stretches, overlaps,
};
use std::alloc::Global;
use std::process::Abort;
use std::test::Fail;

// The blocks of one run.
fn set_of(alloc: Global, run: Run) -> Result<RunSet, Memory>
    requires { IsRun run }
{
    let mut set = RunSet::new(alloc)?;
    set.add(alloc, run)?;
    Ok(set)
}

fn expect_runs(rt: &impl Abort, set: &RunSet, wanted: &[Run]) {
    same(rt, set.runs(), wanted);
}

#[test]
fn complement_holds_what_the_set_leaves(rt: HostRuntime) -> Result<(), Fail> {
    let mut set = set_of(rt.alloc(), Run { start: 0, count: 1 })?;
    set.add(rt.alloc(), Run { start: 4, count: 2 })?;
    let rest = set.complement(rt.alloc(), 10)?;
    let wanted = [Run { start: 1, count: 3 }, Run { start: 6, count: 4 }];
    expect_runs(&rt, &rest, &wanted);
    Ok(())
}

#[test]
fn runs_that_touch_are_one(rt: HostRuntime) -> Result<(), Fail> {
    let low = set_of(rt.alloc(), Run { start: 0, count: 4 })?;
    let mut high = set_of(rt.alloc(), Run { start: 4, count: 3 })?;
    let both = low.union(rt.alloc(), &high)?;
    expect_runs(&rt, &both, &[Run { start: 0, count: 7 }]);
    same(&rt, [both.contains(6), both.contains(7)], [true, false]);
    let left = both.subtract(rt.alloc(), &low)?;
    expect_runs(&rt, &left, high.runs());
    high.remove(rt.alloc(), Run { start: 5, count: 1 })?;
    let wanted = [Run { start: 4, count: 1 }, Run { start: 6, count: 1 }];
    expect_runs(&rt, &high, &wanted);
    Ok(())
}

#[test]
fn overlaps_are_counted(rt: HostRuntime) -> Result<(), Fail> {
    let runs = [
        Run {
            start: 40,
            count: 4,
        },
        Run {
            start: 42,
            count: 4,
        },
        Run {
            start: 43,
            count: 1,
        },
    ];
    let found = overlaps(rt.alloc(), &runs, 2)?;
    same(
        &rt,
        found.as_slice(),
        [
            (
                Run {
                    start: 42,
                    count: 1,
                },
                2,
            ),
            (
                Run {
                    start: 43,
                    count: 1,
                },
                3,
            ),
        ]
        .as_slice(),
    );
    // The laws hold at a type.
    only_runs();
    one_list();
    only_stretches();
    one_stretch_list::<Run>();
    Ok(())
}
