ghost use Rattle.std.specs.Prelude.{◌≡◌, ℕ, ◌+◌, ◌≤◌, ◌++◌, IfOk, OnOk};
ghost use Rattle.run_sets.specs.Runs.{AreMaximal, EndWithin, holds, most};
ghost use Rattle.index_derive.specs.Runs.{Goes, StartsRise, merged, shut};

use run_sets::Run;
use std::alloc::{AllocError, Global};

// Blocks from one on up to an end, of which more may follow: none where it ends where it begins.
#[derive(Clone, Copy)]
struct Span {
    start: u32,
    end: u32,
}

// Puts the span as a run, where it has blocks.
fn put_span(runs: &mut Vec<Run>, span: Span) -> Result<(), AllocError>
    ensures { OnOk result (runs.new.items ≡ runs.old.items ++ shut span.start span.end) }
{
    if span.start >= span.end {
        return Ok(());
    }
    runs.push(Run {
        start: span.start,
        count: span.end - span.start,
    })?;
    Ok(())
}

// The span with one run more, or what is then the span: the one before is put down.
#[tactic(auto, using(crate::proofs::RunLemmas::grown_on, crate::proofs::RunLemmas::grown_gap))]
fn grown(runs: &mut Vec<Run>, span: Span, run: &Run) -> Result<Span, AllocError>
    requires { run.now.start + run.now.count ≤ most }
    ensures { IfOk result (λ next. Goes runs.old.items span.start span.end run.now runs.new.items next.start next.end) }
{
    let end = run.start + run.count;
    if run.start <= span.end {
        return Ok(Span {
            start: span.start,
            end: span.end.max(end),
        });
    }
    put_span(runs, span)?;
    Ok(Span {
        start: run.start,
        end,
    })
}

fn join_all(alloc: Global, runs: &[Run]) -> Result<Vec<Run>, AllocError>
    requires { EndWithin most runs.now }
    ensures { IfOk result (λ found. found.items ≡ merged 0 0 runs.now) }
{
    let mut found = Vec::new(alloc);
    let mut span = Span { start: 0, end: 0 };
    for run in runs {
        span = grown(&mut found, span, run)?;
    }
    put_span(&mut found, span)?;
    Ok(found)
}

/// The maximal runs of the blocks that lie in some of these runs, which rise by their starts and
/// may overlap or be empty. It costs one walk along them
/// (XFS Online Fsck Design, "Disposing of Old Metadata Blocks").
pub fn joined_runs(alloc: Global, runs: &[Run]) -> Result<Vec<Run>, AllocError>
    requires rising { StartsRise 0 runs.now }
    requires ends { EndWithin most runs.now }
    ensures maximal { IfOk result (λ found. AreMaximal 0 found.items) }
    ensures exact { IfOk result (λ found. (b : ℕ) → holds found.items b ≡ holds runs.now b) }
{
    join_all(alloc, runs)
}
