ghost use Rattle.std.specs.Prelude.{◌≡◌, ◌&&◌, IfOk, map, filter, nat_lt};
ghost use Rattle.rmap_recs.specs.Rmap.{is_shareable};
ghost use Rattle.run_sets.specs.Runs.{most};
ghost use Rattle.sblock.specs.Blocks.{IsRising};
ghost use Rattle.span_recs.specs.Refcounts.{refc_form};
ghost use Rattle.derive_defs.specs.Mappings.{EndWithin, blocks_of};
ghost use Rattle.derive_defs.specs.Shared.{AreShared, ShareInside, refc_of, shared_space};

use rmap_recs::RmapRec;
use run_sets::{Run, overlaps};
use span_recs::RefcRec;
use std::alloc::{AllocError, Global};

// The blocks of each shareable record that has some.
fn shareable_runs(alloc: Global, mappings: &[RmapRec]) -> Result<Vec<Run>, AllocError>
    ensures { IfOk result (λ runs. runs.items ≡ map blocks_of (filter (λ r. is_shareable r && nat_lt 0 r.count) mappings.now)) }
{
    mappings
        .iter()
        .filter(|mapping| mapping.is_shareable() && mapping.count > 0)
        .map(|mapping| Run {
            start: mapping.start,
            count: mapping.count,
        })
        .collect(alloc)
}

// Stretches as records.
fn records_of(alloc: Global, shared: &[(Run, u32)]) -> Result<Vec<RefcRec>, AllocError>
    ensures { IfOk result (λ recs. recs.items ≡ map refc_of shared.now) }
{
    shared
        .iter()
        .map(|(run, refcount)| RefcRec {
            start: run.start,
            count: run.count,
            refcount: *refcount,
        })
        .collect(alloc)
}

/// The shared blocks of a group: the maximal runs of blocks that lie in equally many, at least two,
/// shareable records of its reverse mapping btree, each with that number, in the order of their
/// blocks. A number above 4,294,967,295 counts as that one
/// (XFS Online Fsck Design, "Case Study: Rebuilding the Space Reference Counts").
pub fn shared_of(alloc: Global, mappings: &[RmapRec]) -> Result<Vec<RefcRec>, AllocError>
    requires within { EndWithin most mappings.now }
    ensures value { IfOk result (λ recs. recs.items ≡ shared_space mappings.now) }
    ensures exact { IfOk result (λ recs. AreShared mappings.now recs.items) }
    ensures rising { IfOk result (λ recs. IsRising refc_form recs.items) }
    ensures inside { IfOk result (λ recs. ShareInside mappings.now recs.items) }
{
    let runs = shareable_runs(alloc, mappings)?;
    match overlaps(alloc, runs.as_slice(), 2) {
        Ok(shared) => records_of(alloc, shared.as_slice()),
        Err(_) => Err(AllocError),
    }
}
