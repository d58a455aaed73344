ghost use Rattle.std.specs.Prelude.{IfOk};
ghost use Rattle.derive_defs.specs.Mappings.{StartsRise, EndWithin};
ghost use Rattle.span_recs.specs.Refcounts.{refc_form};
ghost use Rattle.span_recs.specs.Spans.{bno_form, cnt_form};
ghost use Rattle.space_check.specs.Reads.{AreFreeFaults, AreSharedFaults, RisesIfRead};

use crate::faults::{add_blocks, add_counter, beside_roots, blocks_of, index_faults};
use crate::reads::IndexRead;
use ag_headers::Agf;
use derive_defs::{by_count, free_blocks, free_of, longest, shared_of};
use fs_model::{Counter, Fault};
use rmap_recs::RmapRec;
use span_recs::{BnoKind, CntKind, RefcKind, RefcRec, SpanRec};
use std::alloc::{AllocError, Global};
use tree_walk::TreeRead;

/// The faults of a group's free space by what its reverse mappings leave: those of the tree by
/// start, then those of the tree by count, then those of the counters freeblks, longest and
/// btreeblks. The group has `len` blocks
/// (XFS Online Fsck Design, "Cross-Referencing Space Metadata").
#[tactic(auto, unfolding(crate::specs::Faults::free_faults))]
pub fn judge_free(
    alloc: Global,
    len: u32,
    agf: &Agf,
    mapped: &TreeRead<RmapRec>,
    bno: &IndexRead<SpanRec>,
    cnt: &IndexRead<SpanRec>,
) -> Result<Vec<Fault>, AllocError>
    requires rising { StartsRise mapped.now.recs.items }
    requires within { EndWithin len mapped.now.recs.items }
    requires bno { RisesIfRead bno_form bno.now }
    requires cnt { RisesIfRead cnt_form cnt.now }
    ensures { IfOk result (AreFreeFaults len agf.now mapped.now bno.now cnt.now) }
{
    let free = free_of(alloc, len, mapped.recs.as_slice())?;
    let counted = by_count(alloc, free.as_slice())?;
    let mut faults = index_faults::<BnoKind>(alloc, bno, free.as_slice())?;
    let further = index_faults::<CntKind>(alloc, cnt, counted.as_slice())?;
    faults.extend_from_slice(further.as_slice())?;
    let blocks = free_blocks(free.as_slice());
    add_counter(&mut faults, Counter::Freeblks, agf.freeblks, blocks)?;
    let run = longest(counted.as_slice());
    add_counter(&mut faults, Counter::Longest, agf.longest, run)?;
    let beside = beside_roots(bno, cnt, mapped.blocks.len());
    add_blocks(&mut faults, Counter::Btreeblks, agf.btreeblks, beside)?;
    Ok(faults)
}

/// The faults of a group's reference counts by what its reverse mappings share: those of their
/// tree, then that of the counter refcount_blocks
/// (XFS Online Fsck Design, "Cross-Referencing Space Metadata").
#[tactic(auto, unfolding(crate::specs::Faults::shared_faults))]
pub fn judge_shared(
    alloc: Global,
    agf: &Agf,
    mappings: &[RmapRec],
    refc: &IndexRead<RefcRec>,
) -> Result<Vec<Fault>, AllocError>
    requires within { EndWithin 4294967295 mappings.now }
    requires refc { RisesIfRead refc_form refc.now }
    ensures { IfOk result (AreSharedFaults agf.now mappings.now refc.now) }
{
    let shared = shared_of(alloc, mappings)?;
    let mut faults = index_faults::<RefcKind>(alloc, refc, shared.as_slice())?;
    let blocks = blocks_of(refc);
    add_blocks(
        &mut faults,
        Counter::RefcountBlocks,
        agf.refcount_blocks,
        blocks,
    )?;
    Ok(faults)
}
