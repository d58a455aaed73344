ghost use Rattle.std.specs.Prelude.{◌≡◌, ◌≢◌, ◌+◌, ◌*◌, ◌^◌, ◌<◌, [], true, All, length, IfOk, IfErr, OnOk, OnErr};
ghost use Rattle.bulk_load.specs.Loaded.{IsLoaded};
ghost use Rattle.bulk_load.specs.Shapes.{IsShape};
ghost use Rattle.load_trees.specs.Fit.{frame_of, IsFit, IsUnfit, WritesSome};

use crate::given::{are_claims, are_in_range, is_rising};
use crate::unfit::Unfit;
use bulk_load::{Shape, load_piece, shape};
use byte_fields::{Block, Steps};
use sblock::{Frame, RecKind};
use std::alloc::Global;
use std::sync::ledger::Ledger;
use tree_defs::Site;

// The shape of a tree of this list in these blocks, or the first that doesn't fit.
fn tested<K: RecKind>(
    alloc: Global,
    list: &[K::Rec],
    site: &Site,
    claimed: &[u32],
) -> Result<Shape, Unfit>
    ensures shaped { IfOk result (λ form. IsShape K.form.kind (length list.now) form.levels form.blocks) }
    ensures claimed { IfOk result (λ form. length claimed.now ≡ form.blocks) }
    ensures ends { OnOk result (All (λ r. K.form.has_end r ≡ true) list.now) }
    ensures fit { OnOk result (IsFit K.form site.now list.now claimed.now) }
    ensures unfit { IfErr result (IsUnfit K.form site.now list.now claimed.now) }
{
    if !is_rising::<K>(list) {
        return Err(Unfit::Order);
    }
    if !are_in_range::<K>(list, &site.bounds) {
        return Err(Unfit::Range);
    }
    let form = shape(list.len() as u64, K::kind());
    if !are_claims(alloc, claimed, form.blocks, site.bounds.length)? {
        return Err(Unfit::Blocks);
    }
    Ok(form)
}

/// All blocks of a new tree of this list, each with the claimed block that it is for, in the order of
/// their numbers: leaves from left to right, then upwards, the root last. Refused with the first that
/// doesn't fit, in the order of [`Unfit`]; want of memory aside, nothing else is refused. Each block is
/// counted as written, and before a refusal for want of memory some of them
/// (XFS Algorithms and Data Structures, "Short Format B+trees").
pub fn load_tree<K: RecKind, L: Ledger>(
    alloc: Global,
    list: &[K::Rec],
    site: &Site,
    lsn: u64,
    claimed: &[u32],
    steps: &mut Steps<L>,
) -> Result<Vec<(u32, Block)>, Unfit>
    requires { 8 * (site.now.first + site.now.bounds.length) < 2 ^ 64 }
    ensures loaded { IfOk result (λ placed.
        IsLoaded K.form list.now claimed.now (frame_of site.now lsn) 0 (length claimed.now) [] placed.items) }
    ensures fit { OnOk result (IsFit K.form site.now list.now claimed.now) }
    ensures unfit { IfErr result (IsUnfit K.form site.now list.now claimed.now) }
    ensures written { OnOk result (steps.new ≡ record steps.old { writes = steps.old.writes + length claimed.now }) }
    ensures unwritten { IfErr result (λ unfit. unfit ≢ Unfit.Memory → steps.new ≡ steps.old) }
    ensures stopped { OnErr result (WritesSome (length claimed.now) steps.old steps.new) }
{
    let form = tested::<K>(alloc, list, site, claimed)?;
    let frame = Frame {
        group: site.group,
        first: site.first,
        uuid: site.uuid,
        lsn,
    };
    let mut placed = Vec::new(alloc);
    let mut from = 0;
    while from < form.blocks {
        from = load_piece::<K, L>(
            alloc,
            list,
            &form,
            &frame,
            claimed,
            from,
            &mut placed,
            steps,
        )?;
    }
    Ok(placed)
}
