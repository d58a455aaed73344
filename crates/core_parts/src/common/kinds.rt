ghost use Rattle.std.specs.Prelude.{◌≡◌, ◌&&◌, not, true};
ghost use Rattle.core_parts.specs.Common.Kinds.{has_passed, is_good as is_good_of, is_sick as is_sick_of, is_unit_sick as is_unit_sick_of, trust_in, with_pass, with_trust, with_unit};

use crate::{GroupKept, Passed, Trusts};
use core_edit::{EditPlace, SickTrees};
use fs_model::{Trust, Unit};
use sblock::Kind;
use unit_plan::SpaceTrust;

fn is_sick(trust: Trust) -> bool
    ensures { result ≡ is_sick_of trust }
{
    matches!(trust, Trust::Sick)
}

fn trust_of(trusts: &Trusts, kind: Kind) -> Trust
    ensures { result ≡ trust_in trusts.now kind }
{
    match kind {
        Kind::Bno => trusts.bno,
        Kind::Cnt => trusts.cnt,
        Kind::Rmap => trusts.rmap,
        Kind::Refc => trusts.refc,
        Kind::Ino => trusts.ino,
        Kind::Fino => trusts.fino,
    }
}

/// Whether a btree of the group was good when it was judged or rebuilt, and no fault of it was met since.
pub fn is_good(kept: &GroupKept, kind: Kind) -> bool
    ensures { result ≡ is_good_of (trust_in kept.now.trust kind) }
{
    matches!(trust_of(&kept.trust, kind), Trust::Good)
}

/// A fault of this btree was met.
pub fn mark_sick(kept: &mut GroupKept, kind: Kind)
    ensures trust { kept.new.trust ≡ with_trust kept.old.trust kind Trust.Sick }
    ensures limbo { kept.new.limbo ≡ kept.old.limbo }
    ensures passed { kept.new.passed ≡ kept.old.passed }
{
    let sick = Trust::Sick;
    match kind {
        Kind::Bno => kept.trust.bno = sick,
        Kind::Cnt => kept.trust.cnt = sick,
        Kind::Rmap => kept.trust.rmap = sick,
        Kind::Refc => kept.trust.refc = sick,
        Kind::Ino => kept.trust.ino = sick,
        Kind::Fino => kept.trust.fino = sick,
    }
}

/// Whether one of the unit's own btrees is sick.
pub fn is_unit_sick(kept: &GroupKept, unit: Unit) -> bool
    ensures { result ≡ is_unit_sick_of kept.now.trust unit }
{
    match unit {
        Unit::Inode => is_sick(kept.trust.ino) || is_sick(kept.trust.fino),
        Unit::Rmap => is_sick(kept.trust.rmap),
        Unit::Free => is_sick(kept.trust.bno) || is_sick(kept.trust.cnt),
        Unit::Refc => is_sick(kept.trust.refc),
    }
}

// Whether the unit had a verdict good or rebuilt since it was opened last.
fn did_pass(passed: &Passed, unit: Unit) -> bool
    ensures { result ≡ has_passed passed.now unit }
{
    match unit {
        Unit::Inode => passed.inode,
        Unit::Rmap => passed.rmap,
        Unit::Free => passed.free,
        Unit::Refc => passed.refc,
    }
}

/// Whether other units may be derived from this one: it had a verdict good or rebuilt since it was opened
/// last, and none of its btrees is sick.
pub fn is_unit_stood(kept: &GroupKept, unit: Unit) -> bool
    ensures { result ≡ (has_passed kept.now.passed unit && not (is_unit_sick_of kept.now.trust unit)) }
{
    did_pass(&kept.passed, unit) && !is_unit_sick(kept, unit)
}

/// Notes whether the unit had a verdict good or rebuilt.
pub fn set_passed(kept: &mut GroupKept, unit: Unit, is_passed: bool)
    ensures passed { kept.new.passed ≡ with_pass kept.old.passed unit is_passed }
    ensures limbo { kept.new.limbo ≡ kept.old.limbo }
    ensures trust { kept.new.trust ≡ kept.old.trust }
{
    match unit {
        Unit::Inode => kept.passed.inode = is_passed,
        Unit::Rmap => kept.passed.rmap = is_passed,
        Unit::Free => kept.passed.free = is_passed,
        Unit::Refc => kept.passed.refc = is_passed,
    }
}

/// The unit was judged good, or rebuilt: its btrees are good.
pub fn judged_good(kept: &mut GroupKept, unit: Unit)
    ensures trust { kept.new.trust ≡ with_unit kept.old.trust unit Trust.Good }
    ensures passed { kept.new.passed ≡ with_pass kept.old.passed unit true }
    ensures limbo { kept.new.limbo ≡ kept.old.limbo }
{
    let good = Trust::Good;
    match unit {
        Unit::Inode => {
            kept.trust.ino = good;
            kept.trust.fino = good;
        }
        Unit::Rmap => kept.trust.rmap = good,
        Unit::Free => {
            kept.trust.bno = good;
            kept.trust.cnt = good;
        }
        Unit::Refc => kept.trust.refc = good,
    }
    set_passed(kept, unit, true);
}

/// What is known of the btrees by which a spare block is looked for.
pub fn space_trust(kept: &GroupKept) -> SpaceTrust
    ensures bno { result.bno ≡ kept.now.trust.bno }
    ensures cnt { result.cnt ≡ kept.now.trust.cnt }
    ensures rmap { result.rmap ≡ kept.now.trust.rmap }
{
    SpaceTrust {
        bno: kept.trust.bno,
        cnt: kept.trust.cnt,
        rmap: kept.trust.rmap,
    }
}

/// Where a unit's blocks are reserved and reaped, by what is kept of its group.
pub fn edit_place(kept: &GroupKept, group: u32, unit: Unit) -> EditPlace
    ensures group { result.group ≡ group }
    ensures unit { result.unit ≡ unit }
    ensures heads { result.heads ≡ kept.now.heads }
{
    EditPlace {
        group,
        unit,
        heads: kept.heads,
        sick: SickTrees {
            bno: is_sick(kept.trust.bno),
            cnt: is_sick(kept.trust.cnt),
            rmap: is_sick(kept.trust.rmap),
        },
    }
}
