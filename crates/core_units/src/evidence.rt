// The first evidence against the derivation of a unit, in its order.
ghost use Rattle.std.specs.Prelude.{◌≡◌, None, if◌then◌else◌, map};
ghost use Rattle.fs_state.specs.Lists.{first_of_all};
ghost use Rattle.quiet_check.specs.Chunks.{bad_where};
ghost use Rattle.run_sets.specs.Runs.{AreMaximal};

use fs_model::{Evidence, Unit};
use group_trees::GroupTrees;
use index_derive::has_unit;
use inode_pass::UnitSeen;
use quiet_check::{Listed, later_in, tree_evidence};
use run_sets::Run;
use sblock::Kind;

// Evidence that counts, or none.
fn counted(found: Option<Evidence>, counts: bool) -> Option<Evidence>
    ensures { result ≡ (if counts then found else None) }
{
    if counts { found } else { None }
}

// The first core of a unit that doesn't verify, where both btrees list the unit.
#[tactic(auto, unfolding(quiet_check::specs::Chunks::bad_where))]
fn bad_of(by_inodes: &[Run], by_owners: &[Run], unit: &UnitSeen) -> Option<Evidence>
    requires by_inodes { AreMaximal 0 by_inodes.now }
    requires by_owners { AreMaximal 0 by_owners.now }
    ensures { result ≡ bad_where by_inodes.now by_owners.now unit.now }
{
    let number = unit.cores.unit;
    let counts = unit.broken.is_some()
        && has_unit(by_inodes, number)
        && has_unit(by_owners, number);
    counted(unit.broken, counts)
}

/// The first core that doesn't verify of a unit that both btrees list
/// (XFS Online Fsck Design, "Cross-Referencing Space Metadata").
pub fn first_bad_chunk(by_inodes: &[Run], by_owners: &[Run], seen: &[UnitSeen]) -> Option<Evidence>
    requires by_inodes { AreMaximal 0 by_inodes.now }
    requires by_owners { AreMaximal 0 by_owners.now }
    ensures { result ≡ first_of_all (map (bad_where by_inodes.now by_owners.now) seen.now) }
{
    for unit in seen {
        if let Some(found) = bad_of(by_inodes, by_owners, unit) {
            return Some(found);
        }
    }
    None
}

/// What the btrees by themselves, and then the cores, say against the derivation of the unit
/// (XFS Online Fsck Design, "Cross-Referencing Space Metadata").
pub fn first_evidence(
    unit: Unit,
    trees: &GroupTrees,
    listed: &Listed,
    seen: &[UnitSeen],
) -> Option<Evidence>
    requires by_inodes { AreMaximal 0 listed.now.by_inodes.items }
    requires by_owners { AreMaximal 0 listed.now.by_owners.items }
{
    match unit {
        Unit::Inode => match tree_evidence(trees) {
            Some(found) => Some(found),
            None => first_bad_chunk(
                listed.by_inodes.as_slice(),
                listed.by_owners.as_slice(),
                seen,
            ),
        },
        Unit::Rmap => later_in(Kind::Rmap, &trees.rmap),
        Unit::Free => match later_in(Kind::Bno, &trees.bno) {
            Some(found) => Some(found),
            None => later_in(Kind::Cnt, &trees.cnt),
        },
        Unit::Refc => later_in(Kind::Refc, &trees.refc),
    }
}
