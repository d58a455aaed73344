ghost use Rattle.std.specs.Prelude.{◌≡◌, ◌++◌, None, IfOk, OnOk, if◌then◌else◌, map};
ghost use Rattle.fs_state.specs.Lists.{first_of_all};
ghost use Rattle.quiet_check.specs.Chunks.{bad_where, chunk_from, chunk_numbers};
ghost use Rattle.run_sets.specs.Runs.{AreMaximal};

use fs_model::Evidence;
use index_derive::has_unit;
use inode_pass::UnitSeen;
use run_sets::Run;
use std::alloc::{AllocError, Global};

// Puts down a unit whose cores all verify.
fn put_chunk(chunks: &mut Vec<u32>, unit: &UnitSeen) -> Result<(), AllocError>
    ensures { OnOk result (chunks.new.items ≡ chunks.old.items ++ chunk_from unit.now) }
{
    if unit.cores.free.is_none() {
        return Ok(());
    }
    chunks.push(unit.cores.unit)?;
    Ok(())
}

/// The units whose cores all verify, which are the chunks of their group where the units are those
/// that one of the two btrees lists (XFS Algorithms and Data Structures, "Inode B+trees").
pub fn chunks_of(alloc: Global, seen: &[UnitSeen]) -> Result<Vec<u32>, AllocError>
    ensures { IfOk result (λ chunks. chunks.items ≡ chunk_numbers seen.now) }
{
    let mut chunks = Vec::new(alloc);
    for unit in seen {
        put_chunk(&mut chunks, unit)?;
    }
    Ok(chunks)
}

// Evidence that counts, or none.
fn counted(found: Option<Evidence>, counts: bool) -> Option<Evidence>
    ensures { result ≡ (if counts then found else None) }
{
    if counts { found } else { None }
}

// The first core of a unit that doesn't verify, where both btrees list the unit.
#[tactic(auto, unfolding(crate::specs::Chunks::bad_where))]
fn bad_of(by_inodes: &[Run], by_owners: &[Run], unit: &UnitSeen) -> Option<Evidence>
    requires by_inodes { AreMaximal 0 by_inodes.now }
    requires by_owners { AreMaximal 0 by_owners.now }
    ensures { result ≡ bad_where by_inodes.now by_owners.now unit.now }
{
    let number = unit.cores.unit;
    let counts = unit.broken.is_some()
        && has_unit(by_inodes, number)
        && has_unit(by_owners, number);
    counted(unit.broken, counts)
}

/// The first core that doesn't verify of a unit that both btrees list: `by_inodes` are the units
/// that the inode btree lists, and `by_owners` those whose blocks the reverse mappings give to chunks
/// (XFS Online Fsck Design, "Cross-Referencing Space Metadata").
pub fn first_bad_chunk(by_inodes: &[Run], by_owners: &[Run], seen: &[UnitSeen]) -> Option<Evidence>
    requires by_inodes { AreMaximal 0 by_inodes.now }
    requires by_owners { AreMaximal 0 by_owners.now }
    ensures { result ≡ first_of_all (map (bad_where by_inodes.now by_owners.now) seen.now) }
{
    for unit in seen {
        if let Some(found) = bad_of(by_inodes, by_owners, unit) {
            return Some(found);
        }
    }
    None
}
