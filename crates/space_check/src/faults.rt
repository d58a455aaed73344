ghost use Rattle.std.specs.Prelude.{◌≡◌, ◌+◌, ◌-◌, ◌%◌, ◌^◌, [], ◌∷◌, ◌++◌, IfOk};
ghost use Rattle.sblock.specs.Blocks.{IsRising};
ghost use Rattle.space_check.specs.Faults.{index_faults as index_faults_of, counter_fault, blocks_fault, blocks_of as blocks_in, beside_roots as beside_roots_of};
ghost use Rattle.space_check.specs.Reads.{reading_of, RisesIfRead};

use crate::reads::IndexRead;
use fs_model::{Counter, Fault};
use sblock::BlockFault;
use std::alloc::{AllocError, Global};
use xref_scrub::{Indexed, compare};

/// The one fault of a tree that can't be read: its block, group-relative, with the test that fails
/// there. No memory is the one refusal
/// (XFS Algorithms and Data Structures, "Short Format B+trees").
pub fn unreadable<K: Indexed>(
    alloc: Global,
    block: u32,
    fault: BlockFault,
) -> Result<Vec<Fault>, AllocError>
    ensures { IfOk result (λ faults. faults.items ≡ Fault.Block K.form.kind block fault ∷ []) }
{
    let mut faults = Vec::new(alloc);
    faults.push(Fault::Block {
        kind: K::kind(),
        block,
        fault,
    })?;
    Ok(faults)
}

/// The faults of an index against what is derived: the one fault that it can't be read, or each
/// difference in key order. No memory is the one refusal
/// (XFS Online Fsck Design, "Cross-Referencing Space Metadata").
pub fn index_faults<K: Indexed>(
    alloc: Global,
    index: &IndexRead<K::Rec>,
    derived: &[K::Rec],
) -> Result<Vec<Fault>, AllocError>
    requires index { RisesIfRead K.form index.now }
    requires derived { IsRising K.form derived.now }
    ensures { IfOk result (λ faults. faults.items ≡ index_faults_of K.form K.shown derived.now (reading_of index.now)) }
{
    match index {
        IndexRead::Whole(read) => compare::<K>(alloc, read.recs.as_slice(), derived),
        IndexRead::Bad { block, fault } => unreadable::<K>(alloc, *block, *fault),
    }
}

/// Adds the fault of a counter of the AGF whose number isn't the one that is wanted
/// (XFS Algorithms and Data Structures, "AG Free Space Block").
pub fn add_counter(
    faults: &mut Vec<Fault>,
    name: Counter,
    found: u32,
    wanted: u32,
) -> Result<(), AllocError>
    ensures { IfOk result (λ _. faults.new.items ≡ faults.old.items ++ counter_fault name found wanted) }
{
    if found == wanted {
        return Ok(());
    }
    faults.push(Fault::Counter {
        name,
        found,
        wanted,
    })?;
    Ok(())
}

/// Adds the fault of a counter of blocks, where the trees that it counts can be read
/// (XFS Algorithms and Data Structures, "AG Free Space Block").
pub fn add_blocks(
    faults: &mut Vec<Fault>,
    name: Counter,
    found: u32,
    wanted: Option<u32>,
) -> Result<(), AllocError>
    ensures { IfOk result (λ _. faults.new.items ≡ faults.old.items ++ blocks_fault name found wanted) }
{
    match wanted {
        Some(wanted) => add_counter(faults, name, found, wanted),
        None => Ok(()),
    }
}

/// How many blocks a tree that can be read has, as a counter of 32 bits
/// (XFS Algorithms and Data Structures, "AG Free Space Block").
pub fn blocks_of<R>(index: &IndexRead<R>) -> Option<u32>
    ensures { result ≡ blocks_in (reading_of index.now) }
{
    match index {
        IndexRead::Whole(read) => Some((read.blocks.len() % (1 << 32)) as u32),
        IndexRead::Bad { .. } => None,
    }
}

// The blocks of three trees of so many blocks beside their roots, as a counter of 32 bits.
fn without_roots(first: usize, second: usize, third: usize) -> u32
    ensures { result ≡ (first + second + third - 3) % 2 ^ 32 }
{
    let blocks = first as u128 + second as u128 + third as u128;
    (blocks.saturating_sub(3) % (1 << 32)) as u32
}

/// How many blocks three trees have beside their roots, where the first two can be read; the third
/// has `third` blocks (XFS Algorithms and Data Structures, "AG Free Space Block").
pub fn beside_roots<R, S>(first: &IndexRead<R>, second: &IndexRead<S>, third: usize) -> Option<u32>
    ensures { result ≡ beside_roots_of (reading_of first.now) (reading_of second.now) third }
{
    let IndexRead::Whole(first) = first else {
        return None;
    };
    let IndexRead::Whole(second) = second else {
        return None;
    };
    Some(without_roots(first.blocks.len(), second.blocks.len(), third))
}
