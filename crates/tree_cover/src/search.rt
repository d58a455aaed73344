ghost use Rattle.std.specs.Prelude.{◌≡◌, List, ℕ, ◌+◌, ◌-◌, ◌<◌, ◌≤◌, IfOk, IfErr, IfSome, Some};
ghost use Rattle.tree_blocks.specs.Meets.{IsNoMemory};
ghost use Rattle.tree_blocks.specs.Calls.{Reads};
ghost use Rattle.blk_device.specs.Causes.{HasCause};
ghost use Rattle.tree_blocks.specs.Reading.{is_failed};
ghost use Rattle.tree_cover.specs.Covers.{IsSought};
ghost use Rattle.tree_cover.specs.Covering.{spare_in, spare_of as spare_of_lem, resumed, cover_in};
ghost use Rattle.tree_cover.specs.Found.{MeetsSearch, IsSpare, most_behind};

use crate::entry::{choose, first_child};
use crate::leaf::{Asked, first_met};
use sblock::{RecKind, count_of, data_area};
use tree_blocks::{Blocks, WalkFault, open_block};
use tree_defs::Site;

/// A block of the tree, on this level, that is searched where all before it gives no record.
#[derive(Clone, Copy)]
pub struct Spare {
    pub level: u8,
    pub block: u32,
}

// Searches the subtree of a spare: of each node, the first entry that may hold the record.
fn search_spare<K: RecKind, B: Blocks>(
    blocks: &mut B,
    site: &Site,
    level: u8,
    p: u32,
    asked: &Asked<K::Key>,
) -> Result<Option<K::Rec>, WalkFault>
    requires inside { p < site.now.bounds.length }
    requires here { B.place blocks.old ≡ site.now }
    ensures exact { (m : ℕ → List ℕ) → B.told blocks.old ≡ Some m → MeetsSearch (spare_in K.form site.now m asked.now.run asked.now.after level p) result }
    ensures sought { IfOk result (λ found. IfSome found (IsSought K.form site.now.bounds asked.now.run asked.now.after)) }
    ensures no_memory { IfErr result IsNoMemory }
    ensures reading { Reads B.Blocks blocks.old blocks.new }
    ensures cause { HasCause is_failed (B.faults blocks.old) (B.faults blocks.new) result }
    ensures few { B.count blocks.new ≤ B.count blocks.old + (level + 1) }
{
    let block = open_block::<K, B>(blocks, site, level, false, p)?;
    let area = data_area(&block);
    let n = count_of(&block);
    if level == 0 {
        return Ok(first_met::<K>(area, n, asked));
    }
    match first_child::<K>(area, 0, n, asked) {
        None => Ok(None),
        Some(child) => { search_spare::<K, B>(blocks, site, level - 1, child, asked) }
    }
}

// The spare for the subtree of a child: its next one, on this level, or else the old spare.
fn spare_of(level: u8, spare: Option<Spare>, next: Option<u32>) -> Option<Spare>
    ensures { result ≡ spare_of_lem level spare next }
{
    match next {
        None => spare,
        Some(block) => Some(Spare { level, block }),
    }
}

// Searches the subtree of the spare, if there is one.
fn resume<K: RecKind, B: Blocks>(
    blocks: &mut B,
    site: &Site,
    spare: Option<Spare>,
    asked: &Asked<K::Key>,
) -> Result<Option<K::Rec>, WalkFault>
    requires spare { IsSpare site.now.bounds.length 0 spare }
    requires here { B.place blocks.old ≡ site.now }
    ensures exact { (m : ℕ → List ℕ) → B.told blocks.old ≡ Some m → MeetsSearch (resumed K.form site.now m asked.now.run asked.now.after spare) result }
    ensures sought { IfOk result (λ found. IfSome found (IsSought K.form site.now.bounds asked.now.run asked.now.after)) }
    ensures no_memory { IfErr result IsNoMemory }
    ensures reading { Reads B.Blocks blocks.old blocks.new }
    ensures cause { HasCause is_failed (B.faults blocks.old) (B.faults blocks.new) result }
    ensures few { B.count blocks.new ≤ B.count blocks.old + most_behind 0 spare }
{
    match spare {
        None => Ok(None),
        Some(spare) => { search_spare::<K, B>(blocks, site, spare.level, spare.block, asked) }
    }
}

/// Searches a subtree for the record that is asked for: of each node the first entry that may hold
/// it, and where that way gives none, the subtree of the lowest entry that was next.
pub fn search<K: RecKind, B: Blocks>(
    blocks: &mut B,
    site: &Site,
    level: u8,
    root: bool,
    p: u32,
    spare: Option<Spare>,
    asked: &Asked<K::Key>,
) -> Result<Option<K::Rec>, WalkFault>
    requires inside { p < site.now.bounds.length }
    requires spare { IsSpare site.now.bounds.length level spare }
    requires here { B.place blocks.old ≡ site.now }
    ensures exact { (m : ℕ → List ℕ) → B.told blocks.old ≡ Some m → MeetsSearch (cover_in K.form site.now m asked.now.run asked.now.after level root p spare) result }
    ensures sought { IfOk result (λ found. IfSome found (IsSought K.form site.now.bounds asked.now.run asked.now.after)) }
    ensures no_memory { IfErr result IsNoMemory }
    ensures reading { Reads B.Blocks blocks.old blocks.new }
    ensures cause { HasCause is_failed (B.faults blocks.old) (B.faults blocks.new) result }
    ensures few { B.count blocks.new ≤ B.count blocks.old + (level + 1 + most_behind level spare) }
{
    let block = open_block::<K, B>(blocks, site, level, root, p)?;
    let area = data_area(&block);
    let n = count_of(&block);
    if level == 0 {
        match first_met::<K>(area, n, asked) {
            Some(rec) => return Ok(Some(rec)),
            None => return resume::<K, B>(blocks, site, spare, asked),
        }
    }
    match choose::<K>(area, n, asked) {
        None => resume::<K, B>(blocks, site, spare, asked),
        Some(choice) => {
            // One spare, on the lowest level that has one, so two blocks a level are read on any tree.
            let behind = spare_of(level - 1, spare, choice.next);
            search::<K, B>(blocks, site, level - 1, false, choice.first, behind, asked)
        }
    }
}
