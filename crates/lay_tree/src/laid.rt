// The blocks of the tree, made and written.
ghost use Rattle.std.specs.Prelude.{◌≡◌, ◌+◌, ◌*◌, ◌^◌, ◌<◌};
ghost use Rattle.std.specs.Bool.{OnTrue};

use crate::given::Given;
use crate::kinds::Named;
use anyhow::{Result, ensure};
use byte_fields::{Block, Steps};
use load_trees::{Unfit, load_tree};
use sblock::RecKind;
use std::alloc::Global;
use std::io::{self, Write};
use std::marker::Brand;
use std::sync::ledger::{Blank, Ledger};
use tree_defs::Site;

// No device has as many blocks.
const MOST_FIRST: u64 = 1 << 59;

fn loaded<K: RecKind, L: Ledger>(
    alloc: Global,
    list: &[K::Rec],
    given: &Given,
    blank: Blank,
) -> Result<Vec<(u32, Block)>, Unfit>
    requires fits { 8 * (given.now.site.first + given.now.site.bounds.length) < 2 ^ 64 }
    requires name { blank.name ≡ L.name }
    requires parts { blank.parts ≡ L.parts }
    requires three { blank.parts ≡ 3 }
{
    let mut steps = Steps::<L>::new(blank);
    load_tree::<K, L>(
        alloc,
        list,
        &given.site,
        given.lsn,
        &given.claimed,
        &mut steps,
    )
}

// The tree's blocks, for a caller that counts no steps.
fn tree_of<K: RecKind>(
    alloc: Global,
    list: &[K::Rec],
    given: &Given,
) -> Result<Vec<(u32, Block)>, Unfit>
    requires { 8 * (given.now.site.first + given.now.site.bounds.length) < 2 ^ 64 }
{
    let blank = Blank::new(3);
    loaded::<K, Brand>(alloc, list, given, blank)
}

fn does_fit(site: &Site) -> bool
    ensures { OnTrue result (8 * (site.now.first + site.now.bounds.length) < 2 ^ 64) }
{
    let _length = site.bounds.length;
    site.first < MOST_FIRST
}

/// Writes the blocks of the tree of these rows to standard output.
pub fn write_tree<K: Named, R: Print + AllocGlobal>(rt: &R, given: &Given) -> Result<()> {
    let alloc = rt.alloc();
    let mut list = Vec::new(alloc);
    for row in &given.rows {
        list.push(K::rec_of(row))?;
    }
    ensure!(does_fit(&given.site), "the group lies too far behind");
    let mut out = io::writer(rt);
    for (_, block) in &tree_of::<K>(alloc, &list, given)? {
        out.write_all(&block.bytes)?;
    }
    Ok(())
}
