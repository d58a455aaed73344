ghost use Rattle.std.specs.Prelude.{◌≡◌, ◌+◌, ◌≤◌, ◌++◌, IfOk, OnOk};
ghost use Rattle.fs_state.specs.Lists.{numbers};
ghost use Rattle.inode_pass.specs.Units.{units_in};
ghost use Rattle.run_sets.specs.Runs.{EndWithin, most};

use run_sets::Run;
use std::alloc::{AllocError, Global};

// Puts down the blocks of a run.
fn put_run(blocks: &mut Vec<u32>, run: &Run) -> Result<(), AllocError>
    requires { run.now.start + run.now.count ≤ most }
    ensures { OnOk result (blocks.new.items ≡ blocks.old.items ++ numbers run.now.start run.now.count) }
{
    for i in 0..run.count {
        blocks.push(run.start + i)?;
    }
    Ok(())
}

/// The blocks of runs, one after the other (XFS Online Fsck Design, "Disposing of Old Metadata
/// Blocks").
pub fn blocks_in(alloc: Global, runs: &[Run]) -> Result<Vec<u32>, AllocError>
    requires { EndWithin most runs.now }
    ensures { IfOk result (λ blocks. blocks.items ≡ units_in runs.now) }
{
    let mut blocks = Vec::new(alloc);
    for run in runs {
        put_run(&mut blocks, run)?;
    }
    Ok(blocks)
}
