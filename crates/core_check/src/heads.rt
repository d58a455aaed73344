ghost use Rattle.std.specs.Prelude.{IfOk};
ghost use Rattle.core_check.specs.Entries.{IsListed};

use core_edit::EditHeads;
use group_trees::{GroupHeads, free_list};
use std::alloc::{AllocError, Global};

/// The heads with the free list as its entries. No memory is the one refusal.
pub(crate) fn listed_heads(alloc: Global, heads: &EditHeads) -> Result<GroupHeads, AllocError>
    ensures listed { IfOk result (IsListed heads.now) }
{
    let list = free_list(alloc, &heads.list)?;
    Ok(GroupHeads {
        agf: heads.agf,
        agi: heads.agi,
        list,
    })
}
