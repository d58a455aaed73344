ghost use Rattle.std.specs.Prelude.{◌≡◌, ◌≤◌, IfOk};
ghost use Rattle.sblock.specs.Blocks.{numrecs, records_of};
ghost use Rattle.sblock.specs.Kinds.{leaf_most_of};

use crate::area::data_area;
use crate::header::count_of;
use crate::rec_kind::RecKind;
use byte_fields::Block;
use std::alloc::{AllocError, Global};

/// The records of a leaf that was verified, in their order. No memory is the one refusal.
#[tactic(auto, using(crate::proofs::ListLemmas::no_items, crate::proofs::ListLemmas::one_more_item), unfolding(crate::specs::Blocks::records_of))]
pub fn leaf_records<K: RecKind>(alloc: Global, block: &Block) -> Result<Vec<K::Rec>, AllocError>
    requires { numrecs block.now.bytes ≤ leaf_most_of K.form.kind }
    ensures { IfOk result (λ v. v.items ≡ records_of K.form block.now.bytes) }
{
    let area = data_area(block);
    let mut records = Vec::new(alloc);
    for i in 0..count_of(block) {
        records.push(K::record_at(area, i as usize))?;
    }
    Ok(records)
}
