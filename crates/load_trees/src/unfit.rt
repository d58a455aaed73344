ghost use Rattle.std.specs.Prelude.{◌≡◌};

use bulk_load::Memory;
use std::alloc::AllocError;
use thiserror::Error;

/// Why a list and blocks don't make a tree: the records don't rise strictly; one of them isn't in
/// range; the blocks aren't as many as the tree has, or one isn't a block of the group behind its
/// block 0, or stands twice; or there was no memory.
#[derive(Clone, Copy, Debug, PartialEq, Eq, Error)]
pub enum Unfit {
    #[error("order")]
    Order,
    #[error("range")]
    Range,
    #[error("blocks")]
    Blocks,
    #[error("memory")]
    Memory,
}

impl From<Memory> for Unfit {
    ghost use Rattle.load_trees.specs.declared.unfit.Unfit.TheVariants.{Memory};

    ghost from_gives = { λ _ e. e ≡ Memory };

    fn from(_: Memory) -> Self {
        Unfit::Memory
    }
}

impl From<AllocError> for Unfit {
    ghost use Rattle.load_trees.specs.declared.unfit.Unfit.TheVariants.{Memory};

    ghost from_gives = { λ _ e. e ≡ Memory };

    fn from(_: AllocError) -> Self {
        Unfit::Memory
    }
}
