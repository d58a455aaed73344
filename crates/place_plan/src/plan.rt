ghost use Rattle.std.specs.Prelude.{◌≡◌, ◌<◌, ◌≤◌, [], ◌∷◌, ◌++◌, length};

use crate::few::FewBlocks;

/// The blocks of the tree that an edit changes or frees, and how many blocks of the free list it takes
/// (XFS Algorithms and Data Structures, "Short Format B+trees").
#[derive(Drop)]
pub struct Plan {
    pub touched: FewBlocks,
    pub need: u32,
}

impl Plan {
    /// A plan that changes nothing.
    pub fn new() -> Self
        ensures none { result.touched ≡ [] }
        ensures need { result.need ≡ 0 }
    {
        Plan {
            touched: FewBlocks::new(),
            need: 0,
        }
    }
}
