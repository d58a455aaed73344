ghost use Rattle.std.specs.Prelude.{◌≡◌, ◌<◌, ◌≤◌, [], ◌∷◌, ◌++◌, length, slice_index};
ghost use Rattle.tree_defs.specs.Lists.{is_in};

use std::marker::Model;

/// How many blocks such a list has at most.
pub const MOST_FEW: usize = 48;

/// At most 48 blocks, by their numbers in the group; contracts see the list. It takes no memory.
#[derive(Drop)]
pub struct FewBlocks {
    numbers: [u32; 48],
    count: usize,
}

impl Model for FewBlocks {
    ghost use Rattle.std.specs.Prelude.{ℕ, List, take, ◌≤◌};

    ghost Value = { List ℕ };

    ghost view = { λ s. take s.count s.numbers };

    ghost invariant = { λ s. s.count ≤ 48 };
}

impl FewBlocks {
    /// No blocks.
    pub fn new() -> Self
        ensures { result ≡ [] }
    {
        FewBlocks {
            numbers: [0; 48],
            count: 0,
        }
    }

    /// How many there are.
    pub fn len(&self) -> usize
        ensures count { result ≡ length self.now }
        ensures most { result ≤ 48 }
    {
        self.count
    }

    /// The block in this place of the list, counted from 0.
    pub fn get(&self, i: usize) -> u32
        requires { i < length self.now }
        ensures { result ≡ slice_index self.now i }
    {
        let all = self.as_slice();
        all[i]
    }

    /// Puts a block at the end; there must be room for it.
    pub fn push(&mut self, p: u32)
        requires { length self.old < 48 }
        ensures { self.new ≡ self.old ++ p ∷ [] }
    {
        self.numbers[self.count] = p;
        self.count += 1;
    }

    /// All of them.
    pub fn as_slice(&self) -> &[u32]
        ensures { result.now ≡ self.now }
    {
        let (all, _) = self.numbers.split_at(self.count);
        all
    }
}
