ghost use Rattle.std.specs.Prelude.{◌≡◌};
ghost use Rattle.bulk_load.specs.Shapes.{leaves_for};

use sblock::Kind;

/// How many levels and how many blocks a new tree has; a tree of one leaf has one level.
#[derive(Clone, Copy, Debug, PartialEq, Eq)]
pub struct Shape {
    pub levels: u32,
    pub blocks: u64,
}

// One level: what its blocks hold together, how many blocks they are, and how many blocks the
// levels below have.
#[derive(Clone, Copy)]
pub(crate) struct Row {
    pub items: u64,
    pub width: u64,
    pub start: u64,
}

#[tactic(auto, unfolding(crate::specs::Shapes::leaves_for))]
fn leaves_for(records: u64, kind: Kind) -> u64
    ensures { result ≡ leaves_for kind records }
{
    if records == 0 {
        return 1;
    }
    records.div_ceil(u64::from(kind.leaf_most()))
}

impl Row {
    ghost use Rattle.std.specs.Prelude.{◌≡◌, ◌+◌, ◌<◌, ◌≤◌, ◌^◌, ℕ, suc};
    ghost use Rattle.bulk_load.specs.Shapes.{share, first_of, width, items, start, HasLevel, IsRow};

    // The leaves of a tree of so many records.
    #[tactic(auto, unfolding(crate::specs::Shapes::width, crate::specs::Shapes::items, crate::specs::Shapes::start))]
    pub(crate) fn leaves(records: u64, kind: Kind) -> Self
        ensures { IsRow kind records 0 result }
    {
        Row {
            items: records,
            width: leaves_for(records, kind),
            start: 0,
        }
    }

    // The level above, where this one has several blocks.
    #[tactic(auto, using(crate::proofs::ShapeLemmas::few_blocks, crate::proofs::ShapeLemmas::few_leaves), unfolding(crate::specs::Shapes::width, crate::specs::Shapes::items, crate::specs::Shapes::start))]
    pub(crate) fn above(&self, kind: Kind) -> Self
        requires fits { self.now.start + self.now.width < 2 ^ 64 }
        ensures { (n j : ℕ) → IsRow kind n j self.now → IsRow kind n (suc j) result }
    {
        Row {
            items: self.width,
            width: self.width.div_ceil(u64::from(kind.node_most())),
            start: self.start + self.width,
        }
    }

    // Level `level` of a tree of so many records.
    pub(crate) fn of_level(records: u64, kind: Kind, level: u32) -> Self
        requires { HasLevel kind records level }
        ensures { IsRow kind records level result }
    {
        let mut row = Row::leaves(records, kind);
        for below in 0..level {
            row = row.above(kind);
        }
        row
    }

    // What block `i` of the level holds.
    #[tactic(auto, unfolding(crate::specs::Shapes::share))]
    pub(crate) fn share(&self, i: u64) -> u64
        requires some { 1 ≤ self.now.width }
        requires fits { share self.now.items self.now.width i < 2 ^ 64 }
        ensures { result ≡ share self.now.items self.now.width i }
    {
        let more = if i < self.items % self.width { 1 } else { 0 };
        self.items / self.width + more
    }

    // The first item of block `i`, or the number of items where `i` is the number of blocks.
    #[tactic(auto, using(crate::proofs::Numbers::firsts_fit), unfolding(crate::specs::Shapes::first_of))]
    pub(crate) fn first(&self, i: u64) -> u64
        requires some { 1 ≤ self.now.width }
        requires within { i ≤ self.now.width }
        ensures exact { result ≡ first_of self.now.items self.now.width i }
        ensures within { result ≤ self.now.items }
    {
        i * (self.items / self.width) + i.min(self.items % self.width)
    }
}
