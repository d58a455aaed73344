ghost use Rattle.std.specs.Prelude.{◌≡◌, ◌<◌};
ghost use Rattle.bulk_load.specs.Shapes.{width, count, HasLevel, IsShape};

use crate::rows::{Row, Shape};
use sblock::Kind;

/// What a new tree of `n` records of this kind looks like: each level has as few blocks as can
/// hold what is below it, up to a level of one block. It costs one step a level.
pub fn shape(n: u64, kind: Kind) -> Shape
    ensures { IsShape kind n result.levels result.blocks }
{
    let mut row = Row::leaves(n, kind);
    let mut levels = 1;
    // From the leaves up, so that a block needs nothing but the list, its claimed block and its number.
    while row.width > 1 {
        row = row.above(kind);
        levels += 1;
    }
    Shape {
        levels,
        blocks: row.start + row.width,
    }
}

/// How many records (`level` 0) or children block `i` of a level of such a tree has: as many as
/// every other of the level, but that the first ones have one more where they don't come out even.
/// The condition is that the shape has the level, and the level the block. It costs one step a level.
pub fn counts(n: u64, kind: Kind, level: u32, i: u64) -> u32
    requires level { HasLevel kind n level }
    requires block { i < width kind n level }
    ensures { result ≡ count kind n level i }
{
    let row = Row::of_level(n, kind, level);
    row.share(i) as u32
}
