ghost use Rattle.std.specs.Prelude.{◌≡◌, ℕ, List};
ghost use Rattle.over_blocks.specs.Over.{over};

use byte_fields::Block;
use tree_blocks::{Blocks, WalkFault};

/// The blocks of a group, with these in the place of those with their numbers. Each read is counted as one
/// below (XFS Algorithms and Data Structures, "Short Format B+trees").
#[derive(Drop)]
pub struct Over<'b, 'p, B: Blocks> {
    pub under: &'b mut B,
    pub placed: &'p [(u32, Block)],
}

// Copies the last of the blocks with this number over the one that is lent, if there is one.
fn copy_over(placed: &[(u32, Block)], p: u32, into: &mut Block)
    ensures last { (m : ℕ → List ℕ) → into.old.bytes ≡ m p → into.new.bytes ≡ over placed.now m p }
{
    for (number, block) in placed {
        if *number == p {
            *into = *block;
        }
    }
}

impl<'b, 'p, B: Blocks> Blocks for Over<'b, 'p, B> {
    ghost use Rattle.over_blocks.specs.Over.{told_over};
    ghost use Rattle.over_blocks.specs.Lasts.{Lasts};
    ghost use Rattle.over_blocks.specs.LastsLaws.{lasts_self, lasts_on};

    ghost told = { λ c. told_over c.placed.now (B.told c.under.now) };

    ghost place = { λ c. B.place c.under.now };

    ghost faults = { λ c. B.faults c.under.now };

    ghost count = { λ c. B.count c.under.now };

    ghost follows = { λ old new. Lasts B.Blocks old.under new.under old.placed.now new.placed.now };

    ghost fits = { λ c. B.fits c.under.now };

    ghost follows_refl = { λ c. lasts_self _ B.follows_refl c.under c.placed.now };

    ghost follows_trans = { λ a b c. lasts_on _ B.follows_trans a.under b.under c.under a.placed.now b.placed.now c.placed.now };

    fn load_into(&mut self, p: u32, into: &mut Block) -> Result<(), WalkFault> {
        self.under.load_into(p, into)?;
        copy_over(self.placed, p, into);
        Ok(())
    }
}
