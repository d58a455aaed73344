ghost use Rattle.std.specs.Prelude.{◌≡◌, ◌+◌, ◌*◌, ◌^◌, ◌<◌, ◌≤◌, ℕ, List, Option, Some, IfOk, IfErr, OnOk};
ghost use Rattle.tree_defs.specs.declared.site.Site.{Site as GhostSite};
ghost use Rattle.blk_device.specs.Causes.{HasCause};
ghost use Rattle.tree_blocks.specs.Reading.{ReadsBy, is_failed};

use crate::tree::WalkFault;
use byte_fields::Block;

/// The blocks of a group, read one at a time.
pub trait Blocks {
    // The group's blocks, where they are told.
    ghost told: { Self → Option (ℕ → List ℕ) };

    // Where they lie.
    ghost place: { Self → GhostSite };

    // How often a call of the device has failed.
    ghost faults: { Self → ℕ };

    // How many blocks were counted as read.
    ghost count: { Self → ℕ };

    // What each read keeps of what lies below.
    ghost follows: { Self → Self → Type 0 };

    /// Reads a block into one that is lent; where it fails the bytes may be any.
    fn load_into(&mut self, p: u32, into: &mut Block) -> Result<(), WalkFault>
        requires inside { p < (place self.old).bounds.length }
        ensures told { OnOk result ((m : ℕ → List ℕ) → told self.old ≡ Some m → into.new.bytes ≡ m p) }
        ensures failed { IfErr result (λ fault. fault ≡ WalkFault.Failed) }
        ensures reading { ReadsBy told place faults follows self.old self.new }
        ensures cause { HasCause is_failed (faults self.old) (faults self.new) result }
        ensures one { count self.new ≡ count self.old + 1 };

    /// Reads a block.
    final fn load(&mut self, p: u32) -> Result<Block, WalkFault>
    where
        Self: Sized,
        requires inside { p < (place self.old).bounds.length }
        ensures told { IfOk result (λ block. (m : ℕ → List ℕ) → told self.old ≡ Some m → block.bytes ≡ m p) }
        ensures failed { IfErr result (λ fault. fault ≡ WalkFault.Failed) }
        ensures reading { ReadsBy told place faults follows self.old self.new }
        ensures cause { HasCause is_failed (faults self.old) (faults self.new) result }
        ensures one { count self.new ≡ count self.old + 1 }
    {
        let mut block = Block::zeroed();
        self.load_into(p, &mut block)?;
        Ok(block)
    }

    ghost fits: { (s : Self) → 8 * ((place s).first + (place s).bounds.length) < 2 ^ 64 };

    ghost follows_refl: { (s : Self) → follows s s };

    ghost follows_trans: { (a b c : Self) → follows a b → follows b c → follows a c };
}
