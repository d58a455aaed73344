ghost use Rattle.std.proofs.Props.{props};
ghost use Rattle.std.specs.Prelude.{◌+◌, ◌*◌, ◌^◌, ◌<◌, ◌≤◌};
ghost use Rattle.blk_cache.specs.Cache.{AgreesTold};
ghost use Rattle.blk_device.specs.declared.device.Region.TheVariants.{Image};

use crate::blocks::Blocks;
use crate::tree::WalkFault;
use blk_cache::BlkCache;
use blk_device::Device;
use byte_fields::{Block, Steps};
use std::sync::ledger::Ledger;
use tree_defs::Site;

/// The blocks of a group as a device holds them, read through a cache.
#[derive(Drop)]
pub struct Cached<'d, 'c, 's, D: Device, L: Ledger> {
    pub dev: &'d mut D,
    pub cache: &'c mut BlkCache,
    pub site: Site,
    pub steps: &'s mut Steps<L>,
    pub ghost agreed: { AgreesTold cache.now (D.content dev.now) } by { Prim.hlevel props },
    pub ghost room: { site.first + site.bounds.length ≤ D.blocks dev.now Image },
    pub ghost fits: { 8 * (site.first + site.bounds.length) < 2 ^ 64 },
}

impl<'d, 'c, 's, D: Device, L: Ledger> Blocks for Cached<'d, 'c, 's, D, L> {
    ghost use Rattle.tree_blocks.specs.Cached.{blocks_told, Follows};
    ghost use Rattle.tree_blocks.specs.CachedLaws.{follows_self, follows_on};

    ghost told = { λ c. blocks_told c.site (D.content c.dev.now) };

    ghost place = { λ c. c.site };

    ghost faults = { λ c. D.faults c.dev.now };

    ghost count = { λ c. c.steps.now.reads };

    ghost follows = { λ old new. Follows D.Device old.dev new.dev old.cache new.cache old.steps new.steps };

    ghost fits = { λ c. c.fits };

    ghost follows_refl = { λ c. follows_self _ D.only_now D.counts_now c.dev c.cache c.steps };

    ghost follows_trans = { λ a b c. follows_on _ D.only_now D.counts_now a.dev b.dev c.dev a.cache b.cache c.cache a.steps b.steps c.steps };

    fn load_into(&mut self, p: u32, into: &mut Block) -> Result<(), WalkFault> {
        self.steps.block_read();
        let at = self.site.first + u64::from(p);
        self.cache.get(self.dev, at, into)?;
        Ok(())
    }
}
