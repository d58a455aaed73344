ghost use Rattle.std.proofs.Props.{props};
ghost use Rattle.std.specs.Prelude.{◌≡◌, ◌+◌, ◌*◌, ◌^◌, ◌<◌, ◌≤◌, length, IfErr, IfOk, IfSome};
ghost use Rattle.blk_device.specs.Reading.{OnlyRead};
ghost use Rattle.blk_device.specs.Causes.{HasCause};
ghost use Rattle.tree_blocks.specs.Meets.{IsNoMemory};
ghost use Rattle.tree_blocks.specs.Reading.{is_failed};
ghost use Rattle.tree_find.specs.Find.{find_in, way_of};
ghost use Rattle.tree_find.specs.Laws.{IsFound};
ghost use Rattle.tree_find.specs.Meets.{Meets};
ghost use Rattle.tree_walk.specs.Meets.{MeetsTreeAt};
ghost use Rattle.tree_walk.specs.Trails.{AreSound, LieInside};
ghost use Rattle.txn_blocks.specs.Through.{OfEdited, Counts, FindsIn, Lasts};
ghost use Rattle.blk_cache.specs.Cache.{AgreesTold};
ghost use Rattle.blk_device.specs.declared.device.Region.TheVariants.{Image};

use blk_cache::BlkCache;
use blk_device::Device;
use byte_fields::{Block, Steps};
use meta_txn::Txn;
use sblock::RecKind;
use std::alloc::Global;
use std::sync::ledger::Ledger;
use tree_blocks::{Blocks, TreeAt, TreeRead, WalkFault};
use tree_defs::Site;
use tree_find::find_site;
use tree_walk::walk_site;

/// The blocks of a group as a transaction has changed them: those that are joined as they are
/// joined, and the others read through a cache. A read joins nothing, and each is counted, also of a
/// block that is joined.
#[derive(Drop)]
pub struct Edited<'d, 'c, 's, 't, D: Device, L: Ledger> {
    pub dev: &'d mut D,
    pub cache: &'c mut BlkCache,
    pub txn: &'t mut Txn,
    pub site: Site,
    pub steps: &'s mut Steps<L>,
    pub ghost agreed: { AgreesTold cache.now (D.content dev.now) } by { Prim.hlevel props },
    pub ghost room: { site.first + site.bounds.length ≤ D.blocks dev.now Image },
    pub ghost fits: { 8 * (site.first + site.bounds.length) < 2 ^ 64 },
}

impl<'d, 'c, 's, 't, D: Device, L: Ledger> Blocks for Edited<'d, 'c, 's, 't, D, L> {
    ghost use Rattle.tree_blocks.specs.Cached.{Follows};
    ghost use Rattle.txn_blocks.specs.Through.{changed, Lasts};
    ghost use Rattle.txn_blocks.specs.ThroughLaws.{lasts_self, lasts_on};

    ghost told = { λ c. changed c.site c.txn.now (D.content c.dev.now) };

    ghost place = { λ c. c.site };

    ghost faults = { λ c. D.faults c.dev.now };

    ghost count = { λ c. c.steps.now.reads };

    ghost follows = { λ old new. Lasts D.Device old.dev new.dev old.cache new.cache old.steps new.steps old.txn new.txn };

    ghost fits = { λ c. c.fits };

    ghost follows_refl = { λ c. lasts_self _ D.only_now D.counts_now c.dev c.cache c.steps c.txn };

    ghost follows_trans = { λ a b c. lasts_on _ D.only_now D.counts_now a.dev b.dev c.dev a.cache b.cache c.cache a.steps b.steps c.steps a.txn b.txn c.txn };

    fn load_into(&mut self, p: u32, into: &mut Block) -> Result<(), WalkFault> {
        self.steps.block_read();
        let at = self.site.first + u64::from(p);
        if let Some(block) = self.txn.joined(at) {
            *into = block;
            return Ok(());
        }
        self.cache.get(self.dev, at, into)?;
        Ok(())
    }
}

/// The record with an equal key of a tree as the transaction has changed it, none where there is
/// none; nothing is joined (XFS Algorithms and Data Structures, "Short Format B+trees").
pub fn find_edited<K: RecKind, D: Device, L: Ledger>(
    edit: &mut Edited<D, L>,
    tree: &TreeAt,
    key: &K::Key,
) -> Result<Option<K::Rec>, WalkFault>
    ensures exact { OfEdited edit.old.site edit.old.txn.now (D.content edit.old.dev.now)
        (λ m. Meets (find_in K.form edit.old.site m tree.now.root tree.now.levels key.now) result) }
    ensures right { OfEdited edit.old.site edit.old.txn.now (D.content edit.old.dev.now) (λ m. FindsIn K.form edit.old.site m tree.now key.now result) }
    ensures sound { IfOk result (λ found. IfSome found (λ rec. IsFound K.form edit.old.site.bounds key.now rec)) }
    ensures no_memory { IfErr result IsNoMemory }
    ensures few { edit.new.steps.now.reads ≤ edit.old.steps.now.reads + way_of tree.now.levels }
    ensures site { edit.new.site ≡ edit.old.site }
    ensures joined { edit.new.txn.now ≡ edit.old.txn.now }
    ensures reading { OnlyRead D.Device edit.old.dev.now edit.new.dev.now edit.old.steps.now edit.new.steps.now }
    ensures lasts { Lasts D.Device edit.old.dev edit.new.dev edit.old.cache edit.new.cache edit.old.steps edit.new.steps edit.old.txn edit.new.txn }
    ensures cause { HasCause is_failed (D.faults edit.old.dev.now) (D.faults edit.new.dev.now) result }
{
    let site = edit.site;
    find_site::<K, Edited<D, L>>(edit, &site, tree, key)
}

/// The records and blocks of a tree as the transaction has changed it, or its first fault; nothing is
/// joined (XFS Algorithms and Data Structures, "Short Format B+trees").
pub fn walk_edited<K: RecKind, D: Device, L: Ledger>(
    alloc: Global,
    edit: &mut Edited<D, L>,
    tree: &TreeAt,
) -> Result<TreeRead<K::Rec>, WalkFault>
    ensures exact { OfEdited edit.old.site edit.old.txn.now (D.content edit.old.dev.now)
        (λ m. MeetsTreeAt K.form edit.old.site m tree.now result) }
    ensures counted { Counts K.form edit.old.site edit.old.txn.now (D.content edit.old.dev.now)
        tree.now edit.old.steps.now.reads edit.new.steps.now.reads result }
    ensures sound { IfOk result (λ read. AreSound K.form edit.old.site.bounds read.recs.items) }
    ensures lie { IfOk result (λ read. LieInside edit.old.site.bounds.length read.blocks.items) }
    ensures joined { edit.new.txn.now ≡ edit.old.txn.now }
    ensures site { edit.new.site ≡ edit.old.site }
    ensures lasts { Lasts D.Device edit.old.dev edit.new.dev edit.old.cache edit.new.cache edit.old.steps edit.new.steps edit.old.txn edit.new.txn }
    ensures reading { OnlyRead D.Device edit.old.dev.now edit.new.dev.now edit.old.steps.now edit.new.steps.now }
    ensures cause { HasCause is_failed (D.faults edit.old.dev.now) (D.faults edit.new.dev.now) result }
    ensures each { IfOk result (λ read. edit.new.steps.now.reads ≡ edit.old.steps.now.reads + length read.blocks.items) }
{
    let site = edit.site;
    walk_site::<K, Edited<D, L>>(alloc, edit, &site, tree)
}
