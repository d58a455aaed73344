ghost use Rattle.std.specs.Prelude.{◌≡◌, ◌<◌, ◌≤◌, IfOk, IfErr, IfSome};
ghost use Rattle.blk_cache.specs.Cache.{AgreesTold};
ghost use Rattle.blk_device.specs.Causes.{HasCause};
ghost use Rattle.blk_device.specs.Reading.{OnlyRead};
ghost use Rattle.blk_device.specs.declared.device.Region.TheVariants.{Image};
ghost use Rattle.geom.specs.Places.{layout};
ghost use Rattle.sblock.specs.declared.kind.Kind.TheVariants.{Ino};
ghost use Rattle.tree_blocks.specs.Meets.{IsNoMemory};
ghost use Rattle.tree_blocks.specs.Reading.{is_failed};
ghost use Rattle.tree_blocks.specs.Told.{OfTree};
ghost use Rattle.tree_find.specs.Meets.{Meets};
ghost use Rattle.inode_scan.specs.Search.{IsRightFirst, Rise, search_in, reads_in};

use crate::search::search_site;
use blk_cache::BlkCache;
use blk_device::Device;
use byte_fields::Steps;
use geom::Geometry;
use std::sync::ledger::Ledger;
use tree_blocks::{Cached, TreeAt, WalkFault};
use tree_defs::Site;

/// The lowest allocated inode of a group whose number, relative to the group, lies from `from` on and
/// below `end`; none where there is none. Each block on the way and each one that is passed is read
/// once, and no memory is taken. The first block that fails its tests by itself is told with its
/// fault; a root outside the group is Range, and a count of levels that no tree has is Level at the
/// root, or Magic before it (XFS Algorithms and Data Structures, "Inode B+trees").
pub fn next_in_group<D: Device, L: Ledger>(
    dev: &mut D,
    cache: &mut BlkCache,
    geo: &Geometry,
    tree: &TreeAt,
    from: u32,
    end: u32,
    steps: &mut Steps<L>,
) -> Result<Option<u32>, WalkFault>
    requires kind { tree.now.kind ≡ Ino }
    requires group { tree.now.group < geo.now.agcount }
    requires room { geo.now.dblocks ≤ D.blocks dev.old Image }
    requires agreed { AgreesTold cache.old (D.content dev.old) }
    ensures exact { OfTree (layout geo.now) tree.now (D.content dev.old) (λ s m r n. Meets (search_in s m from end r n) result) }
    ensures right { OfTree (layout geo.now) tree.now (D.content dev.old) (λ s m r n. IsRightFirst s m from end r n result) }
    ensures range { IfOk result (λ found. IfSome found (λ n. (from ≤ n) × (n < end))) }
    ensures no_memory { IfErr result IsNoMemory }
    ensures reading { OnlyRead D.Device dev.old dev.new steps.old steps.new }
    ensures cause { HasCause is_failed (D.faults dev.old) (D.faults dev.new) result }
    ensures agrees { AgreesTold cache.new (D.content dev.new) }
    ensures counted { OfTree (layout geo.now) tree.now (D.content dev.old)
        (λ s m r n. Rise result steps.old.reads steps.new.reads (reads_in s m from end r n)) }
{
    let site = Site::of_group(geo, tree.group);
    let mut blocks = Cached {
        dev,
        cache,
        site,
        steps,
    };
    search_site::<Cached<D, L>>(&mut blocks, &site, tree, from, end)
}
