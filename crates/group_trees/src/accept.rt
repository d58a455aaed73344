ghost use Rattle.std.specs.Prelude.{◌≡◌, ◌+◌, ◌<◌, ◌≤◌, Some, false, IfOk, IfErr};
ghost use Rattle.ag_headers.specs.Ring.{entries};
ghost use Rattle.blk_device.specs.Causes.{HasCause};
ghost use Rattle.blk_device.specs.Contents.{Contents};
ghost use Rattle.blk_device.specs.Reading.{OnlyRead};
ghost use Rattle.blk_device.specs.declared.device.Region.TheVariants.{Image};
ghost use Rattle.fs_state.specs.Kinds.{heads_in as heads_of_block, heads_of};
ghost use Rattle.geom.specs.Layout.{group_len_of};
ghost use Rattle.geom.specs.Places.{layout};
ghost use Rattle.group_trees.specs.Heads.{IsRefusal, IsRefusedIn, PassAll, PassIn, heads_seen, is_failed};
ghost use Rattle.tree_walk.specs.Trails.{LieInside};

use crate::heads::{GroupHeads, free_list};
use ag_headers::{Agf, Agfl, Agi, HeadFault, decode_agf, decode_agfl, decode_agi};
use blk_cache::Memory;
use blk_device::Device;
use byte_fields::{Block, Steps};
use fs_model::Head;
use geom::Geometry;
use inode_pass::{PassStop, load_block};
use std::alloc::{AllocError, Global};
use std::sync::ledger::Ledger;

/// Why the heads of a group aren't answered: one of them is refused, the device failed, or there was
/// no memory (XFS Algorithms and Data Structures, "Allocation Groups").
#[derive(Clone, Copy, Debug, PartialEq, Eq)]
pub enum HeadsStop {
    Refused { head: Head, fault: HeadFault },
    Failed,
    Memory,
}

impl From<AllocError> for HeadsStop {
    ghost use Rattle.group_trees.specs.declared.accept.HeadsStop.TheVariants.{Memory};

    ghost from_gives = { λ _ e. e ≡ Memory };

    fn from(_: AllocError) -> Self {
        HeadsStop::Memory
    }
}

impl From<Memory> for HeadsStop {
    ghost use Rattle.group_trees.specs.declared.accept.HeadsStop.TheVariants.{Memory};

    ghost from_gives = { λ _ e. e ≡ Memory };

    fn from(_: Memory) -> Self {
        HeadsStop::Memory
    }
}

// A pass over inodes refuses no head.
impl From<PassStop> for HeadsStop {
    ghost use Rattle.group_trees.specs.Heads.{IsOutside, is_failed};
    ghost use Rattle.inode_pass.specs.Stops.{is_failed as is_failed_pass};

    ghost from_gives = { λ stop e. (is_failed e ≡ is_failed_pass stop) × IsOutside e };

    fn from(stop: PassStop) -> Self {
        match stop {
            PassStop::Failed => HeadsStop::Failed,
            PassStop::Memory => HeadsStop::Memory,
        }
    }
}

fn refused(head: Head, fault: HeadFault) -> HeadsStop
    ensures { result ≡ HeadsStop.Refused head fault }
{
    HeadsStop::Refused { head, fault }
}

fn with_list(alloc: Global, agf: Agf, agi: Agi, list: &Agfl) -> Result<GroupHeads, HeadsStop>
    ensures exact { IfOk result (λ heads. heads_seen heads ≡ record { agf = agf; agi = agi; list = entries list.now }) }
    ensures memory { IfErr result (λ stop. stop ≡ HeadsStop.Memory) }
{
    let list = free_list(alloc, list)?;
    Ok(GroupHeads { agf, agi, list })
}

// The heads in block 0 of a group, where all three pass.
fn heads_in(alloc: Global, block: &Block, geo: &Geometry, g: u32) -> Result<GroupHeads, HeadsStop>
    requires { g < geo.now.agcount }
    ensures exact { IfOk result (λ heads. heads_seen heads ≡ heads_of_block block.now.bytes) }
    ensures passed { IfOk result (λ _. PassAll (layout geo.now) g block.now.bytes) }
    ensures list { IfOk result (λ heads. LieInside (group_len_of (layout geo.now) g) heads.list.items) }
    ensures refused { IfErr result (IsRefusal (layout geo.now) g block.now.bytes) }
    ensures short { IfErr result (λ stop. stop ≡ HeadsStop.Memory → PassAll (layout geo.now) g block.now.bytes) }
    ensures own { IfErr result (λ stop. is_failed stop ≡ false) }
{
    let agf = decode_agf(block, geo, g).map_err(|fault| refused(Head::Agf, fault))?;
    let agi = decode_agi(block, geo, g).map_err(|fault| refused(Head::Agi, fault))?;
    let list = decode_agfl(block, geo, g).map_err(|fault| refused(Head::Agfl, fault))?;
    with_list(alloc, agf, agi, &list)
}

/// Reads block 0 of group `g` and answers its three heads, where all of them pass their tests; else
/// the first that is refused, in the order AGF, AGI, AGFL. Want of memory is told of heads that pass
/// (XFS Algorithms and Data Structures, "Allocation Groups").
pub fn read_heads<D: Device, L: Ledger>(
    alloc: Global,
    dev: &mut D,
    geo: &Geometry,
    g: u32,
    steps: &mut Steps<L>,
) -> Result<GroupHeads, HeadsStop>
    requires group { g < geo.now.agcount }
    requires room { geo.now.dblocks ≤ D.blocks dev.old Image }
    ensures exact { IfOk result (λ heads. (c : Contents) → D.content dev.old ≡ Some c → heads_seen heads ≡ heads_of (layout geo.now) (c Image) g) }
    ensures passed { IfOk result (λ _. (c : Contents) → D.content dev.old ≡ Some c → PassIn (layout geo.now) (c Image) g) }
    ensures list { IfOk result (λ heads. LieInside (group_len_of (layout geo.now) g) heads.list.items) }
    ensures refused { IfErr result (λ stop. (c : Contents) → D.content dev.old ≡ Some c → IsRefusedIn (layout geo.now) (c Image) g stop) }
    ensures short { IfErr result (λ stop. (c : Contents) → D.content dev.old ≡ Some c → stop ≡ HeadsStop.Memory → PassIn (layout geo.now) (c Image) g) }
    ensures reading { OnlyRead D.Device dev.old dev.new steps.old steps.new }
    ensures cause { HasCause is_failed (D.faults dev.old) (D.faults dev.new) result }
    ensures one { steps.new.reads ≡ steps.old.reads + 1 }
{
    let at = geo.device_block(g, 0);
    let block = load_block(dev, at, steps)?;
    heads_in(alloc, &block, geo, g)
}
