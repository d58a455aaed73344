ghost use Rattle.std.specs.Prelude.{◌≡◌, ◌+◌, ◌<◌, ◌≤◌, ◌++◌, ◌∷◌, [], IfErr, IfOk, OnOk, Some, false, length};
ghost use Rattle.blk_device.specs.Causes.{HasCause};
ghost use Rattle.blk_device.specs.Contents.{Contents};
ghost use Rattle.blk_device.specs.Reading.{OnlyRead};
ghost use Rattle.blk_device.specs.declared.device.Region.TheVariants.{Image};
ghost use Rattle.core_parts.specs.Opens.Heads.{Each, IsFirstRefused, IsHeadsOf, IsOutside, IsRefusal, IsRefusedIn, PassBelow, comes_from, is_failed};
ghost use Rattle.core_edit.specs.Heads.{seen};
ghost use Rattle.core_edit.specs.Stands.{AreOf};
ghost use Rattle.fs_state.specs.Kinds.{heads_in as heads_of_block};
ghost use Rattle.geom.specs.Places.{layout};
ghost use Rattle.group_trees.specs.Heads.{PassAll, PassIn};

use ag_headers::{HeadFault, decode_agf, decode_agfl, decode_agi};
use blk_device::Device;
use byte_fields::{Block, Steps};
use core_calls::OpenRefused;
use core_edit::EditHeads;
use fs_model::Head;
use geom::Geometry;
use inode_pass::{PassStop, load_block};
use std::alloc::Global;
use std::sync::ledger::Ledger;

fn refused(group: u32, head: Head, fault: HeadFault) -> OpenRefused
    ensures { result ≡ OpenRefused.Group group head fault }
{
    OpenRefused::Group { group, head, fault }
}

/// Why reading ends that refuses no head.
pub(crate) fn halted(stop: PassStop) -> OpenRefused
    ensures { result ≡ comes_from stop }
{
    match stop {
        PassStop::Failed => OpenRefused::Failed,
        PassStop::Memory => OpenRefused::Memory,
    }
}

// The heads in block 0 of a group, where all three pass.
fn heads_in(block: &Block, geo: &Geometry, g: u32) -> Result<EditHeads, OpenRefused>
    requires { g < geo.now.agcount }
    ensures exact { IfOk result (λ heads. seen heads ≡ heads_of_block block.now.bytes) }
    ensures of_group { IfOk result (AreOf (layout geo.now) g) }
    ensures passed { IfOk result (λ _. PassAll (layout geo.now) g block.now.bytes) }
    ensures refused { IfErr result (IsRefusal (layout geo.now) g block.now.bytes) }
    ensures own { IfErr result (λ stop. is_failed stop ≡ false) }
{
    let agf = decode_agf(block, geo, g).map_err(|fault| refused(g, Head::Agf, fault))?;
    let agi = decode_agi(block, geo, g).map_err(|fault| refused(g, Head::Agi, fault))?;
    let list = decode_agfl(block, geo, g).map_err(|fault| refused(g, Head::Agfl, fault))?;
    Ok(EditHeads { agf, agi, list })
}

// Reads block 0 of a group.
fn load_heads<D: Device, L: Ledger>(
    dev: &mut D,
    at: u64,
    steps: &mut Steps<L>,
) -> Result<Block, OpenRefused>
    requires { at < D.blocks dev.old Image }
    ensures told { IfOk result (λ block. (c : Contents) → D.content dev.old ≡ Some c → block.bytes ≡ c Image at) }
    ensures outside { IfErr result IsOutside }
    ensures reading { OnlyRead D.Device dev.old dev.new steps.old steps.new }
    ensures cause { HasCause is_failed (D.faults dev.old) (D.faults dev.new) result }
{
    match load_block(dev, at, steps) {
        Ok(block) => Ok(block),
        Err(stop) => Err(halted(stop)),
    }
}

// Reads the heads of one group.
fn read_heads<D: Device, L: Ledger>(
    dev: &mut D,
    geo: &Geometry,
    g: u32,
    steps: &mut Steps<L>,
) -> Result<EditHeads, OpenRefused>
    requires group { g < geo.now.agcount }
    requires room { geo.now.dblocks ≤ D.blocks dev.old Image }
    ensures exact { IfOk result (λ heads. (c : Contents) → D.content dev.old ≡ Some c → IsHeadsOf (layout geo.now) (c Image) g heads) }
    ensures of_group { IfOk result (AreOf (layout geo.now) g) }
    ensures passed { IfOk result (λ _. (c : Contents) → D.content dev.old ≡ Some c → PassIn (layout geo.now) (c Image) g) }
    ensures refused { IfErr result (λ stop. (c : Contents) → D.content dev.old ≡ Some c → IsRefusedIn (layout geo.now) (c Image) g stop) }
    ensures reading { OnlyRead D.Device dev.old dev.new steps.old steps.new }
    ensures cause { HasCause is_failed (D.faults dev.old) (D.faults dev.new) result }
{
    let at = geo.device_block(g, 0);
    let block = load_heads(dev, at, steps)?;
    heads_in(&block, geo, g)
}

// Puts the heads of a group behind those of the groups before.
fn put_heads(all: &mut Vec<EditHeads>, heads: &EditHeads) -> Result<(), OpenRefused>
    ensures put { OnOk result (all.new.items ≡ all.old.items ++ heads.now ∷ []) }
    ensures memory { IfErr result (λ stop. stop ≡ OpenRefused.Memory) }
{
    if all.push(*heads).is_err() {
        return Err(OpenRefused::Memory);
    }
    Ok(())
}

// Reads the heads of group `g`, with those of the groups before in front.
fn next_heads<D: Device, L: Ledger>(
    dev: &mut D,
    geo: &Geometry,
    g: u32,
    all: &mut Vec<EditHeads>,
    steps: &mut Steps<L>,
) -> Result<(), OpenRefused>
    requires group { g < geo.now.agcount }
    requires room { geo.now.dblocks ≤ D.blocks dev.old Image }
    requires before { length all.old.items ≡ g }
    ensures one { OnOk result (length all.new.items ≡ length all.old.items + 1) }
    ensures told { OnOk result ((c : Contents) → D.content dev.old ≡ Some c → Each (IsHeadsOf (layout geo.now) (c Image)) 0 all.old.items → Each (IsHeadsOf (layout geo.now) (c Image)) 0 all.new.items) }
    ensures of_group { OnOk result (Each (AreOf (layout geo.now)) 0 all.old.items → Each (AreOf (layout geo.now)) 0 all.new.items) }
    ensures passed { OnOk result ((c : Contents) → D.content dev.old ≡ Some c → PassIn (layout geo.now) (c Image) g) }
    ensures refused { IfErr result (λ stop. (c : Contents) → D.content dev.old ≡ Some c → IsRefusedIn (layout geo.now) (c Image) g stop) }
    ensures reading { OnlyRead D.Device dev.old dev.new steps.old steps.new }
    ensures cause { HasCause is_failed (D.faults dev.old) (D.faults dev.new) result }
{
    let heads = read_heads(dev, geo, g, steps)?;
    put_heads(all, &heads)?;
    Ok(())
}

/// Reads the heads of all groups, in each the AGF, AGI and AGFL, and answers them in the groups' order;
/// the first head that is refused ends it (XFS Algorithms and Data Structures, "Allocation Groups").
pub(crate) fn read_all_heads<D: Device, L: Ledger>(
    alloc: Global,
    dev: &mut D,
    geo: &Geometry,
    steps: &mut Steps<L>,
) -> Result<Vec<EditHeads>, OpenRefused>
    requires room { geo.now.dblocks ≤ D.blocks dev.old Image }
    ensures all { IfOk result (λ all. length all.items ≡ geo.now.agcount) }
    ensures told { IfOk result (λ all. (c : Contents) → D.content dev.old ≡ Some c → Each (IsHeadsOf (layout geo.now) (c Image)) 0 all.items) }
    ensures of_group { IfOk result (λ all. Each (AreOf (layout geo.now)) 0 all.items) }
    ensures passed { IfOk result (λ _. (c : Contents) → D.content dev.old ≡ Some c → PassBelow (layout geo.now) (c Image) geo.now.agcount) }
    ensures refused { IfErr result (λ stop. (c : Contents) → D.content dev.old ≡ Some c → IsFirstRefused (layout geo.now) (c Image) stop) }
    ensures reading { OnlyRead D.Device dev.old dev.new steps.old steps.new }
    ensures cause { HasCause is_failed (D.faults dev.old) (D.faults dev.new) result }
{
    let mut all = Vec::new(alloc);
    for g in 0..geo.agcount {
        next_heads(dev, geo, g, &mut all, steps)?;
    }
    Ok(all)
}
