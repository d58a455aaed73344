// Where a piece of a mapping lies, and what it makes a chain owe.
ghost use Rattle.std.specs.Prelude.{◌≡◌, ◌<◌, ◌+◌, ◌^◌, IfOk, IfSome, false, true};
ghost use Rattle.core_files.specs.First.Spots.{IsSpot};
ghost use Rattle.core_chains.specs.Write.Writes.{WritesWell};
ghost use Rattle.defer_chain.specs.Steps.{is_ref, is_rmap};

use blk_device::Device;
use core_calls::WriteFault;
use core_parts::Desk;
use defer_chain::Chain;
use dinode_core::Mapping;
use fs_state::{Intent, IntentKind};
use geom::Geometry;
use rmap_recs::UNWRITTEN;

/// Blocks of a group.
#[derive(Clone, Copy)]
pub struct Spot {
    pub group: u32,
    pub block: u32,
    pub count: u32,
}

/// What is due to reverse mappings: of which kind it is, the owner of the blocks, and the first one's offset
/// word.
#[derive(Clone, Copy)]
pub struct OwnerDue {
    pub kind: IntentKind,
    pub ino: u64,
    pub word: u64,
}

fn spot_of(geo: &Geometry, m: &Mapping) -> Option<Spot>
    ensures { IfSome result (IsSpot geo.now) }
{
    let (group, block) = geo.split_fs_block(m.block)?;
    let end = u64::from(block) + u64::from(m.count);
    if m.count == 0 || end > u64::from(geo.group_len(group)) {
        return None;
    }
    Some(Spot {
        group,
        block,
        count: m.count,
    })
}

/// Where the blocks of a mapping lie.
pub fn find_spot<D: Device>(desk: &Desk<D>, m: &Mapping) -> Result<Spot, WriteFault>
    ensures spot { IfOk result (IsSpot desk.now.store.geo) }
    ensures reason { WritesWell desk.now result }
{
    match spot_of(&desk.store.geo, m) {
        Some(spot) => Ok(spot),
        // Never: the mappings of a fork without a fault lie in a group each.
        None => Err(WriteFault::Memory),
    }
}

/// The offset word of a mapping of a data fork.
pub fn word_of(offset: u64, is_unwritten: bool) -> u64 {
    if is_unwritten {
        return offset.saturating_add(UNWRITTEN);
    }
    offset
}

// What is due to reverse mappings of these blocks.
fn owner_intent(due: &OwnerDue, spot: &Spot) -> Intent
    ensures kind { result.kind ≡ due.now.kind }
    ensures block { result.block ≡ spot.now.block }
    ensures count { result.count ≡ spot.now.count }
{
    Intent {
        kind: due.kind,
        ino: due.ino,
        word: due.word,
        group: spot.group,
        block: spot.block,
        count: spot.count,
    }
}

// What is due to their reference counts.
fn count_intent(kind: IntentKind, spot: &Spot) -> Intent
    ensures kind { result.kind ≡ kind }
    ensures block { result.block ≡ spot.now.block }
    ensures count { result.count ≡ spot.now.count }
{
    Intent {
        kind,
        ino: 0,
        word: 0,
        group: spot.group,
        block: spot.block,
        count: spot.count,
    }
}

/// The chain, which owes nothing, once it owes this to reverse mappings.
#[tactic(auto, using(crate::proofs::first::OrderLemmas::one_in_order))]
pub fn owing_owner(chain: &Chain, due: &OwnerDue, spot: &Spot) -> Chain
    requires kind { is_rmap due.now.kind ≡ true }
    requires some { 0 < spot.now.count }
    requires ends { spot.now.block + spot.now.count < 2 ^ 32 }
{
    let mut owing = Chain::new(chain.writer(), chain.first(), chain.second());
    owing.put(&[owner_intent(due, spot)]);
    owing
}

/// The chain, which owes nothing, once it owes this to reverse mappings, and then this to reference counts.
#[tactic(auto, using(crate::proofs::first::OrderLemmas::two_in_order))]
pub fn owing_both(chain: &Chain, due: &OwnerDue, counts: IntentKind, spot: &Spot) -> Chain
    requires kind { is_rmap due.now.kind ≡ true }
    requires other { is_rmap counts ≡ false }
    requires counts { is_ref counts ≡ true }
    requires some { 0 < spot.now.count }
    requires ends { spot.now.block + spot.now.count < 2 ^ 32 }
{
    let mut owing = Chain::new(chain.writer(), chain.first(), chain.second());
    owing.put(&[owner_intent(due, spot), count_intent(counts, spot)]);
    owing
}
