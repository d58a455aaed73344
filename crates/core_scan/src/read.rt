ghost use Rattle.std.specs.Prelude.{◌≡◌, ◌≤◌, ◌<◌, ◌%◌, List, IfErr, IfOk, IfSome, false, true, Some};
ghost use Rattle.blk_device.specs.Causes.{HasCause};
ghost use Rattle.blk_device.specs.Contents.{Contents};
ghost use Rattle.blk_device.specs.Reading.{OnlyRead};
ghost use Rattle.blk_device.specs.declared.device.Region.TheVariants.{Image};
ghost use Rattle.fork_read.specs.Pieces.{DecodesCore, slot_bytes};
ghost use Rattle.geom.specs.Places.{layout};
ghost use Rattle.rmap_recs.specs.Owners.{is_inode};
ghost use Rattle.rmap_recs.specs.Runs.{AreRuns};
ghost use Rattle.rmap_recs.specs.declared.tuples.Tuple.{Tuple};
ghost use Rattle.shadow_rmap.specs.Kept.{KeepsTuples};
ghost use Rattle.core_scan.specs.Calls.{Ends, EndsAt, IsAgainst, ReadsCore, Stays, is_failed};
ghost use Rattle.core_scan.specs.Equation.{core_at};
ghost use Rattle.core_scan.specs.Moves.{KeepsAll, Scans};
ghost use Rattle.core_scan.specs.Reads.{IsFit, chunk_answer, stopped};

use crate::held::Held;
use crate::scan::{Scan, Stop, scan_piece};
use blk_device::Device;
use byte_fields::{Block, Steps};
use dinode_core::{Core3, CoreFault, Fork, decode_core};
use fork_read::ReadFault;
use fs_model::Evidence;
use geom::Geometry;
use inode_pass::{PassStop, load_block};
use rmap_recs::{Memory, RmapRec};
use std::alloc::Global;
use std::sync::ledger::Ledger;

/// Why a scan goes no further: an inode or one of its forks can't be right, the device failed, or memory
/// is wanting (XFS Online Fsck Design, "Live Inode Scans").
#[derive(Clone, Copy, Debug, PartialEq, Eq)]
pub enum ScanStop {
    Bad(Evidence),
    Failed,
    Memory,
}

impl From<PassStop> for ScanStop {
    ghost use Rattle.core_scan.specs.Reads.{comes_from};

    ghost from_gives = { λ stop e. e ≡ comes_from stop };

    fn from(stop: PassStop) -> Self {
        match stop {
            PassStop::Failed => ScanStop::Failed,
            PassStop::Memory => ScanStop::Memory,
        }
    }
}

// The core of an inode, in its slot of its block.
fn core_in(block: &Block, ino: u64, geo: &Geometry) -> Result<Core3, CoreFault>
    ensures { DecodesCore (slot_bytes block.now.bytes (ino % 8)) ino geo.now.uuid result }
{
    let slot = (ino % 8) as usize;
    let (_, rest) = block.bytes.split_at(512 * slot);
    let (own, _) = rest.split_at(512);
    decode_core(own, ino, &geo.uuid)
}

// A core that is refused is evidence against the inode's block.
fn chunk_or_core(block: u32, decoded: Result<Core3, CoreFault>) -> Result<Core3, ScanStop>
    ensures { result ≡ chunk_answer block decoded }
{
    match decoded {
        Ok(core) => Ok(core),
        Err(fault) => Err(ScanStop::Bad(Evidence::BadChunk { block, fault })),
    }
}

// Reads the core of an inode. A scan holds allocated inodes, whose blocks exist where the inode btrees
// are what they should be; Memory is answered of any other.
fn read_core<D: Device, L: Ledger>(
    dev: &mut D,
    geo: &Geometry,
    ino: u64,
    steps: &mut Steps<L>,
) -> Result<Core3, ScanStop>
    requires room { geo.now.dblocks ≤ D.blocks dev.old Image }
    ensures core { (c : Contents) → D.content dev.old ≡ Some c → ReadsCore (layout geo.now) (c Image) ino result }
    ensures reading { OnlyRead D.Device dev.old dev.new steps.old steps.new }
    ensures cause { HasCause is_failed (D.faults dev.old) (D.faults dev.new) result }
{
    let Some(place) = geo.split_fs_block(ino / 8) else {
        return Err(ScanStop::Memory);
    };
    let at = geo.device_block(place.0, place.1);
    let block = load_block(dev, at, steps)?;
    chunk_or_core(place.1, core_in(&block, ino, geo))
}

fn is_number(ino: u64) -> bool
    ensures { result ≡ is_inode ino }
{
    ino < u64::MAX - 8
}

// Whether the hold is one that a scan comes to: an inode number above the cursor, of which no more was
// given than a fork may have. It always is in a scan that only these calls have moved.
fn is_fit(held: &Held, cursor: u64) -> bool
    ensures fit { result ≡ true → IsFit held.now cursor }
{
    is_number(held.ino)
        && cursor < held.ino
        && held.own <= u128::from(u64::MAX)
        && held.given <= u128::from(u64::MAX)
}

// Why a fork of the inode isn't delivered.
fn fork_stop(ino: u64, fault: ReadFault) -> ScanStop
    ensures { result ≡ stopped ino (Stop.Read fault) }
{
    match fault {
        ReadFault::Fork(fault) => ScanStop::Bad(Evidence::BadFork { ino, fault }),
        ReadFault::Core(_) => ScanStop::Memory,
        ReadFault::Failed => ScanStop::Failed,
        ReadFault::Memory => ScanStop::Memory,
    }
}

fn stop_of(ino: u64, stop: Stop) -> ScanStop
    ensures { result ≡ stopped ino stop }
{
    match stop {
        Stop::Read(fault) => fork_stop(ino, fault),
        Stop::Memory => ScanStop::Memory,
    }
}

// Delivers the next piece of the inode that is held, which has this core.
fn give_next<D: Device, L: Ledger>(
    scan: &mut Scan,
    held: &Held,
    core: &Core3,
    alloc: Global,
    dev: &mut D,
    geo: &Geometry,
    steps: &mut Steps<L>,
) -> Result<bool, ScanStop>
    requires held { scan.old.held ≡ Some held.now }
    requires core { IfSome (D.content dev.old) (λ c. core.now ≡ core_at (layout geo.now) (c Image) held.now.ino) }
    requires room { geo.now.dblocks ≤ D.blocks dev.old Image }
    ensures kept { Scans (layout geo.now) (D.content dev.old) scan.old scan.new }
    ensures ends { IfOk result (λ done. EndsAt held.now done scan.old scan.new) }
    ensures above { IfOk result (λ _. scan.old.cursor < held.now.ino) }
    ensures stays { Stays scan.old scan.new }
    ensures against { IfErr result (λ stop. (c : Contents) → D.content dev.old ≡ Some c
        → IsAgainst (layout geo.now) (c Image) held.now.ino stop) }
    ensures reading { OnlyRead D.Device dev.old dev.new steps.old steps.new }
    ensures cause { HasCause is_failed (D.faults dev.old) (D.faults dev.new) result }
{
    if !is_fit(held, scan.cursor) {
        return Err(ScanStop::Memory);
    }
    match scan_piece(scan, held, core, alloc, dev, geo, steps) {
        Ok(done) => Ok(done),
        Err(stop) => Err(stop_of(held.ino, stop)),
    }
}

// Whether the data fork had nothing to give, so that the attribute fork comes at once.
fn is_bare(before: &Held, next: &Held) -> bool {
    before.fork == Fork::Data && next.fork == Fork::Attr && next.given == before.given
}

// Delivers the next piece, and where that was the end of a data fork that had none, the first one of the
// attribute fork.
fn give_some<D: Device, L: Ledger>(
    scan: &mut Scan,
    held: &Held,
    core: &Core3,
    alloc: Global,
    dev: &mut D,
    geo: &Geometry,
    steps: &mut Steps<L>,
) -> Result<bool, ScanStop>
    requires held { scan.old.held ≡ Some held.now }
    requires core { IfSome (D.content dev.old) (λ c. core.now ≡ core_at (layout geo.now) (c Image) held.now.ino) }
    requires room { geo.now.dblocks ≤ D.blocks dev.old Image }
    ensures kept { Scans (layout geo.now) (D.content dev.old) scan.old scan.new }
    ensures ends { IfOk result (λ done. Ends done scan.old scan.new) }
    ensures stays { Stays scan.old scan.new }
    ensures against { IfErr result (λ stop. (c : Contents) → D.content dev.old ≡ Some c
        → IsAgainst (layout geo.now) (c Image) held.now.ino stop) }
    ensures reading { OnlyRead D.Device dev.old dev.new steps.old steps.new }
    ensures cause { HasCause is_failed (D.faults dev.old) (D.faults dev.new) result }
{
    let done = give_next(scan, held, core, alloc, dev, geo, steps)?;
    if done {
        return Ok(true);
    }
    let Some(next) = scan.held else {
        return Ok(true);
    };
    if !is_bare(held, &next) {
        return Ok(false);
    }
    give_next(scan, &next, core, alloc, dev, geo, steps)
}

// Notes the user of the inode that is held.
fn note_user(scan: &mut Scan, held: &Held, uid: u32) -> Held
    requires held { scan.old.held ≡ Some held.now }
    ensures held { scan.new.held ≡ Some result }
    ensures ino { result.ino ≡ held.now.ino }
    ensures kept { KeepsAll scan.old scan.new }
    ensures group { scan.new.group ≡ scan.old.group }
    ensures own { scan.new.shadow.group ≡ scan.old.shadow.group }
    ensures cursor { scan.new.cursor ≡ scan.old.cursor }
{
    let noted = Held {
        ino: held.ino,
        uid,
        fork: held.fork,
        next: held.next,
        own: held.own,
        given: held.given,
    };
    scan.held = Some(noted);
    noted
}

// The next piece of the inode that is held, by its core as it is now.
fn read_held<D: Device, L: Ledger>(
    scan: &mut Scan,
    held: &Held,
    alloc: Global,
    dev: &mut D,
    geo: &Geometry,
    steps: &mut Steps<L>,
) -> Result<bool, ScanStop>
    requires held { scan.old.held ≡ Some held.now }
    requires room { geo.now.dblocks ≤ D.blocks dev.old Image }
    ensures kept { Scans (layout geo.now) (D.content dev.old) scan.old scan.new }
    ensures ends { IfOk result (λ done. Ends done scan.old scan.new) }
    ensures stays { Stays scan.old scan.new }
    ensures against { IfErr result (λ stop. (c : Contents) → D.content dev.old ≡ Some c
        → IsAgainst (layout geo.now) (c Image) held.now.ino stop) }
    ensures reading { OnlyRead D.Device dev.old dev.new steps.old steps.new }
    ensures cause { HasCause is_failed (D.faults dev.old) (D.faults dev.new) result }
{
    let core = read_core(dev, geo, held.ino, steps)?;
    let noted = note_user(scan, held, core.uid);
    give_some(scan, &noted, &core, alloc, dev, geo, steps)
}

/// Delivers the next piece of the inode that the scan holds, by its core as it is now, whose user is noted;
/// data fork first, and where that has nothing the attribute fork at once. It answers whether the inode was
/// given whole: then it is passed and let go, else something is left. A core or a fork that can't be right
/// is evidence, and nothing of it is delivered. While no inode is held the answer is Memory
/// (XFS Online Fsck Design, "Live Inode Scans").
pub fn read_piece<D: Device, L: Ledger>(
    scan: &mut Scan,
    alloc: Global,
    dev: &mut D,
    geo: &Geometry,
    steps: &mut Steps<L>,
) -> Result<bool, ScanStop>
    requires room { geo.now.dblocks ≤ D.blocks dev.old Image }
    ensures kept { Scans (layout geo.now) (D.content dev.old) scan.old scan.new }
    ensures ends { IfOk result (λ done. Ends done scan.old scan.new) }
    ensures stays { Stays scan.old scan.new }
    ensures against { IfErr result (λ stop. (c : Contents) → D.content dev.old ≡ Some c
        → IfSome scan.old.held (λ h. IsAgainst (layout geo.now) (c Image) h.ino stop)) }
    ensures reading { OnlyRead D.Device dev.old dev.new steps.old steps.new }
    ensures cause { HasCause is_failed (D.faults dev.old) (D.faults dev.new) result }
{
    let Some(held) = scan.held else {
        return Err(ScanStop::Memory);
    };
    read_held(scan, &held, alloc, dev, geo, steps)
}

/// The blocks of the scan's group that forks own, as far as the scan has come: maximal runs in the order of
/// reverse mappings (XFS Online Fsck Design, "Case Study: Rebuilding Reverse Mapping Records").
pub fn owners_of(alloc: Global, scan: &Scan) -> Result<Vec<RmapRec>, Memory>
    ensures exact { IfOk result (λ runs. runs.items ≡ scan.now.shadow.runs) }
    ensures owners { IfOk result (λ runs. (ts : List Tuple) → KeepsTuples ts scan.now.shadow → AreRuns ts runs.items) }
{
    Ok(Vec::from_slice(alloc, scan.shadow.runs())?)
}
