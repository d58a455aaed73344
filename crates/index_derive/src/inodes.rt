ghost use Rattle.std.specs.Prelude.{◌≡◌, ℕ, ◌+◌, ◌*◌, ◌^◌, ◌<◌, ◌++◌, All, IfOk, OnOk, filter, length, nat_lt, ◌==◌, if◌then◌else◌};
ghost use Rattle.fs_state.specs.Derive.{ino_of, fino_of};
ghost use Rattle.fs_state.specs.State.{State};
ghost use Rattle.index_derive.specs.Inodes.{AreModes, AreUnits, mask_in, mask_of, record_of, records_from, records_of};

use ino_recs::InoRec;
use std::alloc::{AllocError, Global};

/// What the cores of an aligned unit of 64 inodes say together: `unit` counts such units from the
/// group's first block on, and `free` has a bit for each inode of mode 0, or is None where a core
/// doesn't verify (XFS Algorithms and Data Structures, "Inode B+trees").
#[derive(Clone, Copy, Debug, PartialEq, Eq)]
pub struct UnitCores {
    pub unit: u32,
    pub free: Option<u64>,
}

// The inodes of a unit.
const UNIT_INODES: u32 = 64;

// The mask of the inodes in front, with the bit of one more.
#[tactic(auto, using(crate::proofs::InodeLemmas::bit_small))]
fn with_bit(free: u64, i: u32, mode: u16) -> u64
    requires place { i < 64 }
    requires front { free < 2 ^ i }
    ensures { result ≡ free + (if mode == 0 then 2 ^ i else 0) }
{
    if mode == 0 { free + (1 << i) } else { free }
}

fn mask(modes: &[Option<u16>]) -> Option<u64>
    requires { length modes.now ≡ 64 }
    ensures { result ≡ mask_of modes.now }
{
    let mut free = 0u64;
    for i in 0..UNIT_INODES {
        let Some(mode) = modes[i as usize] else {
            return None;
        };
        free = with_bit(free, i, mode);
    }
    Some(free)
}

/// Which of a unit's 64 inodes are free, by a bit for each, from the modes of their cores in their
/// order; a core that doesn't verify has none, and then the unit is no chunk
/// (XFS Algorithms and Data Structures, "Inode B+trees").
pub fn free_mask(modes: &[Option<u16>]) -> Option<u64>
    requires { length modes.now ≡ 64 }
    ensures value { result ≡ mask_of modes.now }
    ensures exact { (a : State) (g u : ℕ) → AreModes a g u modes.now → result ≡ mask_in a g u }
{
    mask(modes)
}

// The record of a chunk with these free inodes.
fn chunk_record(unit: u32, free: u64) -> InoRec
    requires { unit < 2 ^ 26 }
    ensures { result ≡ record_of unit free }
{
    InoRec {
        startino: UNIT_INODES * unit,
        holemask: 0,
        count: 64,
        freecount: free.count_ones() as u8,
        free,
    }
}

// Puts the record of a unit, where it is a chunk.
fn put_record(recs: &mut Vec<InoRec>, cores: &UnitCores) -> Result<(), AllocError>
    requires { cores.now.unit < 2 ^ 26 }
    ensures { OnOk result (recs.new.items ≡ recs.old.items ++ records_from cores.now.unit cores.now.free) }
{
    let Some(free) = cores.free else {
        return Ok(());
    };
    recs.push(chunk_record(cores.unit, free))?;
    Ok(())
}

fn put_all(alloc: Global, units: &[UnitCores]) -> Result<Vec<InoRec>, AllocError>
    requires { All (λ c. c.unit < 2 ^ 26) units.now }
    ensures { IfOk result (λ recs. recs.items ≡ records_of units.now) }
{
    let mut recs = Vec::new(alloc);
    for cores in units {
        put_record(&mut recs, cores)?;
    }
    Ok(recs)
}

/// What the inode btree must hold, from the cores of the units that one of the two trees lists, in
/// their order: a record for each unit whose cores all verify, without holes, with the number and
/// the mask of its free inodes (XFS Algorithms and Data Structures, "Inode B+trees").
pub fn inode_records(alloc: Global, units: &[UnitCores]) -> Result<Vec<InoRec>, AllocError>
    requires { All (λ c. c.unit < 2 ^ 26) units.now }
    ensures value { IfOk result (λ recs. recs.items ≡ records_of units.now) }
    ensures exact { (a : State) (g : ℕ) → AreUnits a g units.now → IfOk result (λ recs. recs.items ≡ ino_of a g) }
{
    put_all(alloc, units)
}

fn with_free(alloc: Global, recs: &[InoRec]) -> Result<Vec<InoRec>, AllocError>
    ensures { IfOk result (λ found. found.items ≡ filter (λ r. nat_lt 0 r.freecount) recs.now) }
{
    recs.iter()
        .copied()
        .filter(|rec| rec.freecount > 0)
        .collect(alloc)
}

/// What the btree of chunks with a free inode must hold: those of the inode btree's records
/// (XFS Algorithms and Data Structures, "Free Inode B+tree").
pub fn free_records(alloc: Global, recs: &[InoRec]) -> Result<Vec<InoRec>, AllocError>
    ensures value { IfOk result (λ found. found.items ≡ filter (λ r. nat_lt 0 r.freecount) recs.now) }
    ensures exact { (a : State) (g : ℕ) → recs.now ≡ ino_of a g → IfOk result (λ found. found.items ≡ fino_of a g) }
{
    with_free(alloc, recs)
}
