ghost use Rattle.std.specs.Prelude.{◌≡◌, ℕ, ◌+◌, ◌<◌, ◌≤◌, length, take, drop, Some, None, IfOk};
ghost use Rattle.byte_fields.specs.FirstFailing.{Decodes};
ghost use Rattle.geom.specs.Layout.{Layout};
ghost use Rattle.geom.specs.Places.{layout};
ghost use Rattle.ag_headers.specs.Agf.{agf_fault, agf_of, agf_in, agf_form, agf_trees, agf_space, agf_blocks, agf_table, agf_written};
ghost use Rattle.ag_headers.specs.Fields.{with_table, AllFit};
ghost use Rattle.ag_headers.specs.Tests.{head_fault, IsOfGroup};

use crate::fault::HeadFault;
use crate::head::{Form, first_fault, put_ids, put_stamp};
use crate::sector::{get_uuid, put_sector, sector_copy, sector_in};
use byte_fields::{Block, get_u32, get_u64, put_u32};
use geom::Geometry;

// "XAGF", and the places of `agf_uuid`, `agf_lsn` and `agf_crc`.
const AGF: Form = Form {
    magic: 0x5841_4746,
    uuid_at: 64,
    lsn_at: 208,
    sum_at: 216,
};

/// The AGF, the head of a group's free space, reverse mappings and reference counts, each number
/// under its field's name without `agf_`. Blocks are counted from the group's start, levels from 1
/// for a tree of one leaf. Magic number and version have but one value, and the checksum follows
/// from the rest, so none of these is a field
/// (XFS Algorithms and Data Structures, "AG Free Space Block").
#[derive(Clone, Copy, Debug, PartialEq, Eq)]
pub struct Agf {
    /// The group.
    pub seqno: u32,
    /// Blocks of the group.
    pub length: u32,
    /// The root block of the tree of free space by start (`agf_roots[0]`).
    pub bno_root: u32,
    /// The root block of the tree of free space by count (`agf_roots[1]`).
    pub cnt_root: u32,
    /// The root block of the tree of reverse mappings (`agf_roots[2]`).
    pub rmap_root: u32,
    /// Levels of the tree of free space by start (`agf_levels[0]`).
    pub bno_level: u32,
    /// Levels of the tree of free space by count (`agf_levels[1]`).
    pub cnt_level: u32,
    /// Levels of the tree of reverse mappings (`agf_levels[2]`).
    pub rmap_level: u32,
    /// The place of the free list's first entry in its ring.
    pub flfirst: u32,
    /// The place of its last entry.
    pub fllast: u32,
    /// How many entries it has.
    pub flcount: u32,
    /// Free blocks of the group.
    pub freeblks: u32,
    /// Blocks of its longest free run.
    pub longest: u32,
    /// Blocks of the first three trees without their roots.
    pub btreeblks: u32,
    /// The file system's UUID.
    pub uuid: [u8; 16],
    /// Blocks of the tree of reverse mappings, its root included.
    pub rmap_blocks: u32,
    /// Blocks of the tree of reference counts, its root included.
    pub refcount_blocks: u32,
    /// The root block of the tree of reference counts.
    pub refcount_root: u32,
    /// Levels of that tree.
    pub refcount_level: u32,
    /// The log sequence number of the last write.
    pub lsn: u64,
}

#[tactic(auto, unfolding(crate::specs::Agf::agf_in))]
fn agf_at(agf: &[u8]) -> Agf
    requires { length agf.now ≡ 512 }
    ensures { result ≡ agf_in agf.now }
{
    Agf {
        seqno: get_u32(agf, 8),
        length: get_u32(agf, 12),
        bno_root: get_u32(agf, 16),
        cnt_root: get_u32(agf, 20),
        rmap_root: get_u32(agf, 24),
        bno_level: get_u32(agf, 28),
        cnt_level: get_u32(agf, 32),
        rmap_level: get_u32(agf, 36),
        flfirst: get_u32(agf, 40),
        fllast: get_u32(agf, 44),
        flcount: get_u32(agf, 48),
        freeblks: get_u32(agf, 52),
        longest: get_u32(agf, 56),
        btreeblks: get_u32(agf, 60),
        uuid: get_uuid(agf, 64),
        rmap_blocks: get_u32(agf, 80),
        refcount_blocks: get_u32(agf, 84),
        refcount_root: get_u32(agf, 88),
        refcount_level: get_u32(agf, 92),
        lsn: get_u64(agf, 208),
    }
}

/// The AGF of group `g`, read from block 0 of the group. An error is the first of its tests that
/// fails: magic, version, seqno, length, checksum, UUID. What its numbers say isn't tested
/// (XFS Algorithms and Data Structures, "AG Free Space Block").
#[tactic(auto, using(crate::proofs::AgfLemmas::agf_is_of_group))]
pub fn decode_agf(block: &Block, geo: &Geometry, g: u32) -> Result<Agf, HeadFault>
    requires { g < geo.now.agcount }
    ensures exact { Decodes (agf_fault (layout geo.now) g block.now.bytes) (λ agf. agf ≡ agf_of block.now.bytes) result }
    ensures of_group { IfOk result (λ agf. IsOfGroup (layout geo.now) g agf.seqno agf.length agf.uuid) }
{
    let agf = sector_in::<1>(&block.bytes);
    match first_fault(&AGF, agf, geo, g) {
        Some(fault) => Err(fault),
        None => Ok(agf_at(agf)),
    }
}

fn put_trees(sector: &mut [u8], agf: &Agf)
    requires { length sector.old ≡ 512 }
    ensures bytes { sector.new ≡ with_table (agf_trees agf.now) sector.old }
    ensures fits { AllFit (agf_trees agf.now) }
{
    put_u32(sector, 16, agf.bno_root);
    put_u32(sector, 20, agf.cnt_root);
    put_u32(sector, 24, agf.rmap_root);
    put_u32(sector, 28, agf.bno_level);
    put_u32(sector, 32, agf.cnt_level);
    put_u32(sector, 36, agf.rmap_level);
}

fn put_space(sector: &mut [u8], agf: &Agf)
    requires { length sector.old ≡ 512 }
    ensures bytes { sector.new ≡ with_table (agf_space agf.now) sector.old }
    ensures fits { AllFit (agf_space agf.now) }
{
    put_u32(sector, 40, agf.flfirst);
    put_u32(sector, 44, agf.fllast);
    put_u32(sector, 48, agf.flcount);
    put_u32(sector, 52, agf.freeblks);
    put_u32(sector, 56, agf.longest);
    put_u32(sector, 60, agf.btreeblks);
}

fn put_blocks(sector: &mut [u8], agf: &Agf)
    requires { length sector.old ≡ 512 }
    ensures bytes { sector.new ≡ with_table (agf_blocks agf.now) sector.old }
    ensures fits { AllFit (agf_blocks agf.now) }
{
    put_u32(sector, 80, agf.rmap_blocks);
    put_u32(sector, 84, agf.refcount_blocks);
    put_u32(sector, 88, agf.refcount_root);
    put_u32(sector, 92, agf.refcount_level);
}

#[tactic(auto, using(crate::proofs::TableLemmas::fits_append))]
fn put_table(sector: &mut [u8], agf: &Agf)
    requires { length sector.old ≡ 512 }
    ensures bytes { sector.new ≡ with_table (agf_table agf.now) sector.old }
    ensures fits { AllFit (agf_table agf.now) }
{
    put_ids(&AGF, sector, agf.seqno, agf.length);
    put_trees(sector, agf);
    put_space(sector, agf);
    put_blocks(sector, agf);
}

#[tactic(auto, using(crate::proofs::AgfLemmas::agf_again), unfolding(crate::specs::Agf::agf_written))]
fn put_agf(sector: &mut [u8], agf: &Agf)
    requires { length sector.old ≡ 512 }
    ensures bytes { sector.new ≡ agf_written agf.now sector.old }
    ensures again { agf_in sector.new ≡ agf.now }
    ensures accepted { (at : Layout) (g : ℕ) → IsOfGroup at g agf.now.seqno agf.now.length agf.now.uuid
        → head_fault agf_form at g sector.new ≡ None }
{
    put_table(sector, agf);
    put_stamp(&AGF, sector, &agf.uuid, agf.lsn);
}

impl Agf {
    ghost use Rattle.std.specs.Prelude.{◌≡◌, ◌≢◌, ℕ, None};
    ghost use Rattle.geom.specs.Layout.{Layout};
    ghost use Rattle.ag_headers.specs.Agf.{agf_fault, agf_of, agf_written};
    ghost use Rattle.ag_headers.specs.Fields.{sector, with_sector};
    ghost use Rattle.ag_headers.specs.Tests.{IsOfGroup};

    /// Writes the AGF into its sector of block 0 of a group, with its checksum. Bytes of the
    /// sector that no field has, and all other sectors, stay
    /// (XFS Algorithms and Data Structures, "AG Free Space Block").
    pub fn encode(&self, block: &mut Block)
        ensures bytes { block.new.bytes ≡ with_sector 1 block.old.bytes (agf_written self.now (sector 1 block.old.bytes)) }
        ensures elsewhere { (k : ℕ) → k ≢ 1 → sector k block.new.bytes ≡ sector k block.old.bytes }
        ensures again { agf_of block.new.bytes ≡ self.now }
        ensures accepted { (at : Layout) (g : ℕ) → IsOfGroup at g self.now.seqno self.now.length self.now.uuid
            → agf_fault at g block.new.bytes ≡ None }
    {
        // A copy of the sector, so that what stays elsewhere is one contract for all three heads.
        let mut sector = sector_copy::<1>(block);
        put_agf(&mut sector, self);
        put_sector::<1>(block, &sector);
    }
}
