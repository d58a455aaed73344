ghost use Rattle.std.specs.Prelude.{◌≡◌, ℕ, ◌^◌, ◌<◌, length, slice_index, Some, None, IfOk};
ghost use Rattle.byte_fields.specs.FirstFailing.{Decodes};
ghost use Rattle.geom.specs.Layout.{Layout};
ghost use Rattle.geom.specs.Places.{layout};
ghost use Rattle.ag_headers.specs.Agi.{agi_fault, agi_of, agi_in, agi_form, agi_inodes, agi_free, agi_table, agi_written};
ghost use Rattle.ag_headers.specs.Fields.{with_table, AllFit};
ghost use Rattle.ag_headers.specs.Tests.{head_fault, IsOfGroup};

use crate::fault::HeadFault;
use crate::head::{Form, first_fault, put_ids, put_stamp};
use crate::sector::{get_numbers, get_uuid, put_numbers, put_sector, sector_copy, sector_in};
use byte_fields::{Block, get_u32, get_u64, put_u32};
use geom::Geometry;

// "XAGI", and the places of `agi_uuid`, `agi_lsn` and `agi_crc`.
const AGI: Form = Form {
    magic: 0x5841_4749,
    uuid_at: 296,
    lsn_at: 320,
    sum_at: 312,
};

// The place of `agi_unlinked`.
const UNLINKED: usize = 40;

/// The AGI, the head of a group's inodes, each number under its field's name without `agi_`. Blocks
/// are counted from the group's start, levels from 1 for a tree of one leaf, and inodes by their
/// number inside the group. Magic number and version have but one value, and the checksum follows
/// from the rest, so none of these is a field
/// (XFS Algorithms and Data Structures, "AG Inode Management").
#[derive(Clone, Copy, Debug, PartialEq, Eq)]
pub struct Agi {
    /// The group.
    pub seqno: u32,
    /// Blocks of the group.
    pub length: u32,
    /// Inodes of the group's chunks, allocated or free.
    pub count: u32,
    /// The root block of the tree of inode chunks.
    pub root: u32,
    /// Levels of that tree.
    pub level: u32,
    /// Free inodes of the group's chunks.
    pub freecount: u32,
    /// The first inode of the chunk that was made last; all ones for none.
    pub newino: u32,
    /// Not used; all ones.
    pub dirino: u32,
    /// The first inode of each of 64 lists of inodes that have no name and are still open; all ones
    /// for an empty list.
    pub unlinked: [u32; 64],
    /// The file system's UUID.
    pub uuid: [u8; 16],
    /// The log sequence number of the last write.
    pub lsn: u64,
    /// The root block of the tree of chunks with free inodes.
    pub free_root: u32,
    /// Levels of that tree.
    pub free_level: u32,
    /// Blocks of the tree of inode chunks, its root included. It has a meaning only where heads
    /// count the blocks of these trees.
    pub iblocks: u32,
    /// The same of the tree of chunks with free inodes.
    pub fblocks: u32,
}

fn agi_at(agi: &[u8]) -> Agi
    requires { length agi.now ≡ 512 }
    ensures { result ≡ agi_in agi.now }
{
    Agi {
        seqno: get_u32(agi, 8),
        length: get_u32(agi, 12),
        count: get_u32(agi, 16),
        root: get_u32(agi, 20),
        level: get_u32(agi, 24),
        freecount: get_u32(agi, 28),
        newino: get_u32(agi, 32),
        dirino: get_u32(agi, 36),
        unlinked: get_numbers::<64>(agi, UNLINKED),
        uuid: get_uuid(agi, AGI.uuid_at),
        lsn: get_u64(agi, AGI.lsn_at),
        free_root: get_u32(agi, 328),
        free_level: get_u32(agi, 332),
        iblocks: get_u32(agi, 336),
        fblocks: get_u32(agi, 340),
    }
}

/// The AGI of group `g`, read from block 0 of the group. An error is the first of its tests that
/// fails: magic, version, seqno, length, checksum, UUID. What its numbers say isn't tested
/// (XFS Algorithms and Data Structures, "AG Inode Management").
pub fn decode_agi(block: &Block, geo: &Geometry, g: u32) -> Result<Agi, HeadFault>
    requires { g < geo.now.agcount }
    ensures exact { Decodes (agi_fault (layout geo.now) g block.now.bytes) (λ agi. agi ≡ agi_of block.now.bytes) result }
    ensures of_group { IfOk result (λ agi. IsOfGroup (layout geo.now) g agi.seqno agi.length agi.uuid) }
{
    let agi = sector_in::<2>(&block.bytes);
    match first_fault(&AGI, agi, geo, g) {
        Some(fault) => Err(fault),
        None => Ok(agi_at(agi)),
    }
}

fn put_inodes(sector: &mut [u8], agi: &Agi)
    requires { length sector.old ≡ 512 }
    ensures bytes { sector.new ≡ with_table (agi_inodes agi.now) sector.old }
    ensures fits { AllFit (agi_inodes agi.now) }
{
    put_u32(sector, 16, agi.count);
    put_u32(sector, 20, agi.root);
    put_u32(sector, 24, agi.level);
    put_u32(sector, 28, agi.freecount);
    put_u32(sector, 32, agi.newino);
    put_u32(sector, 36, agi.dirino);
}

fn put_free(sector: &mut [u8], agi: &Agi)
    requires { length sector.old ≡ 512 }
    ensures bytes { sector.new ≡ with_table (agi_free agi.now) sector.old }
    ensures fits { AllFit (agi_free agi.now) }
{
    put_u32(sector, 328, agi.free_root);
    put_u32(sector, 332, agi.free_level);
    put_u32(sector, 336, agi.iblocks);
    put_u32(sector, 340, agi.fblocks);
}

#[tactic(auto, using(crate::proofs::TableLemmas::fits_append))]
fn put_table(sector: &mut [u8], agi: &Agi)
    requires { length sector.old ≡ 512 }
    ensures bytes { sector.new ≡ with_table (agi_table agi.now) sector.old }
    ensures fits { AllFit (agi_table agi.now) }
{
    put_ids(&AGI, sector, agi.seqno, agi.length);
    put_inodes(sector, agi);
    put_free(sector, agi);
}

fn put_agi(sector: &mut [u8], agi: &Agi)
    requires { length sector.old ≡ 512 }
    ensures bytes { sector.new ≡ agi_written agi.now sector.old }
    ensures again { agi_in sector.new ≡ agi.now }
    ensures accepted { (at : Layout) (g : ℕ) → IsOfGroup at g agi.now.seqno agi.now.length agi.now.uuid
        → head_fault agi_form at g sector.new ≡ None }
{
    put_table(sector, agi);
    put_numbers::<64>(sector, UNLINKED, &agi.unlinked);
    put_stamp(&AGI, sector, &agi.uuid, agi.lsn);
}

impl Agi {
    ghost use Rattle.std.specs.Prelude.{◌≡◌, ◌≢◌, ℕ, None};
    ghost use Rattle.geom.specs.Layout.{Layout};
    ghost use Rattle.ag_headers.specs.Agi.{agi_fault, agi_of, agi_written};
    ghost use Rattle.ag_headers.specs.Fields.{sector, with_sector};
    ghost use Rattle.ag_headers.specs.Tests.{IsOfGroup};

    /// Writes the AGI into its sector of block 0 of a group, with its checksum. Bytes of the
    /// sector that no field has, and all other sectors, stay
    /// (XFS Algorithms and Data Structures, "AG Inode Management").
    pub fn encode(&self, block: &mut Block)
        ensures bytes { block.new.bytes ≡ with_sector 2 block.old.bytes (agi_written self.now (sector 2 block.old.bytes)) }
        ensures elsewhere { (k : ℕ) → k ≢ 2 → sector k block.new.bytes ≡ sector k block.old.bytes }
        ensures again { agi_of block.new.bytes ≡ self.now }
        ensures accepted { (at : Layout) (g : ℕ) → IsOfGroup at g self.now.seqno self.now.length self.now.uuid
            → agi_fault at g block.new.bytes ≡ None }
    {
        let mut sector = sector_copy::<2>(block);
        put_agi(&mut sector, self);
        put_sector::<2>(block, &sector);
    }
}
