ghost use Rattle.std.specs.Prelude.{◌≡◌, ◌+◌, ◌^◌, ◌<◌, ◌≤◌, length, true};
ghost use Rattle.byte_fields.specs.Checksum.{has_sum};
ghost use Rattle.geom.specs.Places.{layout};
ghost use Rattle.ag_headers.specs.Fields.{with_table, stamped, AllFit};
ghost use Rattle.ag_headers.specs.Tests.{head_ids, head_fault};

use crate::fault::HeadFault;
use crate::sector::{put_checksum, put_uuid};
use byte_fields::{get_u32, is_summed, is_uuid_at, put_u32, put_u64};
use geom::Geometry;

// The only version of an AGF and an AGI.
const VERSION: u32 = 1;

/// In what the heads differ: the magic number, and where the UUID, the log sequence number and
/// the checksum stand in the sector.
#[derive(Clone, Copy, Debug, PartialEq, Eq)]
pub struct Form {
    pub magic: u32,
    pub uuid_at: usize,
    pub lsn_at: usize,
    pub sum_at: usize,
}

/// The first test that group `g`'s AGF or AGI, given as its sector, fails.
#[tactic(auto, unfolding(crate::specs::Tests::head_fault))]
pub fn first_fault(form: &Form, head: &[u8], geo: &Geometry, g: u32) -> Option<HeadFault>
    requires whole { length head.now ≡ 512 }
    requires sum { form.now.sum_at + 4 ≤ 512 }
    requires uuid { form.now.uuid_at + 16 ≤ 512 }
    requires group { g < geo.now.agcount }
    ensures { result ≡ head_fault form.now (layout geo.now) g head.now }
{
    if get_u32(head, 0) != form.magic {
        return Some(HeadFault::Magic);
    }
    if get_u32(head, 4) != VERSION {
        return Some(HeadFault::Version);
    }
    if get_u32(head, 8) != g {
        return Some(HeadFault::Seqno);
    }
    if get_u32(head, 12) != geo.group_len(g) {
        return Some(HeadFault::Length);
    }
    if !is_summed(head, form.sum_at) {
        return Some(HeadFault::Checksum);
    }
    if !is_uuid_at(head, form.uuid_at, &geo.uuid) {
        return Some(HeadFault::Uuid);
    }
    None
}

/// Puts the magic number, the version, the group and the group's blocks into the sector of an
/// AGF or AGI.
pub fn put_ids(form: &Form, sector: &mut [u8], seqno: u32, blocks: u32)
    requires { length sector.old ≡ 512 }
    ensures bytes { sector.new ≡ with_table (head_ids form.now seqno blocks) sector.old }
    ensures fits { AllFit (head_ids form.now seqno blocks) }
{
    put_u32(sector, 0, form.magic);
    put_u32(sector, 4, VERSION);
    put_u32(sector, 8, seqno);
    put_u32(sector, 12, blocks);
}

/// Puts the UUID, the log sequence number and then the checksum into a head's sector.
#[tactic(auto, unfolding(crate::specs::Fields::stamped))]
pub fn put_stamp(form: &Form, sector: &mut [u8], uuid: &[u8; 16], lsn: u64)
    requires whole { length sector.old ≡ 512 }
    requires uuid { form.now.uuid_at + 16 ≤ 512 }
    requires lsn { form.now.lsn_at + 8 ≤ 512 }
    requires sum { form.now.sum_at + 4 ≤ 512 }
    ensures bytes { sector.new ≡ stamped form.now uuid.now lsn sector.old }
    ensures fits { lsn < 2 ^ 64 }
    ensures summed { has_sum sector.new form.now.sum_at ≡ true }
{
    put_uuid(sector, form.uuid_at, uuid);
    put_u64(sector, form.lsn_at, lsn);
    put_checksum(sector, form.sum_at);
}
