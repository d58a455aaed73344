ghost use Rattle.std.specs.Prelude.{◌≡◌, ◌+◌, ◌*◌, ◌^◌, ◌<◌, ◌≤◌, length};
ghost use Rattle.std.specs.List.{splice};
ghost use Rattle.byte_fields.specs.Checksum.{checksum, blanked};
ghost use Rattle.byte_fields.specs.Fields.{with_low_field};
ghost use Rattle.sblock.specs.Area.{area_of};
ghost use Rattle.sblock.specs.Kinds.{magic_of};
ghost use Rattle.bulk_load.specs.Header.{with_numbers, AllFit, numbers_of, with_ids, with_seal, with_area};
ghost use Rattle.bulk_load.specs.Leaf.{block_bytes};
ghost use Rattle.bulk_load.specs.Loaded.{IsHeaded};

use byte_fields::{Block, put_sum, put_u16, put_u32, put_u64, sum_at};
use sblock::{Frame, Header, Kind};

// Sectors of 512 bytes in a block: places in a header count these.
const SECTORS: u64 = 8;

// The first 32 bytes of a header: one number behind the other.
fn put_numbers(bytes: &mut [u8], kind: Kind, header: &Header, place: u64)
    requires { length bytes.old ≡ 4096 }
    ensures bytes { bytes.new ≡ with_numbers bytes.old (numbers_of kind header.now place) }
    ensures fits { AllFit (numbers_of kind header.now place) }
{
    put_u32(bytes, 0, kind.magic());
    put_u16(bytes, 4, u16::from(header.level));
    put_u16(bytes, 6, header.numrecs);
    put_u32(bytes, 8, header.left);
    put_u32(bytes, 12, header.right);
    put_u64(bytes, 16, place);
    put_u64(bytes, 24, header.lsn);
}

// Puts these bytes at `at`. All others stay.
fn put_part(bytes: &mut [u8], at: usize, part: &[u8])
    requires { at + length part.now ≤ length bytes.old }
    ensures { bytes.new ≡ splice bytes.old at (at + length part.now) part.now }
{
    bytes[at..at + part.len()].copy_from_slice(part);
}

fn put_uuid(bytes: &mut [u8], uuid: &[u8; 16])
    requires { length bytes.old ≡ 4096 }
    ensures bytes { bytes.new ≡ splice bytes.old 32 48 uuid.now }
    ensures sixteen { length uuid.now ≡ 16 }
{
    put_part(bytes, 32, &uuid[..]);
}

fn put_checksum(bytes: &mut [u8])
    requires { length bytes.old ≡ 4096 }
    ensures bytes { bytes.new ≡ with_low_field 4 bytes.old 52 (checksum (blanked bytes.old 52)) }
    ensures fits { checksum (blanked bytes.old 52) < 2 ^ 32 }
{
    let sum = sum_at(bytes, 52);
    put_sum(bytes, 52, sum);
}

// The rest of a header: the UUID, the group, and then the checksum of it all.
#[tactic(auto, unfolding(crate::specs::Header::with_seal))]
fn put_seal(bytes: &mut [u8], uuid: &[u8; 16], group: u32)
    requires { length bytes.old ≡ 4096 }
    ensures bytes { bytes.new ≡ with_seal bytes.old uuid.now group }
    ensures uuid { length uuid.now ≡ 16 }
    ensures fits { group < 2 ^ 32 }
    ensures sum { checksum (blanked (with_ids bytes.old uuid.now group) 52) < 2 ^ 32 }
{
    put_uuid(bytes, uuid);
    put_u32(bytes, 48, group);
    put_checksum(bytes);
}

#[tactic(auto, unfolding(crate::specs::Header::with_area))]
fn put_area(bytes: &mut [u8], area: &[u8])
    requires whole { length bytes.old ≡ 4096 }
    requires area { length area.now ≡ 4040 }
    ensures { bytes.new ≡ with_area bytes.old area.now }
{
    put_part(bytes, 56, area);
}

// A block with this area behind a header of these numbers, for block `at` of the group.
pub(crate) fn block_of(area: &[u8], kind: Kind, header: &Header, frame: &Frame, at: u32) -> Block
    requires area { length area.now ≡ 4040 }
    requires place { 8 * (frame.now.first + at) < 2 ^ 64 }
    ensures area { area_of result.bytes ≡ area.now }
    ensures head { IsHeaded kind header.now frame.now at result.bytes }
    ensures exact { result.bytes ≡ block_bytes kind header.now frame.now at area.now }
{
    let place = SECTORS * (frame.first + u64::from(at));
    let mut block = Block::zeroed();
    put_area(&mut block.bytes, area);
    put_numbers(&mut block.bytes, kind, header, place);
    put_seal(&mut block.bytes, &frame.uuid, frame.group);
    block
}
