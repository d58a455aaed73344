ghost use Rattle.std.specs.Prelude.{◌≡◌, ◌+◌};

use super::same::same;
use byte_fields::{Block, Steps, crc32c, is_summed, plain_crc32c, put_sum, sum_at};
use std::marker::Brand;
use std::sync::ledger::{Blank, Ledger};

#[test]
fn checksums_of_known_texts(rt: HostRuntime) {
    same(&rt, crc32c(b"123456789"), 0xe306_9283);
    same(&rt, crc32c(b""), 0);
    // The 32 bytes of zeros and of ones of RFC 3720, appendix B.4.
    same(&rt, crc32c(&[0; 32]), 0x8a91_36aa);
    same(&rt, crc32c(&[0xff; 32]), 0x62a8_ab43);
}

#[test]
fn fast_checksum_is_the_plain_one(rt: HostRuntime) {
    let text = b"Forty bytes are five times eight of them";
    for end in 0..41usize {
        assert_eq!(rt;
            crc32c(&text[..end]),
            plain_crc32c(&text[..end]),
            "at {end}"
        );
    }
}

// A block of the numbers from 0 to 250, again and again.
fn counted() -> Block {
    let mut bytes = Block::zeroed().bytes;
    for i in 0..4096usize {
        bytes[i] = (i % 251) as u8;
    }
    Block { bytes }
}

#[test]
fn checksum_of_a_block(rt: HostRuntime) {
    let block = counted();
    same(&rt, crc32c(&block.bytes), 0x7190_77fc);
    same(&rt, plain_crc32c(&block.bytes), 0x7190_77fc);
}

#[test]
fn sum_leaves_its_own_bytes_out(rt: HostRuntime) {
    let mut block = counted();
    let sum = sum_at(&block.bytes, 52);
    same(&rt, sum, 0xf38b_a71a);
    put_sum(&mut block.bytes, 52, sum);
    assert!(rt; is_summed(&block.bytes, 52));
    same(&rt, sum_at(&block.bytes, 52), sum);
}

#[test]
fn sum_is_stored_lowest_byte_first(rt: HostRuntime) {
    let mut bytes = [0xaa; 6];
    put_sum(&mut bytes, 1, 0xe306_9283);
    same(&rt, bytes, [0xaa, 0x83, 0x92, 0x06, 0xe3, 0xaa]);
}

// A copy of one block to another place, as a caller counts it.
fn copy_one<L: Ledger>(steps: &mut Steps<L>)
    ensures { steps.new ≡ record steps.old { reads = steps.old.reads + 1; writes = steps.old.writes + 1 } }
{
    steps.block_read();
    steps.block_written();
}

fn copy_two<L: Ledger>(blank: Blank) -> Steps<L>
    requires name { blank.name ≡ L.name }
    requires parts { blank.parts ≡ L.parts }
    requires three { blank.parts ≡ 3 }
    ensures { result ≡ record { reads = 2; writes = 2; moves = 1 } }
{
    let mut steps = Steps::<L>::new(blank);
    copy_one(&mut steps);
    copy_one(&mut steps);
    steps.record_moved();
    steps
}

fn uncounted<L: Ledger>(blank: Blank)
    requires name { blank.name ≡ L.name }
    requires parts { blank.parts ≡ L.parts }
    requires three { blank.parts ≡ 3 }
{
    let _ = copy_two::<L>(blank);
}

#[test]
fn caller_that_counts_nothing(rt: HostRuntime) {
    uncounted::<Brand>(Blank::new(3));
    same(&rt, std::mem::size_of::<Steps<Brand>>(), 0);
}
