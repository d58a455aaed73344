// New images, block by block, by the CRC-32C of each block. The numbers are of the images that
// tests/make_image.py writes, which shares no code with these crates.
ghost use Rattle.std.specs.Prelude.{◌≤◌, ◌^◌};

use byte_fields::crc32c;
use fresh_image::fresh_block;
use std::process::Abort;
use std::test::Fail;

// The CRC-32C of a block of zeros.
const BLANK: u32 = 0x98f9_4189;

// One group of 256 blocks.
const ONE: [(u64, u32); 15] = [
    (0, 0x6029_756a),
    (1, 0xe897_9ff8),
    (2, 0xfd99_c4d1),
    (3, 0x033c_88a6),
    (4, 0x6466_1d94),
    (5, 0xd967_6c6c),
    (6, 0xa6e9_28fb),
    (24, 0x5e40_f194),
    (25, 0xc2e4_f325),
    (26, 0x3fda_b492),
    (27, 0x6b30_89ff),
    (28, 0xc04a_4d0d),
    (29, 0x94a0_7060),
    (30, 0x699e_37d7),
    (31, 0x3d74_0aba),
];

// Two groups of 65 blocks.
const TWO: [(u64, u32); 22] = [
    (0, 0x76e3_aaed),
    (1, 0x066a_aa8b),
    (2, 0x1364_f1a2),
    (3, 0x033c_88a6),
    (4, 0x6466_1d94),
    (5, 0xd967_6c6c),
    (6, 0xa6e9_28fb),
    (24, 0x5e40_f194),
    (25, 0xc2e4_f325),
    (26, 0x3fda_b492),
    (27, 0x6b30_89ff),
    (28, 0xc04a_4d0d),
    (29, 0x94a0_7060),
    (30, 0x699e_37d7),
    (31, 0x3d74_0aba),
    (65, 0x12f5_f688),
    (66, 0xff04_b2b5),
    (67, 0xfeb3_6231),
    (68, 0x09e1_6936),
    (69, 0x5371_60f3),
    (70, 0x6b7e_a5d0),
    (71, 0xd0ba_30e4),
];

// Three groups of 4,096 blocks.
const THREE: [(u64, u32); 29] = [
    (0, 0x286a_0d5d),
    (1, 0x48e1_d057),
    (2, 0x5def_8b7e),
    (3, 0x033c_88a6),
    (4, 0x6466_1d94),
    (5, 0xd967_6c6c),
    (6, 0xa6e9_28fb),
    (24, 0x5e40_f194),
    (25, 0xc2e4_f325),
    (26, 0x3fda_b492),
    (27, 0x6b30_89ff),
    (28, 0xc04a_4d0d),
    (29, 0x94a0_7060),
    (30, 0x699e_37d7),
    (31, 0x3d74_0aba),
    (4096, 0x5c37_9259),
    (4097, 0x0abe_9b2a),
    (4098, 0x1fb0_c003),
    (4099, 0x9718_c244),
    (4100, 0xf042_5776),
    (4101, 0xdcf4_19f8),
    (4102, 0x7389_0761),
    (8192, 0x68e8_58e1),
    (8193, 0x8727_d0cb),
    (8194, 0x9229_8be2),
    (8195, 0x1a81_89a5),
    (8196, 0x7ddb_1c97),
    (8197, 0x516d_5219),
    (8198, 0xfe10_4c80),
];

// The sum of this block.
fn expected(rows: &[(u64, u32)], at: u64) -> u32 {
    for (block, sum) in rows {
        if *block == at {
            return *sum;
        }
    }
    BLANK
}

fn expect_image(rt: &impl Abort, n: u32, len: u32, rows: &[(u64, u32)])
    requires groups { n ≤ 65536 }
    requires long { (64 ≤ len) × (len ≤ 2 ^ 28) }
{
    for at in 0..u64::from(n) * u64::from(len) {
        let block = fresh_block(n, len, at);
        assert_eq!(rt; crc32c(&block.bytes), expected(rows, at), "block {at}");
    }
}

#[test]
fn one_group_is_the_stored_image(rt: HostRuntime) {
    expect_image(&rt, 1, 256, &ONE);
}

#[test]
fn later_groups_have_no_inodes(rt: HostRuntime) {
    expect_image(&rt, 2, 65, &TWO);
    expect_image(&rt, 3, 4096, &THREE);
}
