//! Images that are refused for their superblock or for a head of a group.
use crate::runs::{MEMORY, expect_check, image_with};
use byte_fields::Block;
use small_images::{
    altered, first_of_two, heads_of, mended_heads, second_of_two, small_heads, small_image,
    two_groups_with,
};
use std::alloc::Global;
use std::process::Abort;

// Asserts that the small image with these heads is refused with this line.
fn expect_refused(rt: &impl Abort, alloc: Global, heads: Block, report: &str) {
    expect_check(rt, alloc, image_with(rt, alloc, &[(0, heads)]), 4, report);
}

// The heads of the small image with this number at this byte, and with right checksums.
fn heads_with(at: usize, value: u32) -> Block {
    mended_heads(altered(small_heads(), at, value))
}

// Asserts that an image whose file has so few blocks is refused.
fn expect_too_short(rt: &impl Abort, alloc: Global, size: u64) {
    let mut image = small_image(alloc).expect(rt, MEMORY);
    image.size = size;
    expect_check(rt, alloc, image, 4, "image deviceshort\n");
}

#[test]
fn each_fault_of_a_superblock_refuses_the_image(rt: HostRuntime) {
    let alloc = rt.alloc();
    let rows = [
        (0, 0x5846_5344, "image magic\n"),
        (100, 0x0004_0200, "image version\n"),
        (4, 512, "image sizes\n"),
        (216, 0x0000_0103, "image feature 40\n"),
        (212, 0x0000_000d, "image feature 1\n"),
        (20, 1, "image realtime\n"),
        (88, 2, "image counts\n"),
    ];
    for (at, value, report) in &rows {
        expect_refused(&rt, alloc, heads_with(*at, *value), report);
    }
    expect_refused(
        &rt,
        alloc,
        altered(small_heads(), 508, 1),
        "image checksum\n",
    );
    for size in [0, 10, 255] {
        expect_too_short(&rt, alloc, size);
    }
}

#[test]
fn each_fault_of_a_head_refuses_the_image(rt: HostRuntime) {
    let alloc = rt.alloc();
    let rows = [
        (512, 0x5841_4749, "group 0 agf magic\n"),
        (516, 2, "group 0 agf version\n"),
        (520, 1, "group 0 agf seqno\n"),
        (524, 255, "group 0 agf length\n"),
        (588, 0x0d0e_0f11, "group 0 agf uuid\n"),
        (1024, 0x5841_4746, "group 0 agi magic\n"),
        (1028, 2, "group 0 agi version\n"),
        (1032, 1, "group 0 agi seqno\n"),
        (1036, 255, "group 0 agi length\n"),
        (1332, 0x0d0e_0f11, "group 0 agi uuid\n"),
        (1536, 0x5841_4749, "group 0 agfl magic\n"),
        (1540, 1, "group 0 agfl seqno\n"),
        (1556, 0x0d0e_0f11, "group 0 agfl uuid\n"),
    ];
    for (at, value, report) in &rows {
        expect_refused(&rt, alloc, heads_with(*at, *value), report);
    }
    for (at, report) in [
        (1020, "group 0 agf checksum\n"),
        (1532, "group 0 agi checksum\n"),
        (2044, "group 0 agfl checksum\n"),
    ] {
        expect_refused(&rt, alloc, altered(small_heads(), at, 1), report);
    }
}

#[test]
fn a_wrong_free_list_is_told_by_its_place(rt: HostRuntime) {
    let alloc = rt.alloc();
    let rows = [
        // Block 9 stands at place 2 too; a block 0, and one beyond the group.
        (1584, 9, "group 0 agfl freelist 3\n"),
        (1572, 0, "group 0 agfl freelist 0\n"),
        (1616, 256, "group 0 agfl freelist 11\n"),
        // A first place that isn't there, and a last one and a count that don't fit it.
        (552, 119, "group 0 agfl freelist 119\n"),
        (556, 12, "group 0 agfl freelist 119\n"),
        (560, 13, "group 0 agfl freelist 119\n"),
    ];
    for (at, value, report) in &rows {
        expect_refused(&rt, alloc, heads_with(*at, *value), report);
    }
}

// Asserts that an image of two groups with these heads is refused with this line.
fn expect_two_refused(rt: &impl Abort, alloc: Global, heads: [Block; 2], report: &str) {
    let [first, second] = heads;
    let image = two_groups_with(alloc, &[(0, first), (64, second)]).expect(rt, MEMORY);
    expect_check(rt, alloc, image, 4, report);
}

#[test]
fn the_first_wrong_head_is_told_before_any_unit(rt: HostRuntime) {
    let alloc = rt.alloc();
    let first = heads_of(&first_of_two());
    let second = heads_of(&second_of_two());
    // The AGI and the AGFL of the second group, and the AGFL of the first.
    let both = mended_heads(altered(altered(second, 1028, 2), 1540, 0));
    let spaces = mended_heads(altered(heads_of(&first_of_two()), 568, 5));
    expect_two_refused(&rt, alloc, [spaces, both], "group 1 agi version\n");
    let list = mended_heads(altered(first, 1584, 9));
    expect_two_refused(&rt, alloc, [list, both], "group 0 agfl freelist 3\n");
}
