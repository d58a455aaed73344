//! The bytes of a block: big-endian fields, the CRC-32C checksum, and a count of steps.
#![tactic(auto)]

mod block;
mod checksum;
mod far_tables;
mod fields;
mod near_tables;
mod plain;
mod steps;
mod tables;
mod words;

pub use block::Block;
pub use checksum::{crc32c, is_summed, sum_at};
pub use fields::{
    get_sum, get_u16, get_u32, get_u64, is_uuid_at, put_sum, put_u16, put_u32, put_u64,
};
pub use plain::plain_crc32c;
pub use steps::Steps;
