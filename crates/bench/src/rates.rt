ghost use Rattle.std.specs.Prelude.{◌≡◌, ◌*◌, ◌/◌, max};
ghost use Rattle.std.specs.Duration.{as_nanos};

use byte_fields::{Block, crc32c, plain_crc32c, put_u32};
use std::time::Duration;

/// Which of the two checksums is measured.
#[derive(Clone, Copy, Debug, PartialEq, Eq)]
pub enum Body {
    Fast,
    Plain,
}

/// The checksum of the last of so many blocks, of which each begins with the checksum of the
/// one before it. It stands for the work: without it there would be no sum to wait for.
pub(crate) fn last_sum(body: Body, blocks: u32) -> u32 {
    let mut bytes = Block::zeroed().bytes;
    let mut sum = 0;
    for _ in 0..blocks {
        put_u32(&mut bytes, 0, sum);
        sum = match body {
            Body::Fast => crc32c(&bytes),
            Body::Plain => plain_crc32c(&bytes),
        };
    }
    sum
}

/// How many bytes a second it is, where so many blocks took this time. A time below a
/// microsecond counts as one.
pub fn bytes_per_second(blocks: u32, time: Duration) -> u128
    ensures { result ≡ blocks * 4096 * 1_000_000 / max (as_nanos time / 1_000) 1 }
{
    u128::from(blocks) * 4096 * 1_000_000 / time.as_micros().max(1)
}
