// The table of a batch, block 1 of the redo region.
ghost use Rattle.std.specs.Prelude.{◌≡◌, ◌≤◌, ◌+◌, ◌*◌, ◌&&◌, true, length, drop, IfSome, nat_le, nat_lt};
ghost use Rattle.redo_area.specs.Recover.{IsOfTable};
ghost use Rattle.redo_area.specs.Table.{numbers, places, put_numbers, rises, is_count, table_bytes, table_count, table_fault, table_numbers, table_size};

use crate::MAX_BATCH;
use crate::faults::RedoFault;
use byte_fields::{Block, get_u32, get_u64, put_u32, put_u64};

// Writes the numbers of a batch from byte 16 on.
#[tactic(auto, unfolding(crate::specs::Table::put_numbers))]
fn write_numbers(bytes: &mut [u8], batch: &[(u64, Block)])
    requires { 16 + 8 * length batch.now ≤ length bytes.old }
    ensures { bytes.new ≡ put_numbers (places batch.now) 16 bytes.old }
{
    let mut rest = batch;
    let mut at = 16;
    while let Some(((number, _), later)) = rest.split_first() {
        put_u64(bytes, at, *number);
        at += 8;
        rest = later;
    }
}

/// The table of a batch, for an image of this many blocks.
#[tactic(auto, unfolding(crate::specs::Table::table_bytes))]
pub fn table_block(batch: &[(u64, Block)], size: u64) -> Block
    requires { length batch.now ≤ MAX_BATCH }
    ensures { result.bytes ≡ table_bytes size (places batch.now) }
{
    let mut block = Block::zeroed();
    put_u64(&mut block.bytes, 0, size);
    put_u32(&mut block.bytes, 8, batch.len() as u32);
    write_numbers(&mut block.bytes, batch);
    block
}

/// Whether a number comes at its place: not below the least, and below the size.
pub fn is_placed(number: u64, least: u64, size: u64) -> bool
    ensures { result ≡ (nat_le least number && nat_lt number size) }
{
    number >= least && number < size
}

// Whether so many numbers from byte 16 on rise, each below the size.
fn do_numbers_rise(bytes: &[u8], count: u32, size: u64) -> bool
    requires few { count ≤ MAX_BATCH }
    requires long { 1296 ≤ length bytes.now }
    ensures { result ≡ rises 0 size (numbers count (drop 16 bytes.now)) }
{
    let mut left = count;
    let mut at = 16;
    let mut least = 0;
    while left > 0 {
        let number = get_u64(bytes, at);
        if !is_placed(number, least, size) {
            return false;
        }
        least = number + 1;
        at += 8;
        left -= 1;
    }
    true
}

/// How many blocks the batch of a table has.
#[tactic(auto, unfolding(crate::specs::Table::table_count))]
pub fn count_of(bytes: &[u8]) -> u32
    requires { 1296 ≤ length bytes.now }
    ensures { result ≡ table_count bytes.now }
{
    get_u32(bytes, 8)
}

#[tactic(auto, unfolding(crate::specs::Table::table_size))]
fn size_of(bytes: &[u8]) -> u64
    requires { 1296 ≤ length bytes.now }
    ensures { result ≡ table_size bytes.now }
{
    get_u64(bytes, 0)
}

#[tactic(auto, unfolding(crate::specs::Table::is_count))]
fn is_batch_count(count: u32) -> bool
    ensures test { result ≡ is_count count }
    ensures few { result ≡ true → count ≤ MAX_BATCH }
{
    count > 0 && count <= MAX_BATCH as u32
}

#[tactic(auto, unfolding(crate::specs::Table::table_numbers))]
fn does_rise(bytes: &[u8], size: u64) -> bool
    requires few { table_count bytes.now ≤ MAX_BATCH }
    requires long { 1296 ≤ length bytes.now }
    ensures { result ≡ rises 0 size (table_numbers bytes.now) }
{
    do_numbers_rise(bytes, count_of(bytes), size)
}

/// The first fault of a table, for an image of this many blocks.
#[tactic(auto, unfolding(crate::specs::Table::table_fault))]
pub fn fault_of(bytes: &[u8], size: u64) -> Option<RedoFault>
    requires long { 1296 ≤ length bytes.now }
    ensures first { result ≡ table_fault size bytes.now }
    ensures kind { IfSome result IsOfTable }
{
    if !is_batch_count(count_of(bytes)) {
        return Some(RedoFault::Count);
    }
    if size_of(bytes) != size {
        return Some(RedoFault::Size);
    }
    if !does_rise(bytes, size) {
        return Some(RedoFault::Place);
    }
    None
}
