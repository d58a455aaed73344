ghost use Rattle.std.specs.Prelude.{◌≡◌, ◌+◌, ◌-◌, ◌*◌, ◌≤◌, ◌<◌, ◌++◌, length, IfErr, OnOk};
ghost use Rattle.fork_read.specs.First.{entries_from, entries_in};
ghost use Rattle.fork_read.specs.Walk.{pruned, tasks_of};

use crate::fault::ReadFault;
use byte_fields::get_u64;
use std::collections::VecDeque;

/// A subtree that is still to be read: its level, its lowest offset, and the file system block where
/// it begins.
#[derive(Clone, Copy, Drop)]
pub struct Task {
    pub level: u8,
    pub key: u64,
    pub block: u64,
}

/// Where the keys and the pointers of a node stand in these bytes, and how many there are.
#[derive(Clone, Copy, Drop)]
pub struct Table {
    pub keys: usize,
    pub pointers: usize,
    pub count: usize,
}

// The number of the first entry whose subtree isn't passed by.
fn first_entry(bytes: &[u8], table: &Table, from: u64) -> usize
    requires keys { table.now.keys + 8 * table.now.count ≤ length bytes.now }
    requires small { table.now.pointers + 8 * table.now.count ≤ length bytes.now }
    ensures few { result ≤ table.now.count }
    ensures exact { pruned from (entries_in table.now bytes.now) ≡ entries_from table.now result bytes.now }
{
    let mut i = 0;
    while i + 1 < table.count && get_u64(bytes, table.keys + 8 * (i + 1)) < from {
        i += 1;
    }
    i
}

/// Puts the subtrees of a node that aren't passed by in front of those that are still to be read.
pub fn push_entries(
    bytes: &[u8],
    table: &Table,
    level: u8,
    from: u64,
    tasks: &mut VecDeque<Task>,
) -> Result<(), ReadFault>
    requires keys { table.now.keys + 8 * table.now.count ≤ length bytes.now }
    requires small { table.now.pointers + 8 * table.now.count ≤ length bytes.now }
    ensures pushed { OnOk result (tasks.new.items ≡ tasks_of level (pruned from (entries_in table.now bytes.now)) ++ tasks.old.items) }
    ensures memory { IfErr result (λ error. error ≡ ReadFault.Memory) }
{
    let first = first_entry(bytes, table, from);
    let mut i = table.count;
    while i > first {
        i -= 1;
        let task = Task {
            level,
            key: get_u64(bytes, table.keys + 8 * i),
            block: get_u64(bytes, table.pointers + 8 * i),
        };
        tasks.push_front(task)?;
    }
    Ok(())
}
