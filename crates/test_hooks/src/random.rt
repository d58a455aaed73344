// A shadow beside a table of single blocks.
use super::same::same;
use crate::shadows::{FITS, edit, rec_of, runs_of};
use rmap_recs::RmapRec;
use shadow_rmap::Shadow;
use std::alloc::Global;
use std::process::Abort;

// Whether a block is kept, of 32 blocks and two owners.
type Table = [bool; 64];

// The next of a row of numbers that look random.
fn next(number: u32) -> u32 {
    number.wrapping_mul(1_664_525).wrapping_add(1_013_904_223)
}

// A record of up to 4 blocks below 32, by a number. The offset of a block is its own number, so
// that all neighbours of one owner join.
fn rec_at(number: u32) -> RmapRec {
    let start = (number >> 8) % 28;
    let count = 1 + (number >> 16) % 4;
    let owner = 195 + u64::from((number >> 24) % 2);
    rec_of(start, count, owner, u64::from(start))
}

// Where a block of an owner stands in the table.
fn place_of(owner: u64, block: u32) -> usize {
    let row = if owner == 195 { 0 } else { 32usize };
    row.saturating_add(block as usize)
}

fn put(table: &mut Table, rec: &RmapRec, kept: bool) {
    for i in 0..rec.count {
        let place = place_of(rec.owner, rec.start.saturating_add(i));
        if place < 64 {
            table[place] = kept;
        }
    }
}

// The table that some runs make.
fn table_of(runs: &[RmapRec]) -> Table {
    let mut table = [false; 64];
    for run in runs {
        put(&mut table, run, true);
    }
    table
}

// Whether two of the runs could be one.
fn does_one_join(runs: &[RmapRec]) -> bool {
    runs.iter()
        .any(|run| runs.iter().any(|other| run.can_join(other)))
}

// Makes the change of a number in shadow and table, whatever of its blocks is there: two of three
// are additions.
fn change(rt: &impl Abort, shadow: &mut Shadow, table: &mut Table, number: u32) {
    let rec = rec_at(number);
    let add = (number >> 25) % 3 != 0;
    edit(shadow, add, &rec).expect(rt, FITS);
    put(table, &rec, add);
}

// The runs after some changes, which are made in the table as well.
fn runs_after(
    rt: &impl Abort,
    alloc: Global,
    seed: u32,
    many: u32,
    table: &mut Table,
) -> Vec<RmapRec> {
    let mut shadow = Shadow::new(alloc, 0).expect(rt, FITS);
    let mut number = seed;
    for _ in 0..many {
        number = next(number);
        change(rt, &mut shadow, table, number);
    }
    runs_of(alloc, &shadow).expect(rt, FITS)
}

#[test]
fn changes_at_random_keep_the_runs_of_the_table(rt: HostRuntime) {
    for seed in 0..60u32 {
        let mut table = [false; 64];
        let runs = runs_after(&rt, rt.alloc(), seed, 20 + seed, &mut table);
        let made = table_of(runs.as_slice());
        same(&rt, (seed, made.as_slice()), (seed, table.as_slice()));
        same(&rt, (seed, does_one_join(runs.as_slice())), (seed, false));
    }
}
