// Whether all claims on the blocks of a group lie in it: those of a group whose trees, free list and
// chunks were read do.
ghost use Rattle.std.specs.Prelude.{◌≡◌, ◌++◌, ◌<◌, ◌^◌, true, map};
ghost use Rattle.core_units.specs.Claims.{group_pieces, owner_piece};
ghost use Rattle.geom.specs.Layout.{group_len_of};
ghost use Rattle.geom.specs.Places.{layout};
ghost use Rattle.group_trees.specs.Group.{tree_blocks};
ghost use Rattle.unit_plan.specs.Sets.{LieBelow};
ghost use Rattle.core_units.specs.Tested.{BlocksWithin, LimboWithin, LogWithin, OwnersWithin, RunsWithin, TreesWithin, UnitsWithin};

use crate::Judging;
use block_reap::LimboRun;
use geom::{Geometry, Run3};
use group_trees::{GroupHeads, GroupTrees, blocks_of};
use rmap_recs::RmapRec;
use run_sets::Run;

// Whether each of these is a block below the limit.
fn blocks_lie(limit: u32, blocks: &[u32]) -> bool
    ensures { result ≡ true → BlocksWithin limit blocks.now }
{
    let mut rest = blocks;
    while let Some((block, later)) = rest.split_first() {
        if *block >= limit {
            return false;
        }
        rest = later;
    }
    true
}

fn limbo_lies(limit: u32, limbo: &[LimboRun]) -> bool
    ensures { result ≡ true → LimboWithin limit limbo.now }
{
    let mut rest = limbo;
    while let Some((run, later)) = rest.split_first() {
        if u64::from(run.start) + u64::from(run.count) > u64::from(limit) {
            return false;
        }
        rest = later;
    }
    true
}

fn owners_lie(limit: u32, owners: &[RmapRec]) -> bool
    ensures { result ≡ true → OwnersWithin limit owners.now }
{
    let mut rest = owners;
    while let Some((run, later)) = rest.split_first() {
        if u64::from(run.start) + u64::from(run.count) > u64::from(limit) {
            return false;
        }
        rest = later;
    }
    true
}

// Whether the eight blocks of each of these units lie below the limit.
fn units_lie(limit: u32, units: &[u32]) -> bool
    ensures { result ≡ true → UnitsWithin limit units.now }
{
    let mut rest = units;
    while let Some((unit, later)) = rest.split_first() {
        if u64::from(*unit) * 8 + 8 > u64::from(limit) {
            return false;
        }
        rest = later;
    }
    true
}

/// Whether no run ends behind the limit.
pub(crate) fn runs_lie(limit: u32, runs: &[Run]) -> bool
    ensures { result ≡ true → RunsWithin limit runs.now }
{
    let mut rest = runs;
    while let Some((run, later)) = rest.split_first() {
        if u64::from(run.start) + u64::from(run.count) > u64::from(limit) {
            return false;
        }
        rest = later;
    }
    true
}

fn log_lies(limit: u32, log: Option<Run3>, g: u32) -> bool
    ensures { result ≡ true → LogWithin limit log g }
{
    match log {
        None => true,
        Some(run) => {
            run.group != g || u64::from(run.start) + u64::from(run.count) <= u64::from(limit)
        }
    }
}

// Whether the blocks of all six trees do.
fn trees_lie(limit: u32, trees: &GroupTrees) -> bool
    ensures { result ≡ true → TreesWithin limit (tree_blocks trees.now) }
{
    blocks_lie(limit, blocks_of(&trees.bno))
        && blocks_lie(limit, blocks_of(&trees.cnt))
        && blocks_lie(limit, blocks_of(&trees.rmap))
        && blocks_lie(limit, blocks_of(&trees.refc))
        && blocks_lie(limit, blocks_of(&trees.ino))
        && blocks_lie(limit, blocks_of(&trees.fino))
}

/// Whether all claims on the blocks of group `g` lie in it. Those of a group that was read and judged do.
#[tactic(auto, using(crate::proofs::TestedLemmas::group_below, crate::proofs::TestedLemmas::all_below))]
pub(crate) fn claims_lie(
    geo: &Geometry,
    g: u32,
    heads: &GroupHeads,
    judging: &Judging,
    limbo: &[LimboRun],
) -> bool
    requires { g < geo.now.agcount }
    ensures { result ≡ true → LieBelow (group_len_of (layout geo.now) g)
        (group_pieces geo.now.log g heads.now.list.items true (tree_blocks judging.now.trees) limbo.now judging.now.chunks.items ++ map owner_piece judging.now.owners.items) }
{
    let limit = geo.group_len(g);
    if limit == 0 || !log_lies(limit, geo.log, g) || !trees_lie(limit, &judging.trees) {
        return false;
    }
    if !blocks_lie(limit, heads.list.as_slice()) || !limbo_lies(limit, limbo) {
        return false;
    }
    if !owners_lie(limit, judging.owners.as_slice()) {
        return false;
    }
    units_lie(limit, judging.chunks.as_slice())
}
