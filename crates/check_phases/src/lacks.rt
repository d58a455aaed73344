ghost use Rattle.std.specs.Prelude.{◌≡◌, get_or, false};
ghost use Rattle.check_phases.specs.Phases.{inode_lacked, lacks_mappings, mapping_lacked};

use fs_model::Unit;

/// What keeps reverse mappings from being judged: the inodes of the first group whose inodes didn't
/// pass (XFS Online Fsck Design, "Metadata Scrubbing").
pub fn inodes_lacked(fallen: Option<u32>) -> Option<(u32, Unit)>
    ensures { result ≡ inode_lacked fallen }
{
    match fallen {
        Some(g) => Some((g, Unit::Inode)),
        None => None,
    }
}

// The reverse mappings of a group, where they didn't pass.
fn unless_passed(passed: bool, g: u32) -> Option<(u32, Unit)>
    ensures { result ≡ mapping_lacked passed g }
{
    if passed { None } else { Some((g, Unit::Rmap)) }
}

// Whether the unit with this number passed.
fn has_passed(passed: &[bool], g: u32) -> bool
    ensures { result ≡ get_or passed.now g false }
{
    match passed.get(g as usize) {
        Some(passed) => *passed,
        None => false,
    }
}

/// What keeps free space and reference counts of group `g` from being judged: its reverse mappings,
/// where they didn't pass; `passed` says of each group whether they did
/// (XFS Online Fsck Design, "Metadata Scrubbing").
#[tactic(auto, unfolding(crate::specs::Phases::lacks_mappings))]
pub fn mappings_lacked(passed: &[bool], g: u32) -> Option<(u32, Unit)>
    ensures { result ≡ lacks_mappings passed.now g }
{
    unless_passed(has_passed(passed, g), g)
}
