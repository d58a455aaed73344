use check_watch::{Phase, Watch};
use core_calls::Ask;
use fs_model::Unit;

/// Tells that a phase begins, with the first unit of its kind. Free space and reference counts of a group
/// are two units of one phase (XFS Online Fsck Design, "Metadata Scrubbing").
pub fn tell_started<W: Watch>(watch: &mut W, ask: Ask, groups: u32) {
    let Ask::Start { group: 0, unit, .. } = ask else {
        return;
    };
    match unit {
        Unit::Inode => watch.begin(Phase::Inodes, u64::from(groups)),
        Unit::Rmap => watch.begin(Phase::Mappings, u64::from(groups)),
        Unit::Free => watch.begin(Phase::Space, 2 * u64::from(groups)),
        Unit::Refc => {}
    }
}

/// Tells that units have their verdict (XFS Online Fsck Design, "Metadata Scrubbing").
pub fn tell_passed<W: Watch>(watch: &mut W, before: u64, now: u64) {
    if now > before {
        watch.pass(now - before);
    }
}
