use rmap_recs::RmapRec;

/// A reverse mapping of a group, by the group's number: blocks that a fork of an inode has, or that
/// are its btree (XFS Algorithms and Data Structures, "Reverse-Mapping B+tree").
#[derive(Clone, Copy, Debug, PartialEq, Eq)]
pub struct GroupRec {
    pub group: u32,
    pub rec: RmapRec,
}
