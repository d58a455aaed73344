ghost use Rattle.index_derive.specs.Laws.{OnlyFreeRecords, OnlyInodeRecords, OnlyReverseMappings};

/// A law: what the inode btree must hold is the only list that rises and has a record for each
/// chunk of the group and no other, each with the number and the mask of its free inodes.
pub fn only_inode_records()
    ensures { OnlyInodeRecords }
{}

/// A law: the same of the btree of chunks with a free inode.
pub fn only_free_records()
    ensures { OnlyFreeRecords }
{}

/// A law: what the reverse mapping btree must hold is the only list of the maximal runs of all
/// claims on the group's blocks, where no fork maps a block as written and as unwritten at one offset.
pub fn only_reverse_mappings()
    ensures { OnlyReverseMappings }
{}
