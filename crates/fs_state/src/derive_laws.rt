ghost use Rattle.fs_state.specs.Laws.{InodesFromListing, NoFaultsExactly, NoOverlapExactly, OwnersFromParts, SpaceFromMappings};
ghost use Rattle.fs_state.specs.Worked.{Worked};

/// A law: what free space and reference counts should be depends on the group's reverse mappings alone,
/// and not on the trees that are judged by it.
pub fn space_from_mappings()
    ensures { SpaceFromMappings }
{}

/// A law: what the inode btrees should hold depends on which chunks are listed, and on each core of the
/// group by whether it verifies and whether its inode is free.
pub fn inodes_from_listing()
    ensures { InodesFromListing }
{}

/// A law: what the reverse mappings should be depends on the blocks that parts of the group's metadata
/// have, on the chunks, and on the forks of inodes in chunks.
pub fn owners_from_parts()
    ensures { OwnersFromParts }
{}

/// A law: a unit has no faults exactly where its trees can be read and hold what they should, and its
/// counters are what they should be.
pub fn no_faults_exactly()
    ensures { NoFaultsExactly }
{}

/// A law: no claims overlap exactly where any two claims on one block of the group are both of written
/// file data.
pub fn no_overlap_exactly()
    ensures { NoOverlapExactly }
{}

/// One small image, worked: who claims its blocks, which of its units is a chunk, and which of several
/// reasons is shown.
pub fn worked_image()
    ensures { Worked }
{}
