//! The inode btrees hold what they should behind each entry of a writer.
ghost use Rattle.law_writers.specs.Inode.Listed.{ChunkListed, GivenListed, OthersListed, TakenListed};

/// A law: where both inode btrees of a group hold what they should, they do behind an inode that is taken, of a
/// chunk that is there or of a new one, behind one that is given back, and behind each other entry of a writer
/// (XFS Algorithms and Data Structures, "Inode B+trees").
pub fn inodes_follow()
    ensures taken { TakenListed }
    ensures made { ChunkListed }
    ensures given { GivenListed }
    ensures others { OthersListed }
{}
