ghost use Rattle.load_trees.specs.Given.{AreTrees};
ghost use Rattle.load_trees.specs.Written.{PiecesStand, PiecesJoin, AllStand};

use sblock::RecKind;

/// Where the blocks of a new tree stand in their claimed blocks, they are a tree of exactly the list
/// and of exactly these blocks, whatever the image's other blocks are; its root is the last of them
/// (XFS Algorithms and Data Structures, "Short Format B+trees").
pub fn loaded_blocks_are_trees<K: RecKind>()
    ensures { AreTrees K.form }
{}

/// Where each block of a piece is written to its number, the piece's blocks stand in the blocks that
/// are claimed for them. Pieces join, wherever they are cut, and those from the first block to the
/// last are all of the tree's blocks.
pub fn written_pieces_stand<K: RecKind>()
    ensures piece { PiecesStand K.form }
    ensures join { PiecesJoin K.form }
    ensures all { AllStand K.form }
{}
