ghost use Rattle.meta_txn.specs.Laws.{ChangesOneBlock, StaysBelow, WritesOneBlock};

/// A change behind a joined block changes what is joined at its number, and what a commit makes of
/// the image there, and nothing else; and where all numbers are below a size and this one is, all
/// are.
pub fn changes_one_block()
    ensures joined { ChangesOneBlock }
    ensures written { WritesOneBlock }
    ensures below { StaysBelow }
{}
