ghost use Rattle.join_blocks.specs.Joins.{PutsEach, PutsOthers, FindsOthers, PutsAll, FindsAll, FindsKeep, CountsJoined, CountGrows};

/// Where none of the blocks stands twice, each has the bytes that were put in.
pub fn puts_each()
    ensures each { PutsEach }
{}

/// Every other block of the image is as the transaction had it.
pub fn joins_these_alone()
    ensures put { PutsOthers }
    ensures found { FindsOthers }
{}

/// Each of the blocks is joined, and what was joined before is so still.
pub fn joins_each()
    ensures put { PutsAll }
    ensures found { FindsAll }
    ensures kept { FindsKeep }
{}

/// So many blocks are joined as were counted before; with more blocks to be joined, no fewer are.
pub fn count_grows()
    ensures joined { CountsJoined }
    ensures grows { CountGrows }
{}
