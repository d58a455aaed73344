ghost use Rattle.edit_blocks.specs.Choice.{EachOnce, TakenAreFirst, GivenAreAll};

/// The blocks of an edited tree, and those that it frees, are the ones that it had and the ones that it
/// took, each as often; it takes the list's first blocks, and those that it frees go to the list or to
/// limbo.
pub fn each_block_once()
    ensures once { EachOnce }
    ensures first { TakenAreFirst }
    ensures given { GivenAreAll }
{}
