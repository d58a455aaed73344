ghost use Rattle.std.specs.Prelude.{◌≡◌, ◌+◌, ◌≤◌, ◌==◌, if◌then◌else◌};
ghost use Rattle.sblock.specs.Blocks.{most_of};
ghost use Rattle.sblock.specs.Kinds.{leaf_least_of, node_least_of};

use sblock::RecKind;

/// How many records a leaf has at most, or entries a node above (level 0 is the leaves').
pub fn most<K: RecKind>(level: u8) -> u16
    ensures { result ≡ most_of K.form.kind (level == 0) }
{
    if level == 0 {
        K::kind().leaf_most()
    } else {
        K::kind().node_most()
    }
}

/// How many records a leaf has at least, or entries a node above, unless it is the root.
pub fn least<K: RecKind>(level: u8) -> u16
    ensures { result ≡ (if level == 0 then leaf_least_of K.form.kind else node_least_of K.form.kind) }
{
    if level == 0 {
        K::kind().leaf_least()
    } else {
        K::kind().node_least()
    }
}
