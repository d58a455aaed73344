ghost use Rattle.std.specs.Prelude.{◌≡◌};
ghost use Rattle.xref_scrub.specs.Differences.{PiecesJoin, NoneExactlyIfEqual};

use crate::indexed::Indexed;

/// A law: pieces from 0, 512, 1,024 and so on that reach the end of both lists are all
/// differences, each once and in their order.
pub fn pieces_join<K: Indexed>()
    ensures { PiecesJoin K.form K.shown }
{}

/// A law: an index has no differences exactly where it is its derivation.
pub fn none_exactly_if_equal<K: Indexed>()
    ensures { NoneExactlyIfEqual K.form K.shown }
{}
