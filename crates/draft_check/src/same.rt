ghost use Rattle.std.specs.Prelude.{◌≡◌, true};

use sblock::RecKind;

/// Whether two lists have the same records in the same order. It costs a step a record
/// (XFS Algorithms and Data Structures, "Short Format B+trees").
pub fn are_same<K: RecKind>(a: &[K::Rec], b: &[K::Rec]) -> bool
    ensures { result ≡ true → a.now ≡ b.now }
{
    let mut rest = a;
    let mut others = b;
    while let Some((first, later)) = rest.split_first() {
        let Some((other, behind)) = others.split_first() else {
            return false;
        };
        if !K::is_same(first, other) {
            return false;
        }
        rest = later;
        others = behind;
    }
    others.is_empty()
}
