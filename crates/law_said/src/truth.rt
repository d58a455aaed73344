ghost use Rattle.law_said.specs.Truth.{ImagesRise, PastIsJournal, SaidIsTrue, SaidOfImages, StandingIsTrusted};

use fs_state::no_faults_exactly;
use law_repairs::order_laws::{group_in_order, owners_in_order};

/// A law: a verdict that is said is true as the laws of repairs ask it: a good one of a unit
/// whose trees hold what they should. Records of trees rise, as is asked, where a group of an
/// image is in order (XFS Online Fsck Design, "Cross-Referencing Space Metadata").
pub fn said_is_true()
    ensures said { SaidIsTrue }
    ensures rise { ImagesRise }
    ensures images { SaidOfImages }
{
    no_faults_exactly();
    owners_in_order();
    group_in_order();
}

/// A law: a unit that stands at the end of a journal, whose last verdict passed and of whose
/// kinds no fault or mark came since, is trusted (XFS Online Fsck Design, "Eventual
/// Consistency").
pub fn standing_is_trusted()
    ensures past { PastIsJournal }
    ensures trusted { StandingIsTrusted }
{}
