ghost use Rattle.law_said.specs.Ends.{PassedStand, SessionLeavesNoFault};
ghost use Rattle.law_said.specs.Through.{PassesCompose};

use crate::truth::said_is_true;
use law_cuts::unclaimed_laws::given_follow;
use law_repairs::order_laws::opened_in_order;
use law_repairs::repair_laws::ends;

/// A law: where two parts of a journal lead through states that images stand for, both in a row
/// do.
pub fn passes_compose()
    ensures { PassesCompose }
{}

/// A law: where each verdict of a session passed and no tree is sick at its end, each unit stands
/// (XFS Online Fsck Design, "Metadata Repair").
pub fn passed_stand()
    ensures { PassedStand }
{}

/// A law: a session of a repair that tells the truth, in which each unit's last verdict passed
/// and no fault or mark of it came since, leaves no fault of any unit that the next session could
/// find (XFS Online Fsck Design, "Metadata Repair").
pub fn session_leaves_no_fault()
    ensures { SessionLeavesNoFault }
{
    said_is_true();
    given_follow();
    opened_in_order();
    ends();
}
