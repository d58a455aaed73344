//! The top call over any host: checks or repairs an XFS version 5 image, and reports what was found and
//! done; or makes a new image. Checked are the inodes of each group, its reverse mappings against all that has blocks of
//! the group, its free space, its reference counts, and the counters of each.
#![tactic(auto)]

mod command;
mod confirming;
mod ending;
mod gathering;
mod judging;
mod last_lines;
mod making;
mod redo;
mod repairing;
mod telling;
mod top;

pub use crate::command::{Command, command_of};
pub use crate::ending::{Finding, Status, Told};
pub use crate::gathering::{gather, put_gathered};
pub use crate::judging::{JudgeFault, Judgement, judge};
pub use crate::last_lines::{BatchRefusal, LastLine, RedoRefusal, fixed_line, last_line};
pub use crate::repairing::finding_of;
pub use crate::telling::{TellStop, put_journal, repaired_status, tell};
pub use crate::top::{RunEnd, fsck_main};
