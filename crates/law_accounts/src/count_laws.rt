//! Reference counts block by block: a stretch of one count that gets another, as a list of records.
ghost use Rattle.law_accounts.specs.Count.Counted.{CountsStay, OneCount, ShownStay, StretchCounted};

/// A law: where records of reference counts don't overlap, a stretch of one count that gets another has it then, all
/// other blocks keep theirs, and the records still don't overlap, nor can two of them be one where none could before
/// (XFS Algorithms and Data Structures, "Reference Count B+tree").
pub fn counts_follow()
    ensures stretch { StretchCounted }
    ensures apart { CountsStay }
    ensures shown { ShownStay }
    ensures one { OneCount }
{}
