ghost use Rattle.live_hooks.specs.Scan.{GivenBack, HearsAll, HearsNone, PassesNone};

/// A law: a cursor that passes no inode has heard of nothing more.
pub fn passes_none()
    ensures { PassesNone }
{}

/// A law: once all inodes are visited, all that they own was heard.
pub fn hears_all()
    ensures { HearsAll }
{}

/// A law: before the first inode nothing was heard.
pub fn hears_none()
    ensures { HearsNone }
{}

/// A law: an inode that is given back owns nothing, where all blocks are those of inodes that are
/// there, and only there.
pub fn given_back()
    ensures { GivenBack }
{}
