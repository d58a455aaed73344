ghost use Rattle.std.specs.Prelude.{◌≡◌, ◌<◌, ◌+◌, ◌%◌, ◌++◌, [], ◌∷◌, ℕ, List, Option, IsTrue, ◌||◌, is_some, option_map, Some, None};
ghost use Rattle.std.specs.Option.{option_or};
ghost use Rattle.free_space.specs.Choice.{LastUnasked, StandsFor, choice, closed_in, extent_of, first_in, fit_in, has_large, is_usable as is_usable_of, last_in, lower_by, sick_in};
ghost use Rattle.free_space.specs.declared.choice.GroupSpace.{GroupSpace as GhostSpace};

use crate::spans::front;
use fs_model::Extent;
use sblock::Kind;
use span_recs::SpanRec;

/// What the choice of a run asks of a group: whether its gate is open, which of its trees that are
/// asked for is the first that is sick, whether a tree of it is too large to be edited, the first
/// record by count that is long enough, and the last one. A record need not be told where the answer
/// doesn't ask for it (XFS Algorithms and Data Structures, "AG Free Space B+trees").
#[derive(Clone, Copy, Debug, PartialEq, Eq)]
pub struct GroupSpace {
    pub group: u32,
    pub is_open: bool,
    pub sick: Option<Kind>,
    pub is_large: bool,
    pub fit: Option<SpanRec>,
    pub last: Option<SpanRec>,
}

/// A group and its first tree that is sick.
#[derive(Clone, Copy, Debug, PartialEq, Eq)]
pub struct SickGroup {
    pub group: u32,
    pub kind: Kind,
}

/// Why no group gives a run, the first of these that holds: the gate of this group isn't open, and
/// of no lower one; this group has this sick tree, and no lower one has any; a group whose trees are
/// too large to be edited has a record; there is no free space.
#[derive(Clone, Copy, Debug, PartialEq, Eq)]
pub enum NoRun {
    Closing(u32),
    Sick(SickGroup),
    TooLarge,
    NoSpace,
}

/// The choice of a run over groups that are looked at one by one, in the order in which they are
/// tried. It takes no memory.
#[derive(Clone, Copy, Debug, PartialEq, Eq)]
pub struct Search {
    wanted: u32,
    fit: Option<Extent>,
    last: Option<Extent>,
    closed: Option<u32>,
    sick: Option<SickGroup>,
    is_large: bool,
}

/// The group that is tried as number `i`: groups are tried from an inode's own upwards and round.
pub fn group_tried(own: u32, i: u32, groups: u32) -> u32
    requires own { own < groups }
    requires i { i < groups }
    ensures { result ≡ (own + i) % groups }
{
    if i < groups - own {
        return own + i;
    }
    i - (groups - own)
}

// Whether the group may give a run.
fn is_usable(space: &GroupSpace) -> bool
    ensures { result ≡ is_usable_of space.now }
{
    space.is_open && space.sick.is_none() && !space.is_large
}

// The front of a record of the group.
fn front_extent(space: &GroupSpace, rec: Option<SpanRec>, wanted: u32) -> Option<Extent>
    ensures { result ≡ option_map (extent_of space.now wanted) rec }
{
    let rec = rec?;
    let run = front(&rec, wanted);
    Some(Extent {
        group: space.group,
        block: run.start,
        count: run.count,
    })
}

// What the group gives of its first record that is long enough.
fn fit_of(space: &GroupSpace, wanted: u32) -> Option<Extent>
    ensures { result ≡ fit_in wanted space.now }
{
    if is_usable(space) {
        return front_extent(space, space.fit, wanted);
    }
    None
}

// And of its last record.
fn last_of(space: &GroupSpace, wanted: u32) -> Option<Extent>
    ensures { result ≡ last_in wanted space.now }
{
    if is_usable(space) {
        return front_extent(space, space.last, wanted);
    }
    None
}

// The lower of two groups.
fn lower(kept: Option<u32>, group: Option<u32>) -> Option<u32>
    ensures { result ≡ lower_by (λ g. g) kept group }
{
    let Some(first) = kept else {
        return group;
    };
    match group {
        Some(second) if second < first => Some(second),
        _ => Some(first),
    }
}

// The lower of two sick groups.
fn lower_sick(kept: Option<SickGroup>, group: Option<SickGroup>) -> Option<SickGroup>
    ensures { result ≡ lower_by (λ s. s.group) kept group }
{
    let Some(first) = kept else {
        return group;
    };
    match group {
        Some(second) if second.group < first.group => Some(second),
        _ => Some(first),
    }
}

// The group, where its gate isn't open.
fn closed_of(space: &GroupSpace) -> Option<u32>
    ensures { result ≡ closed_in space.now }
{
    if space.is_open {
        return None;
    }
    Some(space.group)
}

// The group with its sick tree, where it has one.
fn sick_of(space: &GroupSpace) -> Option<SickGroup>
    ensures { result ≡ sick_in space.now }
{
    let kind = space.sick?;
    Some(SickGroup {
        group: space.group,
        kind,
    })
}

// Whether a group was met that has a record and is too large.
fn is_large_met(met: bool, space: &GroupSpace) -> bool
    ensures { result ≡ (met || has_large space.now) }
{
    met || (space.is_large && (space.fit.is_some() || space.last.is_some()))
}

impl Search {
    /// A search for so many blocks, which has looked at no group.
    pub fn new(wanted: u32) -> Search
        ensures none { StandsFor wanted [] result }
    {
        Search {
            wanted,
            fit: None,
            last: None,
            closed: None,
            sick: None,
            is_large: false,
        }
    }

    /// Looks at one group more, which is tried behind those that were looked at.
    pub fn look(&mut self, space: &GroupSpace)
        ensures { (wanted : ℕ) (gs : List GhostSpace) → StandsFor wanted gs self.old → StandsFor wanted (gs ++ space.now ∷ []) self.new }
    {
        let fit = fit_of(space, self.wanted);
        let last = last_of(space, self.wanted);
        self.fit = self.fit.or(fit);
        self.last = self.last.or(last);
        self.closed = lower(self.closed, closed_of(space));
        self.sick = lower_sick(self.sick, sick_of(space));
        self.is_large = is_large_met(self.is_large, space);
    }

    /// Whether a record that is long enough was met, so that no further group changes the answer.
    pub fn is_settled(&self) -> bool
        ensures exact { (wanted : ℕ) (gs : List GhostSpace) → StandsFor wanted gs self.now → result ≡ is_some (first_in (fit_in wanted) gs) }
        ensures settled { (wanted : ℕ) (gs more : List GhostSpace) → StandsFor wanted gs self.now → IsTrue result → choice wanted (gs ++ more) ≡ choice wanted gs }
    {
        self.fit.is_some()
    }

    /// Which run these groups give, or why none does: the front of the first record that is long
    /// enough, of the first usable group that has one; else the front of the last record by count of
    /// the first usable group with any
    /// (XFS Algorithms and Data Structures, "AG Free Space B+trees").
    #[tactic(auto, unfolding(crate::specs::Choice::choice))]
    pub fn answer(&self) -> Result<Extent, NoRun>
        ensures { (wanted : ℕ) (gs : List GhostSpace) → StandsFor wanted gs self.now → result ≡ choice wanted gs }
    {
        if let Some(extent) = self.fit.or(self.last) {
            return Ok(extent);
        }
        if let Some(group) = self.closed {
            return Err(NoRun::Closing(group));
        }
        if let Some(group) = self.sick {
            return Err(NoRun::Sick(group));
        }
        if self.is_large {
            return Err(NoRun::TooLarge);
        }
        Err(NoRun::NoSpace)
    }
}

/// A law: where a group fits, or one before it, its last record needn't be known.
pub fn last_unasked()
    ensures { LastUnasked }
{}
