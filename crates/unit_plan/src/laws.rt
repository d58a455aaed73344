ghost use Rattle.unit_plan.specs.Laws.{AnyOrder, InGroup, SpareInGroup};
ghost use Rattle.unit_plan.specs.Need.{OneNeed};

/// A law: in whatever order the pieces are handed in, their first overlap is the same.
pub fn any_order()
    ensures { AnyOrder }
{}

/// A law: where pieces stand for a list of claims on the blocks of a group, with the same claims
/// on each block in the same order, their first overlap is the first one of that list.
pub fn in_group()
    ensures { InGroup }
{}

/// A law: for numbers of records the need of a unit is one number.
pub fn one_need()
    ensures { OneNeed }
{}

/// A law: where what is handed in is what a group has, its spare blocks are those of the group: of
/// its derived free space, or listed by its btree by start, claimed by nothing or by no metadata.
pub fn spare_in_group()
    ensures { SpareInGroup }
{}
