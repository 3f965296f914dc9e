//! Laws of lists of values. The functions do nothing: their contracts are the laws.
ghost use Rattle.set_operators.specs.Laws.{AsksAreOfMembers, OneMemberEach, OneValueOrNone, ShownIsRight, WantsAreOfMembers};

/// An ask holds of values exactly where some of them meets it, so what is answered no holds of no
/// member.
pub fn asks_are_of_members()
    ensures { AsksAreOfMembers }
{}

/// Of a key with several values one member for each ask that is answered yes is enough, where none of
/// them meets what is answered no; and such members there must be.
pub fn one_member_each()
    ensures { OneMemberEach }
{}

/// Of a key with at most one value either the empty list does, or one value meets all asks.
pub fn one_value_or_none()
    ensures { OneValueOrNone }
{}

/// A text meets the clauses of asks and rule exactly where it is a member for the asks.
pub fn wants_are_of_members()
    ensures { WantsAreOfMembers }
{}

/// What shows that there are no values is right, whoever says so.
pub fn shown_is_right()
    ensures { ShownIsRight }
{}
