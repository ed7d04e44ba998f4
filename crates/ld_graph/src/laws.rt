//! Laws of the definitions, each carried by a function that does nothing.

ghost use Rattle.ld_graph.specs.Laws.{ShortestCirclesTurn, NewCirclesHaveNewMembers, NewDoublesHaveNewMarks, NewInversionsHaveNewParts};

/// What is new suffices to find what is wrong. A new closed walk has a new member, and can be turned to begin with it.
/// The link of a new double has a new mark. The link of a new inversion has one, or its walk has a new member, where a
/// first part ends and a last part begins.
pub fn what_is_new_suffices()
    ensures circles { NewCirclesHaveNewMembers }
    ensures doubles { NewDoublesHaveNewMarks }
    ensures inversions { NewInversionsHaveNewParts }
{}

/// A shortest circle may begin with each of its members.
pub fn shortest_circles_turn()
    ensures { ShortestCirclesTurn }
{}
