//! Laws of the definitions, each carried by a function that does nothing.

ghost use Rattle.ld_explain.specs.Clauses.{CirclesOfLocksAreSeen, NoCirclesAreLost, OwnNamesChangeNothing};

/// The facts of traces by their own keys are their facts.
pub fn own_names_change_nothing()
    ensures { OwnNamesChangeNothing }
{
    ld_facts::renamed_facts_are_the_image();
}

/// Each dependency on a circle of single locks, none of which stands for several, is by its types a member of a finding whose
/// verdict is that it was seen between single locks: no circle of theirs is lost among the findings between types. Where single
/// locks aren't settled, the verdict of that finding is that it isn't known, and then there are more than 256 names.
pub fn circles_of_locks_are_seen()
    ensures seen { CirclesOfLocksAreSeen }
    ensures kept { NoCirclesAreLost }
{
    own_names_change_nothing();
    ld_facts::renamed_facts_are_the_image();
}
