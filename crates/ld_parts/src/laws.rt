//! The law of the definitions, carried by a function that does nothing.

ghost use Rattle.ld_parts.specs.Laws.{FindingsAreThoseOfTheParts};

/// If each key has a rank, no dependency and no interrupt link goes from a key to one of lower rank, and the keys of each
/// rank are listed, what is found among the facts of a list's keys, by the places of these keys, is what is found among
/// all facts: what is on a circle, shortest circles and shortest closed walks, doubles, inversions with their shortest
/// walks and their members, and that nothing is wrong. Nothing is found between keys of two ranks.
pub fn findings_are_those_of_the_parts()
    ensures { FindingsAreThoseOfTheParts }
{}
