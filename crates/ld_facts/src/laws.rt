//! Laws of the definitions, each carried by a function that does nothing.

ghost use Rattle.ld_facts.specs.Renaming.{RenamedFactsAreTheImage};
ghost use Rattle.ld_facts.specs.Laws.{ChainsGiveWhatTheyHave, DependenciesHaveOneNumber, TraceFactsAreTheChains, AddingInTurnUnites, FactsHaveBits, EachBitIsAFacts, FactsHaveDifferentBits, LaterSlotsAreOfNewerLocks, SlotsHaveWhatIsGiven};

/// The facts of a trace are those of its chains.
pub fn trace_facts_are_the_chains()
    ensures { TraceFactsAreTheChains }
{
    ld_task::dependencies_are_the_chains();
    ld_task::marks_are_the_chains();
}

/// What a chain has is what it gives by one of its locks. Its slots have exactly these facts, each by the lock that gives it,
/// and later slots are of newer held locks.
pub fn slots_have_what_is_given()
    ensures given { ChainsGiveWhatTheyHave }
    ensures exact { SlotsHaveWhatIsGiven }
    ensures newer { LaterSlotsAreOfNewerLocks }
{}

/// The facts of traces under a renaming of keys are what their facts say with other keys.
pub fn renamed_facts_are_the_image()
    ensures { RenamedFactsAreTheImage }
{
    trace_facts_are_the_chains();
}

/// The dependencies of some traces have one number.
pub fn dependencies_have_one_number()
    ensures { DependenciesHaveOneNumber }
{}

/// Adding chains one after the other gives the union of their facts.
pub fn adding_in_turn_unites()
    ensures { AddingInTurnUnites }
{}

/// A fact about keys below a bound has one of the bits for that bound, each bit is a fact's, and no two facts have one
/// bit.
pub fn facts_are_bits()
    ensures below { FactsHaveBits }
    ensures each { EachBitIsAFacts }
    ensures different { FactsHaveDifferentBits }
{}
