//! The facts of one trace, added to others, by its own keys or by what these are called.

ghost use Rattle.std.specs.Prelude.{◌≡◌, ◌<◌, ◌≤◌, ◌+◌, List, IfErr, OnOk, Some, length, slice_get};
ghost use Rattle.ld_trace.specs.declared.event.Event.{Event};
ghost use Rattle.ld_task.specs.WellFormed.{IsFirstFault, IsWellFormed};
ghost use Rattle.ld_task.specs.Steps.{IsStateAfter};
ghost use Rattle.ld_facts.specs.FactBits.{FactParts, HasFact};
ghost use Rattle.ld_facts.specs.Facts.{Adds, ChainHas, Holds, TraceHas};
ghost use Rattle.ld_run.specs.Inside.KnownSteps.{AreKnown};
ghost use Rattle.ld_run.specs.Inside.Walked.{CalledBy, CallsBelow, ChainCallsBelow, IsNext, IsSumming};
ghost use Rattle.ld_run.specs.Inside.Walks.{HasThere, IsStep, in_facts};

use crate::known_steps::{KnownSteps, Walk};
use ld_facts::Facts;
use ld_task::{Chain, StepAt};
use ld_trace::{Event, MAX_EVENTS, RawTrace};

// Adds the facts of a trace, by what its keys are called, if it is well formed; otherwise returns its first event that
// isn't allowed. Key `k` is called by the number at place `k` of `others`, or if there is no such list, by its own. It
// goes by steps that are known, as long as enough of them are; what is missed is learnt.
pub(crate) fn add_trace(
    facts: &mut Facts,
    trace: &RawTrace,
    others: Option<&[u16]>,
    known: &mut KnownSteps,
) -> Result<(), StepAt>
    requires below { CallsBelow others facts.old.keys trace.now }
    requires known { AreKnown (in_facts others facts.old) known.old }
    ensures keys { facts.new.keys ≡ facts.old.keys }
    ensures known { OnOk result (AreKnown (in_facts others.entry facts.new) known.new) }
    ensures well_formed { OnOk result (IsWellFormed trace.now) }
    ensures adds { OnOk result (Adds (HasFact facts.old) (HasFact facts.new) (CalledBy others.entry (TraceHas trace.now))) }
    ensures refused { IfErr result (IsFirstFault trace.now) }
{
    ld_facts::trace_facts_are_the_chains();
    let mut walk = Walk::new();
    let mut here = known.number_of(&walk.state);
    while known.are_worth_it() {
        let Some(event) = known.next_missed(trace, &mut here, &mut walk) else {
            return Ok(());
        };
        add_event(facts, &mut walk, event, others)?;
        here = known.learn(here, &event, &walk.state);
    }
    add_rest(facts, walk, trace, others)
}

// Adds the facts of the rest of a trace, event by event. Its state is a variable of its own, which takes a tenth less time.
#[inline(never)]
fn add_rest(
    facts: &mut Facts,
    walk: Walk,
    trace: &RawTrace,
    others: Option<&[u16]>,
) -> Result<(), StepAt>
    requires below { CallsBelow others facts.old.keys trace.now }
    requires summing { (start : FactParts) × IsSumming others start facts.old trace.now walk.place walk.state }
    ensures keys { facts.new.keys ≡ facts.old.keys }
    ensures keeps { Holds (HasThere (in_facts others.entry facts.new)) (HasThere (in_facts others.entry facts.old)) }
    ensures well_formed { OnOk result (IsWellFormed trace.now) }
    ensures adds { (start : FactParts) → IsSumming others.entry start facts.old trace.now walk.place walk.state
        → OnOk result (Adds (HasFact start) (HasFact facts.new) (CalledBy others.entry (TraceHas trace.now))) }
    ensures refused { IfErr result (IsFirstFault trace.now) }
{
    ld_facts::trace_facts_are_the_chains();
    ld_task::chain_keys_are_the_traces();
    let mut state = walk.state.copied();
    for place in walk.place..trace.len() {
        let Some(event) = trace.event(place) else {
            unreachable!();
        };
        let answer = match state.step(event) {
            Ok(answer) => answer,
            Err(fault) => return Err(StepAt { fault, place }),
        };
        if let Some(chain) = answer {
            add_called(facts, &chain, others);
        }
    }
    Ok(())
}

// Walks the next event of a trace, and adds the facts of its chain, by what its keys are called; or returns it, if it
// isn't allowed.
#[inline(always)]
fn add_event(
    facts: &mut Facts,
    walk: &mut Walk,
    event: Event,
    others: Option<&[u16]>,
) -> Result<(), StepAt>
    requires next { (start : FactParts) × (t : List Event) × IsNext others start facts.old t walk.old.place walk.old.state event }
    requires place { walk.old.place < MAX_EVENTS }
    requires few { walk.old.number ≤ walk.old.place }
    ensures keys { facts.new.keys ≡ facts.old.keys }
    ensures few { walk.new.number ≤ walk.new.place }
    ensures on { OnOk result (walk.new.place ≡ walk.old.place + 1) }
    ensures keeps { Holds (HasThere (in_facts others.entry facts.new)) (HasThere (in_facts others.entry facts.old)) }
    ensures step { OnOk result (IsStep (in_facts others.entry facts.new) walk.old.state event walk.new.state) }
    ensures adds { (start : FactParts) (t : List Event) → IsNext others.entry start facts.old t walk.old.place walk.old.state event
        → OnOk result (IsSumming others.entry start facts.new t walk.new.place walk.new.state) }
    ensures refused { (t : List Event) → IsStateAfter t walk.old.place walk.old.state → slice_get t walk.old.place ≡ Some event
        → IfErr result (IsFirstFault t) }
{
    ld_task::chain_keys_are_the_traces();
    match walk.state.step(event) {
        Ok(answer) => {
            walk.place += 1;
            if let Some(chain) = answer {
                walk.number += 1;
                add_called(facts, &chain, others);
            }
            Ok(())
        }
        Err(fault) => {
            let place = walk.place;
            Err(StepAt { fault, place })
        }
    }
}

// Adds the facts of a chain, by what its keys are called.
#[inline(always)]
fn add_called(facts: &mut Facts, chain: &Chain, others: Option<&[u16]>)
    requires { ChainCallsBelow others facts.old.keys chain.now }
    ensures keys { facts.new.keys ≡ facts.old.keys }
    ensures adds { Adds (HasFact facts.old) (HasFact facts.new) (CalledBy others.entry (ChainHas chain.now)) }
{
    match others {
        Some(others) => facts.add_chain_by(chain, others),
        None => {
            facts.add_chain(chain);
        }
    }
}
