//! One pass over all traces, for all facts that are asked about.

ghost use Rattle.std.specs.Prelude.{◌+◌, ◌<◌, ◌≡◌, ◌≤◌, All, IfOk, List, OnOk, Some, length, slice_get};
ghost use Rattle.ld_explain.specs.Names.{Event, IsPlacedAfter, MAX_TRACES};
ghost use Rattle.ld_task.specs.TraceChains as trace_chains;
ghost use Rattle.ld_explain.specs.Names.{IsWellFormed, fact_slots};
ghost use Rattle.ld_explain.specs.Clauses.{AreGuardsOf, AreOriginsOf, AreTakenIn, ComesNext, SeenBefore, SeenFrom, SeenTo, view_of};

use crate::naming::{Naming, named_fact};
use crate::origins::{Origin, Origins, position_of_slot};
use crate::{Asked, Guards, Tried};
use ld_facts::fact_slots;
use ld_task::{Chain, PlacedState};
use ld_trace::{Event, RawTrace};
use std::alloc::{AllocError, Global};

/// What traces say about facts that are asked about: where each first occurs, and what speaks against a finding that it is
/// part of.
#[derive(Drop)]
pub struct Evidence {
    /// The first occurrences.
    pub origins: Origins,
    /// What speaks against it, of dependencies alone.
    pub guards: Guards,
}

impl Evidence {
    /// What all traces say about the facts that are asked about, by what `naming` calls the keys. The traces are well formed, and there are at most 4,096. It
    /// fails only if memory is refused.
    pub fn of(
        alloc: Global,
        traces: &[RawTrace],
        naming: Naming<'_>,
        asked: &Asked,
    ) -> Result<Evidence, AllocError>
        requires well_formed { All IsWellFormed traces.now }
        requires traces { length traces.now ≤ MAX_TRACES }
        ensures origins { IfOk result (λ evidence. AreOriginsOf (view_of naming.entry traces.now) asked.now evidence.origins) }
        ensures guards { IfOk result (λ evidence. AreGuardsOf (view_of naming.entry traces.now) asked.now evidence.guards) }
    {
        ld_facts::renamed_facts_are_the_image();
        let mut evidence = Evidence {
            origins: Origins::none(alloc, asked.keys()),
            guards: Guards::none(alloc, asked.keys()),
        };
        for i in 0..traces.len() {
            evidence.add_trace(naming, asked, i as u32, &traces[i])?;
        }
        Ok(evidence)
    }

    // Takes in the occurrences in one trace, the next one.
    fn add_trace(
        &mut self,
        naming: Naming<'_>,
        asked: &Asked,
        number: u32,
        trace: &RawTrace,
    ) -> Tried<()>
        requires origins { self.old.origins.keys ≡ asked.now.keys }
        requires guards { self.old.guards.keys ≡ asked.now.keys }
        requires well_formed { IsWellFormed trace.now }
        ensures origins { OnOk result (self.new.origins.keys ≡ self.old.origins.keys) }
        ensures guards { OnOk result (self.new.guards.keys ≡ self.old.guards.keys) }
        ensures taken { OnOk result ((traces : List (List Event)) → slice_get traces number ≡ Some trace.now
            → AreTakenIn (view_of naming.entry traces) asked.now (SeenBefore (view_of naming.entry traces) number) self.old.origins self.old.guards
            → AreTakenIn (view_of naming.entry traces) asked.now (SeenBefore (view_of naming.entry traces) (number + 1)) self.new.origins self.new.guards) }
    {
        let mut state = PlacedState::new();
        for place in 0..trace.len() {
            let Some(event) = trace.event(place) else {
                unreachable!();
            };
            self.add_event(naming, asked, number, place as u32, &mut state, event)?;
        }
        Ok(())
    }

    // Goes on by the event at a place of a well-formed trace, and takes in the occurrences that it gives.
    fn add_event(
        &mut self,
        naming: Naming<'_>,
        asked: &Asked,
        trace: u32,
        place: u32,
        state: &mut PlacedState,
        event: Event,
    ) -> Tried<()>
        requires origins { self.old.origins.keys ≡ asked.now.keys }
        requires guards { self.old.guards.keys ≡ asked.now.keys }
        requires next { (t : List Event) × ComesNext t place state.old event }
        ensures origins { OnOk result (self.new.origins.keys ≡ self.old.origins.keys) }
        ensures guards { OnOk result (self.new.guards.keys ≡ self.old.guards.keys) }
        ensures after { (t : List Event) → ComesNext t place state.old event → IsPlacedAfter t (place + 1) state.new }
        ensures taken { OnOk result ((traces : List (List Event)) (t : List Event) → slice_get traces trace ≡ Some t
            → ComesNext t place state.old event
            → AreTakenIn (view_of naming.entry traces) asked.now (SeenTo (view_of naming.entry traces) trace place) self.old.origins self.old.guards
            → AreTakenIn (view_of naming.entry traces) asked.now (SeenTo (view_of naming.entry traces) trace (place + 1)) self.new.origins self.new.guards) }
    {
        match state.step(place, event) {
            Ok(Some(chain)) => self.add_chain(naming, asked, trace, place, state, &chain),
            Ok(None) => Ok(()),
            Err(_) => unreachable!(),
        }
    }

    // Takes in the occurrences in the chain at a place of a trace, by the state just after it: from the newest held lock
    // to the oldest.
    fn add_chain(
        &mut self,
        naming: Naming<'_>,
        asked: &Asked,
        trace: u32,
        place: u32,
        state: &PlacedState,
        chain: &Chain,
    ) -> Tried<()>
        requires origins { self.old.origins.keys ≡ asked.now.keys }
        requires guards { self.old.guards.keys ≡ asked.now.keys }
        ensures origins { OnOk result (self.new.origins.keys ≡ self.old.origins.keys) }
        ensures guards { OnOk result (self.new.guards.keys ≡ self.old.guards.keys) }
        ensures taken { OnOk result ((traces : List (List Event)) (t : List Event) → slice_get traces trace ≡ Some t
            → IsPlacedAfter t (place + 1) state.now → trace_chains.chain t place ≡ Some chain.now
            → AreTakenIn (view_of naming.entry traces) asked.now (SeenTo (view_of naming.entry traces) trace place) self.old.origins self.old.guards
            → AreTakenIn (view_of naming.entry traces) asked.now (SeenTo (view_of naming.entry traces) trace (place + 1)) self.new.origins self.new.guards) }
    {
        ld_facts::slots_have_what_is_given();
        if !asked.may_be_given(chain, naming) {
            return Ok(());
        }
        let slots = fact_slots(chain);
        for passed in 0..slots {
            self.add_slot(
                naming,
                asked,
                trace,
                place,
                state,
                chain,
                slots - 1 - passed,
            )?;
        }
        Ok(())
    }

    // Takes in the occurrence in a slot of a chain, if it is one of a fact that is asked about.
    fn add_slot(
        &mut self,
        naming: Naming<'_>,
        asked: &Asked,
        trace: u32,
        place: u32,
        state: &PlacedState,
        chain: &Chain,
        n: usize,
    ) -> Tried<()>
        requires origins { self.old.origins.keys ≡ asked.now.keys }
        requires guards { self.old.guards.keys ≡ asked.now.keys }
        requires within { n < fact_slots chain.now }
        ensures origins { OnOk result (self.new.origins.keys ≡ self.old.origins.keys) }
        ensures guards { OnOk result (self.new.guards.keys ≡ self.old.guards.keys) }
        ensures taken { OnOk result ((traces : List (List Event)) (t : List Event) → slice_get traces trace ≡ Some t
            → IsPlacedAfter t (place + 1) state.now → trace_chains.chain t place ≡ Some chain.now
            → AreTakenIn (view_of naming.entry traces) asked.now (SeenFrom (view_of naming.entry traces) t trace place chain.now (n + 1)) self.old.origins self.old.guards
            → AreTakenIn (view_of naming.entry traces) asked.now (SeenFrom (view_of naming.entry traces) t trace place chain.now n) self.new.origins self.new.guards) }
    {
        ld_facts::slots_have_what_is_given();
        let Some(fact) = named_fact(chain, n, naming) else {
            return Ok(());
        };
        if !asked.has(fact) {
            return Ok(());
        }
        let held = position_of_slot(state, chain, n);
        self.origins.put(fact, Origin { trace, place, held })?;
        self.guards.add_fact(trace, chain, naming, n, fact)
    }
}
