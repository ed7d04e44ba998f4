//! The first occurrence of each fact.

ghost use Rattle.std.specs.Prelude.{[], ◌+◌, ◌<◌, ◌≡◌, ◌≤◌, IfSome, IsNone, List, OnOk, Some, ℕ};
ghost use Rattle.ld_explain.specs.Names.{Event, IsPlacedAfter, MAX_KEYS};
ghost use Rattle.ld_task.specs.TraceChains as trace_chains;
ghost use Rattle.ld_explain.specs.Names.{Fact, FactBelow, FactParts, HasFact, fact_slots};
ghost use Rattle.ld_explain.specs.Clauses.{AreOriginsOf, HasOrigin, IsKnown, IsOriginOf, PutsOrigin, View, origin_in, slot_position};

use crate::{Dependency, Tried};
use indexmap::IndexMap;
use ld_facts::{Fact, lock_of_slot};
use ld_task::{Chain, PlacedState};
use std::alloc::{AllocError, Global};
use std::marker::Model;

/// Where a fact comes from, in a list of traces.
#[derive(Clone, Copy, PartialEq, Eq, Debug)]
pub struct Origin {
    /// The trace's place in the list, counted from 0.
    pub trace: u32,
    /// The position in it of the event that gives the fact, counted from 0: the acquisition of the new lock, or the event
    /// that turns a flag on.
    pub place: u32,
    /// The position of the acquisition of the lock that is held there and that the fact is about; None for a mark by an
    /// acquisition.
    pub held: Option<u32>,
}

/// For each fact that is asked about, its first occurrence in a list of traces: in the least trace that has it, there at
/// the least place that gives it, and if several held locks give it there, by the newest.
#[derive(Drop)]
pub struct Origins {
    keys: u16,
    origins: IndexMap<u32, Origin>,
}

impl Model for Origins {
    ghost use Rattle.std.specs.Prelude.{◌≤◌};
    ghost use Rattle.ld_explain.specs.Names.{MAX_KEYS};
    ghost use Rattle.ld_explain.specs.Origins.{OriginParts};

    ghost Value = { OriginParts };

    ghost view = { λ o. record { keys = o.keys; entries = o.origins.entries } };

    ghost invariant = { λ o. o.keys ≤ MAX_KEYS };
}

impl Origins {
    // No occurrences of facts about the keys below `keys`.
    pub(crate) fn none(alloc: Global, keys: u16) -> Origins
        requires { keys ≤ MAX_KEYS }
        ensures { result ≡ record { keys = keys; entries = [] } }
    {
        Origins {
            keys,
            origins: IndexMap::new(alloc),
        }
    }

    /// Where the fact comes from: its first occurrence in the traces that these are the origins of. None exactly if they
    /// don't have it. The fact is one that was asked about.
    pub fn origin(&self, fact: Fact) -> Option<Origin>
        ensures { (view : View) (asked : FactParts) → AreOriginsOf view asked self.now
            → HasFact asked fact → IsOriginOf view fact result }
    {
        ld_facts::renamed_facts_are_the_image();
        self.origin_of(fact)
    }

    // The origin of a dependency that is kept.
    pub(crate) fn origin_in(&self, d: &Dependency) -> Option<Origin>
        ensures { result ≡ origin_in self.now d.now }
    {
        if d.from.get() >= self.keys || d.to.get() >= self.keys {
            return None;
        }
        let number = d.fact().number(self.keys) as u32;
        self.origins.get(&number).copied()
    }

    fn origin_of(&self, fact: Fact) -> Option<Origin>
        ensures some { IfSome result (HasOrigin self.now fact) }
        ensures none { IsNone result → ¬ IsKnown self.now fact }
    {
        if !fact.is_below(self.keys) {
            return None;
        }
        let number = fact.number(self.keys) as u32;
        self.origins.get(&number).copied()
    }

    // Gives the fact this origin, unless it has one.
    pub(crate) fn put(&mut self, fact: Fact, origin: Origin) -> Tried<()>
        requires { FactBelow self.old.keys fact }
        ensures { OnOk result (PutsOrigin self.old self.new fact origin) }
    {
        ld_facts::facts_are_bits();
        let number = fact.number(self.keys) as u32;
        if self.origins.contains_key(&number) {
            return Ok(());
        }
        match self.origins.insert(number, origin) {
            Ok(_) => Ok(()),
            Err(_) => Err(AllocError),
        }
    }
}

// The position of the held lock by which the fact in a slot of a chain is given, by the state just after the chain's
// event.
pub(crate) fn position_of_slot(state: &PlacedState, chain: &Chain, n: usize) -> Option<u32>
    ensures { (t : List Event) (place : ℕ) → IsPlacedAfter t (place + 1) state.now → trace_chains.chain t place ≡ Some chain.now
        → n < fact_slots chain.now → result ≡ slot_position t place chain.now n }
{
    match lock_of_slot(chain, n) {
        Some(held) => state.held_place(held),
        None => None,
    }
}
