//! What speaks against findings.

ghost use Rattle.std.specs.Prelude.{[], ◌+◌, ◌<◌, ◌↔◌, ◌∷◌, ◌≡◌, ◌≤◌, IfSome, IsFalse, IsNone, IsTrue, List, OnOk, Some, slice_get, ℕ};
ghost use Rattle.ld_explain.specs.Names.{Event, MAX_KEYS};
ghost use Rattle.ld_task.specs.TraceChains as trace_chains;
ghost use Rattle.ld_explain.specs.Names.{Fact, FactBelow, FactParts, HasFact, arrow, fact_slots};
ghost use Rattle.ld_explain.specs.Clauses.{Among, AreGuards, AreGuardsOf, AsksOrder, HasGuard, IsAloneIn, IsGate, IsGuardWith, IsKept, PutsGuard, SeenFrom, View, ViewHas, key_by, named_fact, view_of};

use crate::guard::{Guard, gates_before};
use crate::{Naming, Tried};
use arrayvec::ArrayVec;
use indexmap::IndexMap;
use ld_facts::{Fact, lock_of_slot};
use ld_task::{Chain, MAX_HELD};
use std::alloc::{AllocError, Global};
use std::marker::Model;

/// For each dependency that is asked about, what speaks against a finding that it is part of: the keys of which a lock is
/// held round it at all its occurrences in a list of traces, by one task at a time and since before its held lock; and the
/// trace that has all its occurrences, if one has.
#[derive(Drop)]
pub struct Guards {
    keys: u16,
    guards: IndexMap<u32, Guard>,
}

impl Model for Guards {
    ghost use Rattle.std.specs.Prelude.{◌≤◌};
    ghost use Rattle.ld_explain.specs.Names.{MAX_KEYS};
    ghost use Rattle.ld_explain.specs.Notes.{GuardParts};

    ghost Value = { GuardParts };

    ghost view = { λ g. record { keys = g.keys; entries = g.guards.entries } };

    ghost invariant = { λ g. g.keys ≤ MAX_KEYS };
}

impl Guards {
    // Nothing that speaks against dependencies between the keys below `keys`.
    pub(crate) fn none(alloc: Global, keys: u16) -> Guards
        requires { keys ≤ MAX_KEYS }
        ensures { result ≡ record { keys = keys; entries = [] } }
    {
        Guards {
            keys,
            guards: IndexMap::new(alloc),
        }
    }

    pub(crate) fn guard_of(&self, fact: Fact) -> Option<&Guard>
        ensures some { IfSome result (λ g. HasGuard self.now fact g.now) }
        ensures none { IsNone result → ¬ IsKept self.now fact }
    {
        if !fact.is_below(self.keys) {
            return None;
        }
        let number = fact.number(self.keys) as u32;
        self.guards.get(&number)
    }

    // Takes in the occurrence of a fact in a slot of a chain of this trace, if it is a dependency.
    pub(crate) fn add_fact(
        &mut self,
        trace: u32,
        chain: &Chain,
        naming: Naming<'_>,
        n: usize,
        fact: Fact,
    ) -> Tried<()>
        requires below { FactBelow self.old.keys fact }
        requires slot { named_fact (key_by naming) chain.now n ≡ Some fact }
        requires within { n < fact_slots chain.now }
        ensures keys { OnOk result (self.new.keys ≡ self.old.keys) }
        ensures kept { OnOk result ((traces : List (List Event)) (asked : FactParts) (t : List Event) (place : ℕ)
            → slice_get traces trace ≡ Some t → trace_chains.chain t place ≡ Some chain.now → HasFact asked fact
            → AreGuards (view_of naming.entry traces) (Among (AsksOrder asked) (SeenFrom (view_of naming.entry traces) t trace place chain.now (n + 1))) self.old
            → AreGuards (view_of naming.entry traces) (Among (AsksOrder asked) (SeenFrom (view_of naming.entry traces) t trace place chain.now n)) self.new) }
    {
        match fact {
            Fact::Dependency { .. } => {
                let held = lock_of_slot(chain, n).unwrap_or(0);
                self.put(fact, trace, gates_before(chain, naming, held))
            }
            Fact::Marked { .. } => Ok(()),
        }
    }

    // Takes in one occurrence of a fact, in this trace and with these gates.
    fn put(&mut self, fact: Fact, trace: u32, gates: ArrayVec<u16, MAX_HELD>) -> Tried<()>
        requires { FactBelow self.old.keys fact }
        ensures { OnOk result (PutsGuard self.old self.new fact trace gates.items) }
    {
        ld_facts::facts_are_bits();
        let guard = self.guard_with(fact, trace, gates);
        let number = fact.number(self.keys) as u32;
        match self.guards.insert(number, guard) {
            Ok(_) => Ok(()),
            Err(_) => Err(AllocError),
        }
    }

    // The guard of a fact with one occurrence more, in this trace and with these gates.
    fn guard_with(&self, fact: Fact, trace: u32, gates: ArrayVec<u16, MAX_HELD>) -> Guard
        ensures { IsGuardWith self.now fact trace gates.items result }
    {
        match self.guard_of(fact) {
            Some(guard) => guard.narrowed(trace, &gates),
            None => Guard::first(trace, gates),
        }
    }
}
