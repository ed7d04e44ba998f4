//! Where what was chosen comes from, and what speaks against it.

ghost use Rattle.std.specs.Prelude.{[], ◌++◌, ◌<◌, ◌↔◌, ◌∷◌, ◌≡◌, All, IfOk, IsFalse, IsTrue, List, OnOk, Some, length, map, ℕ};
ghost use Rattle.ld_explain.specs.Names.{DependenciesOf, Fact, HasFact, Holds};
ghost use Rattle.ld_explain.specs.Clauses.{AddsThose, Are, AreGates, AreOrders, AreThose, Explains, ExplainsSeen, IsAmong, IsCircle, IsFirst, IsGate, IsGuardOf, IsMark, IsOfBoth, IsOfLink, IsOnly, IsSeenAmong, Knows, SaysSeen, enabled_of, used_of, view_of};

use crate::choices::{Choice, Link};
use crate::questions::Seen;
use crate::{
    Asked, Between, Dependency, Evidence, Finding, GateNote, Guard, Naming, Order, Origin, Tried,
    Verdict,
};
use ld_facts::Fact;
use ld_trace::{KeyId, RawTrace};
use std::alloc::Global;

// Of how many members of a walk a key is a gate if it has a note, at least.
const MIN_GUARDED: usize = 2;

// Whether both are the same trace, or none.
fn is_same(a: Option<u32>, b: Option<u32>) -> bool
    ensures { IsTrue result ↔ (a ≡ b) }
{
    a == b
}

// What findings are explained from: what the traces say about all facts that are asked about, and the keys in the
// report's order.
#[derive(Drop)]
pub(crate) struct Explainer<'a> {
    pub traces: &'a [RawTrace],
    pub naming: Naming<'a>,
    pub asked: &'a Asked,
    pub evidence: &'a Evidence,
    pub keys: &'a [KeyId],
    pub alloc: Global,
}

impl Explainer<'_> {
    fn origin(&self, fact: Fact) -> Origin
        requires knows { Knows self.now }
        requires asked { HasFact self.now.asked.now fact }
        ensures { IsFirst (view_of self.now.naming self.now.traces.now) fact result }
    {
        let Some(origin) = self.evidence.origins.origin(fact) else {
            unreachable!();
        };
        origin
    }

    fn order(&self, d: &Dependency) -> Order
        requires knows { Knows self.now }
        requires asked { DependenciesOf (HasFact self.now.asked.now) d.now }
        ensures dependency { result.dependency ≡ d.now }
        ensures origin { IsFirst (view_of self.now.naming self.now.traces.now) (Fact.Dependency d.now.start d.now.end d.now.kind) result.origin }
    {
        Order {
            dependency: d.copy(),
            origin: self.origin(d.fact()),
        }
    }

    fn orders(&self, walk: &[Dependency]) -> Tried<Vec<Order>>
        requires knows { Knows self.now }
        requires asked { All (DependenciesOf (HasFact self.now.asked.now)) walk.now }
        ensures { IfOk result (λ orders. AreOrders (view_of self.now.naming self.now.traces.now) walk.now orders.items) }
    {
        let mut orders = Vec::new(self.alloc);
        for d in walk {
            orders.push(self.order(d))?;
        }
        Ok(orders)
    }

    fn guard(&self, d: &Dependency) -> &Guard
        requires knows { Knows self.now }
        requires asked { DependenciesOf (HasFact self.now.asked.now) d.now }
        ensures { IsGuardOf (view_of self.now.naming self.now.traces.now) d.now result.now }
    {
        let Some(guard) = self.evidence.guards.guard_of(d.fact()) else {
            unreachable!();
        };
        guard
    }

    // The dependency, if the key is a gate of it.
    fn add_guarded(&self, guarded: &mut Vec<Dependency>, d: &Dependency, gate: KeyId) -> Tried<()>
        requires knows { Knows self.now }
        requires asked { DependenciesOf (HasFact self.now.asked.now) d.now }
        ensures { OnOk result (AddsThose (λ d. IsGate (view_of self.now.naming self.now.traces.now) d gate) (d.now ∷ []) guarded.old.items guarded.new.items) }
    {
        if self.guard(d).has_gate(gate) {
            guarded.push(d.copy())?;
        }
        Ok(())
    }

    // Those members of a walk that the key is a gate of.
    fn guarded(&self, walk: &[Dependency], gate: KeyId) -> Tried<Vec<Dependency>>
        requires knows { Knows self.now }
        requires asked { All (DependenciesOf (HasFact self.now.asked.now)) walk.now }
        ensures { IfOk result (λ guarded. AreThose (λ d. IsGate (view_of self.now.naming self.now.traces.now) d gate) walk.now guarded.items) }
    {
        let mut guarded = Vec::new(self.alloc);
        for d in walk {
            self.add_guarded(&mut guarded, d, gate)?;
        }
        Ok(guarded)
    }

    // The key, if it is a gate of enough members of a walk.
    fn add_gate(&self, gates: &mut Vec<GateNote>, walk: &[Dependency], key: KeyId) -> Tried<()>
        requires knows { Knows self.now }
        requires asked { All (DependenciesOf (HasFact self.now.asked.now)) walk.now }
        ensures { OnOk result ((keys : List ℕ) → AreGates (view_of self.now.naming self.now.traces.now) keys walk.now gates.old.items
            → AreGates (view_of self.now.naming self.now.traces.now) (keys ++ key ∷ []) walk.now gates.new.items) }
    {
        let guarded = self.guarded(walk, key)?;
        if guarded.len() < MIN_GUARDED {
            return Ok(());
        }
        gates.push(GateNote { key, guarded })?;
        Ok(())
    }

    // Whether some key may be a gate of a member of a walk. If not, none is.
    fn may_have_gates(&self, walk: &[Dependency]) -> bool
        requires knows { Knows self.now }
        requires asked { All (DependenciesOf (HasFact self.now.asked.now)) walk.now }
        ensures { IsFalse result → All (λ d. (gate : ℕ) → ¬ IsGate (view_of self.now.naming self.now.traces.now) d gate) walk.now }
    {
        for d in walk {
            if self.guard(d).has_gates() {
                return true;
            }
        }
        false
    }

    fn gates(&self, walk: &[Dependency]) -> Tried<Vec<GateNote>>
        requires knows { Knows self.now }
        requires asked { All (DependenciesOf (HasFact self.now.asked.now)) walk.now }
        ensures { IfOk result (λ gates. AreGates (view_of self.now.naming self.now.traces.now) self.now.keys.now walk.now gates.items) }
    {
        let mut gates = Vec::new(self.alloc);
        if !self.may_have_gates(walk) {
            return Ok(gates);
        }
        for key in self.keys {
            self.add_gate(&mut gates, walk, *key)?;
        }
        Ok(gates)
    }

    // The trace that alone has all members of a walk.
    fn only(&self, walk: &[Dependency]) -> Option<u32>
        requires knows { Knows self.now }
        requires some { 0 < length walk.now }
        requires are { All (DependenciesOf (HasFact self.now.asked.now)) walk.now }
        ensures { IsOnly (view_of self.now.naming self.now.traces.now) walk.now result }
    {
        let only = self.guard(&walk[0]).only;
        for d in walk {
            if !is_same(self.guard(d).only, only) {
                return None;
            }
        }
        only
    }

    fn circle(&self, walk: &[Dependency]) -> Tried<Finding>
        requires knows { Knows self.now }
        requires some { 0 < length walk.now }
        requires are { All (DependenciesOf (HasFact self.now.asked.now)) walk.now }
        ensures { IfOk result (IsCircle (view_of self.now.naming self.now.traces.now) self.now.keys.now walk.now) }
    {
        let only = self.only(walk);
        let gates = self.gates(walk)?;
        let walk = self.orders(walk)?;
        Ok(Finding::Circle { walk, gates, only })
    }

    // Where the marks of a link first occur.
    fn uses(&self, link: &Link) -> (Origin, Origin)
        requires knows { Knows self.now }
        requires asked { Holds (HasFact self.now.asked.now) (IsMark link.now) }
        ensures used { IsFirst (view_of self.now.naming self.now.traces.now) (used_of link.now) result.0 }
        ensures enabled { IsFirst (view_of self.now.naming self.now.traces.now) (enabled_of link.now) result.1 }
    {
        (self.origin(link.used()), self.origin(link.enabled()))
    }

    fn double(&self, link: &Link) -> Finding
        requires knows { Knows self.now }
        requires asked { Holds (HasFact self.now.asked.now) (IsMark link.now) }
        ensures { IsOfLink (view_of self.now.naming self.now.traces.now) link.now result }
    {
        let (used, enabled) = self.uses(link);
        Finding::Double {
            irq: link.irq,
            key: link.a,
            used,
            enabled,
        }
    }

    fn inversion(&self, walk: &[Dependency], link: &Link) -> Tried<Finding>
        requires knows { Knows self.now }
        requires are { All (DependenciesOf (HasFact self.now.asked.now)) walk.now }
        requires marks { Holds (HasFact self.now.asked.now) (IsMark link.now) }
        ensures { IfOk result (IsOfBoth (view_of self.now.naming self.now.traces.now) self.now.keys.now walk.now link.now) }
    {
        let gates = self.gates(walk)?;
        let walk = self.orders(walk)?;
        let (used, enabled) = self.uses(link);
        Ok(Finding::Inversion {
            irq: link.irq,
            a: link.a,
            b: link.b,
            walk,
            used,
            enabled,
            gates,
        })
    }

    fn finding(&self, choice: &Choice) -> Tried<Finding>
        requires knows { Knows self.now }
        requires among { IsAmong self.now.asked.now choice.now }
        ensures { IfOk result (Explains (view_of self.now.naming self.now.traces.now) self.now.keys.now choice.now) }
    {
        match choice {
            Choice::ByWalk(walk) => self.circle(walk),
            Choice::ByLink(link) => Ok(self.double(link)),
            Choice::ByBoth(walk, link) => self.inversion(walk, link),
        }
    }

    pub(crate) fn findings(&self, choices: &[Choice]) -> Tried<Vec<Finding>>
        requires knows { Knows self.now }
        requires among { All (IsAmong self.now.asked.now) choices.now }
        ensures { IfOk result (λ findings. Are (Explains (view_of self.now.naming self.now.traces.now) self.now.keys.now) choices.now findings.items) }
    {
        let mut findings = Vec::new(self.alloc);
        for choice in choices {
            findings.push(self.finding(choice)?)?;
        }
        Ok(findings)
    }

    // Between what a finding was seen.
    fn between(&self, seen: &Seen) -> Tried<Between>
        requires knows { Knows self.now }
        requires among { IsSeenAmong self.now.asked.now seen.now }
        ensures { IfOk result (ExplainsSeen (view_of self.now.naming self.now.traces.now) self.now.keys.now seen.now) }
    {
        match seen {
            Seen::Locks(choice) => Ok(Between::Locks(self.finding(choice)?)),
            Seen::Perhaps(choice) => Ok(Between::Perhaps(self.finding(choice)?)),
            Seen::Unknown => Ok(Between::Unknown),
            Seen::Classes => Ok(Between::Classes),
            Seen::Types => Ok(Between::Types),
        }
    }

    // The findings, each with what it was seen between, which stands at its place of the other list.
    pub(crate) fn verdicts(&self, findings: Vec<Finding>, seen: &[Seen]) -> Tried<Vec<Verdict>>
        requires knows { Knows self.now }
        requires among { All (IsSeenAmong self.now.asked.now) seen.now }
        requires each { length findings.items ≡ length seen.now }
        ensures findings { IfOk result (λ verdicts. map (λ v. v.finding) verdicts.items ≡ findings.items) }
        ensures between { IfOk result (λ verdicts.
            Are (SaysSeen (view_of self.now.naming self.now.traces.now) self.now.keys.now) seen.now verdicts.items) }
    {
        let mut verdicts = Vec::new(self.alloc);
        for finding in findings {
            let between = self.between(&seen[verdicts.len()])?;
            verdicts.push(Verdict { finding, between })?;
        }
        Ok(verdicts)
    }
}
