//! A search over places, breadth first, for a shortest way from a start to a goal.

ghost use Rattle.std.specs.Prelude.{◌≡◌, ℕ, suc, ◌-◌, ◌<◌, ◌≤◌, [], ◌∷◌, length, IsTrue, IsFalse, IsNone, IfSome};
ghost use Rattle.ld_facts.specs.Inside.Rows.{arrow_of, IsOfKeys};
ghost use Rattle.ld_facts.specs.FactBits.{FactParts, HasFact};
ghost use Rattle.ld_facts.specs.Facts.{DependenciesOf};
ghost use Rattle.ld_facts.specs.Inside.Bits.{has_bit};
ghost use Rattle.ld_facts.specs.Inside.Places.{arrival};
ghost use Rattle.ld_graph.specs.Inside.Searching.{AreSteps, FindsGoal, GoesTo, Hits, LeadsBack, Misses, NoGoalBy, SeesAllFrom, StandsAt, Takes, Visits};
ghost use Rattle.ld_graph.specs.declared.walk.TheConstants.{MAX_WALK};
ghost use Rattle.ld_trace.specs.declared.key_id.TheConstants.{GRAPH_KEYS};

use crate::walk::Walk;
use arrayvec::ArrayVec;
use ld_facts::places::{PLACES, ROW_WORDS, Row};
use ld_facts::{Dependency, Facts, bits};
use std::marker::Model;

// A dependency, and the number of the step that it was taken from.
#[derive(Clone, Copy, Debug, Default)]
pub(crate) struct Step {
    dependency: Dependency,
    before: usize,
}

// The most steps of a search: the first, and one to each place.
const MAX_STEPS: usize = PLACES + 1;

// A search from a start: its steps in the order in which they were taken, and the places that they arrive at. The first
// step stands for the start, which isn't seen until some step comes back to it.
#[derive(Drop)]
pub(crate) struct Search {
    steps: ArrayVec<Step, MAX_STEPS>,
    seen: Row,
}

impl Model for Search {
    ghost use Rattle.ld_graph.specs.Inside.Searching.{SearchParts, HasRoom};

    ghost Value = { SearchParts };

    ghost view = { λ s. record { steps = s.steps.items; seen = s.seen } };

    ghost invariant = { λ s. HasRoom s.steps.items s.seen };
}

impl Search {
    // No steps yet.
    pub(crate) fn new() -> Search {
        Search {
            steps: ArrayVec::new(),
            seen: [0; ROW_WORDS],
        }
    }

    // Begins again, at the place where the dependency arrives.
    fn restart(&mut self, start: Dependency)
        requires { IsOfKeys start }
        ensures steps { self.new.steps ≡ record { dependency = start; before = 0 } ∷ [] }
        ensures seen { (q : ℕ) → IsFalse (has_bit self.new.seen q) }
    {
        self.steps.clear();
        self.seen = [0; ROW_WORDS];
        self.steps.push(Step {
            dependency: start,
            before: 0,
        });
    }

    // Takes a step if it arrives at a place in `within` that wasn't seen, and returns whether that is a goal.
    fn visit(&mut self, within: &Row, goal: &Row, step: Step) -> bool
        requires { IsOfKeys step.dependency }
        ensures { Visits within.now goal.now step self.old self.new result }
    {
        let place = step.dependency.arrival();
        if bits::has(&self.seen, place) || !bits::has(within, place) {
            return false;
        }
        bits::insert(&mut self.seen, place);
        self.steps.push(step);
        bits::has(goal, place)
    }

    // Takes the steps that follow step `i`, up to the first that arrives at a goal, and returns whether there is one.
    fn expand(&mut self, facts: &Facts, within: &Row, goal: &Row, i: usize) -> bool
        requires few { facts.now.keys ≤ GRAPH_KEYS }
        requires within { i < length self.old.steps }
        ensures takes { Takes facts.now i self.old self.new }
        ensures missed { IsFalse result → Misses goal.now self.old self.new
            × SeesAllFrom facts.now within.now i self.old.steps self.new.seen }
        ensures hit { IsTrue result → Hits goal.now self.old self.new }
    {
        let from = self.steps.as_slice()[i].dependency;
        let mut n = 0;
        while let Some(dependency) = facts.next_from(from.to, n) {
            n = dependency.row_place() + 1;
            let step = Step {
                dependency,
                before: i,
            };
            if from.may_go_on(dependency) && self.visit(within, goal, step) {
                return true;
            }
        }
        false
    }

    // Expands the steps from `first` to `end`, up to the first goal, and returns whether there is one.
    fn round(&mut self, facts: &Facts, within: &Row, goal: &Row, first: usize, end: usize) -> bool
        requires few { facts.now.keys ≤ GRAPH_KEYS }
        requires order { first ≤ end }
        requires within { end ≤ length self.old.steps }
        ensures missed { IsFalse result → (start n : ℕ)
            → AreSteps facts.now within.now goal.now start n first end first self.old
            → AreSteps facts.now within.now goal.now start n first end end self.new }
        ensures hit { IsTrue result → (start n : ℕ)
            → AreSteps facts.now within.now goal.now start n first end first self.old
            → FindsGoal facts.now goal.now (suc n) self.new × StandsAt self.new.steps 0 start }
    {
        for i in first..end {
            if self.expand(facts, within, goal, i) {
                return true;
            }
        }
        false
    }

    // The length of a shortest way, of one dependency or more, from where the start arrives to a goal, through places
    // in `within`, if there is one shorter than the bound. Its last step is then the last of all.
    pub(crate) fn find(
        &mut self,
        facts: &Facts,
        within: &Row,
        goal: &Row,
        start: Dependency,
        bound: usize,
    ) -> Option<usize>
        requires few { facts.now.keys ≤ GRAPH_KEYS }
        requires start { IsOfKeys start }
        ensures none { IsNone result → (n : ℕ) → n < bound
            → NoGoalBy facts.now within.now goal.now (arrival (arrow_of start)) n }
        ensures some { IfSome result (λ n. (0 < n) × (n < bound)
            × FindsGoal facts.now goal.now n self.new
            × StandsAt self.new.steps 0 (arrival (arrow_of start))
            × ((m : ℕ) → m < n → NoGoalBy facts.now within.now goal.now (arrival (arrow_of start)) m)) }
    {
        self.restart(start);
        let mut first = 0;
        for length in 1..bound {
            let end = self.steps.len();
            if first == end {
                return None;
            }
            if self.round(facts, within, goal, first, end) {
                return Some(length);
            }
            first = end;
        }
        None
    }

    // The way from the start to the last step, which is `count` dependencies long.
    pub(crate) fn way(&self, count: usize) -> Walk
        requires short { count ≤ MAX_WALK }
        requires leads_back { (facts : FactParts) × (q : ℕ) × LeadsBack facts self.now.steps count (length self.now.steps - 1) q }
        ensures len { length result ≡ count }
        ensures goes { (facts : FactParts) (p q : ℕ) → StandsAt self.now.steps 0 p
            → LeadsBack facts self.now.steps count (length self.now.steps - 1) q
            → GoesTo (DependenciesOf (HasFact facts)) p result q }
    {
        let mut way = Walk::new();
        let mut i = self.steps.len() - 1;
        for done in 0..count {
            let step = self.steps.as_slice()[i];
            way.put_first(step.dependency);
            i = step.before;
        }
        way
    }
}
