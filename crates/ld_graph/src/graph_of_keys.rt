//! The graph of the facts among some keys, each key by its place in a list of them. Most keys of a program have no dependency, and
//! lead to few others: what has no dependency is passed over at once.

ghost use Rattle.std.specs.Prelude.{◌≡◌, ◌+◌, ◌*◌, ◌<◌, ◌≤◌, IfOk, length};
ghost use Rattle.ld_facts.specs.FactBits.{HasFact};
ghost use Rattle.ld_facts.specs.Facts.{AreSame};
ghost use Rattle.ld_facts.specs.Numbers.{bit_total};
ghost use Rattle.ld_facts.specs.Renumbered.{Renumbered};
ghost use Rattle.ld_graph.specs.Inside.TakingOver.{IsTakenOver};
ghost use Rattle.ld_trace.specs.declared.key_id.TheConstants.{GRAPH_KEYS};

use crate::graph::Graph;
use ld_facts::{Fact, Facts, fact_total};
use std::alloc::{AllocError, Global};

impl Graph {
    /// The facts that are only about keys of the list, each key by its place there. It fails only if memory is refused.
    pub fn of_keys(alloc: Global, facts: &Facts, keys: &[u16]) -> Result<Graph, AllocError>
        requires few { length keys.now ≤ GRAPH_KEYS }
        ensures keys { IfOk result (λ g. g.facts.keys ≡ length keys.now) }
        ensures facts { IfOk result (λ g.
            AreSame (HasFact g.facts) (Renumbered (HasFact facts.now) keys.now)) }
    {
        let places = keys.len() as u16;
        let mut graph = Graph::new(alloc, places)?;
        for place in 0..keys.len() {
            if facts.leads_on(keys[place]) {
                graph.take_over_row(facts, keys, place);
            }
        }
        graph.take_over(facts, keys, keys.len() * keys.len() * 4, fact_total(places));
        Ok(graph)
    }

    // Takes over the dependencies from the key at this place, after those from the places before it.
    fn take_over_row(&mut self, facts: &Facts, keys: &[u16], place: usize)
        requires few { length keys.now ≤ GRAPH_KEYS }
        requires within { place < length keys.now }
        requires before { IsTakenOver facts.now self.old.facts keys.now (place * (length keys.now * 4)) }
        ensures { IsTakenOver facts.now self.new.facts keys.now ((place + 1) * (length keys.now * 4)) }
    {
        for other in 0..keys.len() {
            if facts.leads(keys[place], keys[other]) {
                let first = (place * keys.len() + other) * 4;
                self.take_over(facts, keys, first, first + 4);
            }
        }
    }

    // Takes over the facts whose numbers, by places, are from `first` on and below `end`.
    fn take_over(&mut self, facts: &Facts, keys: &[u16], first: usize, end: usize)
        requires few { length keys.now ≤ GRAPH_KEYS }
        requires order { first ≤ end }
        requires within { end ≤ bit_total (length keys.now) }
        requires before { IsTakenOver facts.now self.old.facts keys.now first }
        ensures { IsTakenOver facts.now self.new.facts keys.now end }
    {
        let places = keys.len() as u16;
        for n in first..end {
            let fact = Fact::of_number(places, n);
            if facts.has(fact.at_places(keys)) {
                self.add(fact);
            }
        }
    }
}
