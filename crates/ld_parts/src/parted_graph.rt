//! Facts about more keys than a graph takes, with a graph for each rank of keys.

ghost use Rattle.std.specs.Prelude.{◌≡◌, ℕ, ◌<◌, ◌≤◌, ◌⊎◌, ◌↔◌, IsTrue, IsNone, Err, IfOk, IfSome, length, slice_index};
ghost use Rattle.ld_facts.specs.Arrows.{Arrow};
ghost use Rattle.ld_facts.specs.FactBits.{HasFact};
ghost use Rattle.ld_parts.specs.Inside.Parts.{AreApart, AreTogether};
ghost use Rattle.ld_graph.specs.Links.{IsClean};
ghost use Rattle.ld_parts.specs.Ranks.{IsCrowded, NoneGoesDown};
ghost use Rattle.ld_graph.specs.Walks.{IsShortestCircle, OnCircle};
ghost use Rattle.ld_parts.specs.declared.parting_fault.PartingFault.TheVariants.{TooTangled};
ghost use Rattle.ld_trace.specs.declared.key_id.TheConstants.{GRAPH_KEYS};

use crate::home::{Home, homes_by_ranks};
use crate::part::{Part, are_clean, parts_by_ranks, shortest_of};
use crate::parting_fault::PartingFault;
use crate::ranking::find_ranks;
use crate::ranks::{Ranks, are_ranked};
use ld_facts::Facts;
use ld_graph::Circle;
use ld_trace::GRAPH_KEYS;
use std::alloc::{AllocError, Global};
use std::marker::Model;

/// Facts about the keys below a bound of at most `MAX_KEYS`, with a graph for each rank of some ranks by which no
/// dependency and no interrupt link goes down. A question about keys of one rank is one to that rank's graph, and
/// nothing is found between keys of different ranks. The questions are those of `Settled`.
#[derive(Drop)]
pub struct PartedGraph {
    facts: Facts,
    parts: Vec<Part>,
    homes: Vec<Home>,
}

impl Model for PartedGraph {
    ghost use Rattle.ld_facts.specs.FactBits.{FactParts};
    ghost use Rattle.ld_parts.specs.Inside.Parts.{IsParted};

    ghost Value = { FactParts };

    ghost view = { λ g. g.facts };

    ghost invariant = { λ g. IsParted g.facts g.parts.items g.homes.items };
}

impl PartedGraph {
    /// The facts, with a graph for each of these ranks. It fails if an arrow goes down by them, if a rank has more than
    /// 256 keys below the bound, or if memory is refused. The memory that it takes grows with the greatest rank.
    pub fn by_ranks(alloc: Global, facts: Facts, ranks: &Ranks) -> Result<PartedGraph, PartingFault>
        ensures value { IfOk result (λ graph. graph ≡ facts) }
        ensures ranked { IfOk result (λ _. NoneGoesDown (HasFact facts) (slice_index ranks.now)) }
        ensures few { IfOk result (λ _. (r : ℕ) → ¬ IsCrowded facts.keys (slice_index ranks.now) r) }
        ensures tangled { result ≡ Err TooTangled
            → ¬ NoneGoesDown (HasFact facts) (slice_index ranks.now)
            ⊎ ((r : ℕ) × IsCrowded facts.keys (slice_index ranks.now) r) }
    {
        if !are_ranked(&facts, ranks) {
            return Err(PartingFault::TooTangled);
        }
        let parts = parts_by_ranks(alloc, &facts, ranks)?;
        let homes = homes_by_ranks(alloc, facts.keys(), ranks, &parts)?;
        Ok(PartedGraph {
            facts,
            parts,
            homes,
        })
    }

    /// The facts, with a graph for each of some ranks that are found for them: keys that reach each other by arrows
    /// have the same rank. It fails if more than 256 keys would have to have one rank, or if memory is refused.
    pub fn new(alloc: Global, facts: Facts) -> Result<PartedGraph, PartingFault>
        ensures value { IfOk result (λ graph. graph ≡ facts) }
        ensures tangled { result ≡ Err TooTangled → GRAPH_KEYS < facts.keys }
    {
        let ranks = ranks_for(alloc, &facts)?;
        PartedGraph::by_ranks(alloc, facts, &ranks)
    }

    // The facts.
    pub(crate) fn facts(&self) -> &Facts
        ensures { result.now ≡ self.now }
    {
        &self.facts
    }

    // The part in which both keys are, and their places there. None if they are in different parts or aren't both below
    // the bound.
    pub(crate) fn together(&self, a: u16, b: u16) -> Option<(&Part, u16, u16)>
        ensures none { IsNone result → AreApart self.now a b }
        ensures some { IfSome result (λ found. AreTogether self.now found.0.now a b found.1 found.2) }
    {
        let of_a = self.homes.get(usize::from(a))?;
        let of_b = self.homes.get(usize::from(b))?;
        if of_a.part != of_b.part {
            return None;
        }
        let part = &self.parts[usize::from(of_a.part)];
        Some((part, of_a.place, of_b.place))
    }

    // Whether no dependency is on a circle and there is no double and no inversion.
    pub(crate) fn is_clean(&self) -> bool
        ensures { IsTrue result ↔ IsClean (HasFact self.now) }
    {
        are_clean(&self.parts)
    }

    // A shortest circle, None exactly if no dependency is on a circle.
    pub(crate) fn shortest_circle(&self) -> Option<Circle>
        ensures none { IsNone result ↔ ((d : Arrow) → ¬ OnCircle (HasFact self.now) d) }
        ensures some { IfSome result (λ circle. IsShortestCircle (HasFact self.now) circle) }
        ensures few { IfSome result (λ circle. length circle ≤ self.now.keys) }
    {
        shortest_of(&self.parts)
    }
}

// Ranks for the facts: one for all keys, if there are at most 256, and otherwise those that a search finds.
fn ranks_for(alloc: Global, facts: &Facts) -> Result<Ranks, AllocError>
    ensures { facts.now.keys ≤ GRAPH_KEYS → IfOk result (λ ranks. (key : ℕ) → slice_index ranks key ≡ 0) }
{
    if facts.keys() <= GRAPH_KEYS {
        Ranks::new(alloc, 0)
    } else {
        find_ranks(alloc, facts)
    }
}
