//! The parts of facts: the keys of each rank, with a graph of the facts among them.

ghost use Rattle.std.specs.Prelude.{◌≡◌, ℕ, ◌<◌, ◌≤◌, ◌↔◌, All, IsTrue, IsNone, IfOk, IfSome, Err, length, slice_index};
ghost use Rattle.ld_facts.specs.Arrows.{Arrow};
ghost use Rattle.ld_facts.specs.FactBits.{HasFact};
ghost use Rattle.ld_parts.specs.Inside.Parts.{AreKeysOf, AreParts, IsPart, IsShortestOfFirst, IsShortestOfPart, AreKeyNumbers};
ghost use Rattle.ld_graph.specs.Links.{IsClean};
ghost use Rattle.ld_parts.specs.Ranks.{IsCrowded};
ghost use Rattle.ld_graph.specs.Walks.{OnCircle};
ghost use Rattle.ld_parts.specs.declared.parting_fault.PartingFault.TheVariants.{TooTangled};

use crate::parting_fault::PartingFault;
use crate::ranks::Ranks;
use ld_facts::Facts;
use ld_graph::{Circle, Graph};
use ld_trace::GRAPH_KEYS;
use std::alloc::{AllocError, Global};

// The keys of a rank, with the graph of the facts among them, in which a key's number is its place.
#[derive(Drop)]
pub(crate) struct Part {
    pub(crate) keys: Vec<u16>,
    pub(crate) graph: Graph,
}

impl Part {
    // The part of a rank, `TooTangled` if the rank has too many keys.
    fn of_rank(alloc: Global, facts: &Facts, ranks: &Ranks, rank: u16) -> Result<Part, PartingFault>
        ensures ok { IfOk result (IsPart facts.now (slice_index ranks.now) rank) }
        ensures tangled { result ≡ Err TooTangled
            → IsCrowded facts.now.keys (slice_index ranks.now) rank }
    {
        let keys = keys_of(alloc, facts.keys(), ranks, rank)?;
        if keys.len() > usize::from(GRAPH_KEYS) {
            return Err(PartingFault::TooTangled);
        }
        let graph = Graph::of_keys(alloc, facts, &keys)?;
        Ok(Part { keys, graph })
    }

    // A shortest circle of the part's graph, with the keys themselves.
    fn shortest_circle(&self) -> Option<Circle>
        requires { AreKeyNumbers self.now.keys.items }
        ensures none { IsNone result
            → (d : Arrow) → ¬ OnCircle (HasFact self.now.graph.facts) d }
        ensures some { IfSome result (IsShortestOfPart self.now) }
    {
        let circle = self.graph.shortest_circle()?;
        Some(circle.by_keys(&self.keys))
    }
}

// A part for each rank up to the greatest that a key has.
pub(crate) fn parts_by_ranks(
    alloc: Global,
    facts: &Facts,
    ranks: &Ranks,
) -> Result<Vec<Part>, PartingFault>
    ensures ok { IfOk result (λ parts. AreParts facts.now (slice_index ranks.now) parts.items) }
    ensures tangled { result ≡ Err TooTangled
        → (r : ℕ) × IsCrowded facts.now.keys (slice_index ranks.now) r }
{
    let mut parts = Vec::new(alloc);
    for rank in 0..rank_count(facts.keys(), ranks) {
        parts.push(Part::of_rank(alloc, facts, ranks, rank as u16)?)?;
    }
    Ok(parts)
}

// One more than the greatest rank of a key below the bound, or 0 if there is no key.
fn rank_count(keys: u16, ranks: &Ranks) -> usize
    ensures all { (key : ℕ) → key < keys → slice_index ranks.now key < result }
    ensures few { result ≤ 65_536 }
{
    let mut count = 0;
    for key in 0..keys {
        count = count.max(usize::from(ranks.get(key)) + 1);
    }
    count
}

// The keys below the bound that have this rank, each once.
fn keys_of(alloc: Global, bound: u16, ranks: &Ranks, rank: u16) -> Result<Vec<u16>, AllocError>
    ensures { IfOk result (λ keys. AreKeysOf bound (slice_index ranks.now) rank keys.items) }
{
    let mut keys = Vec::new(alloc);
    for key in 0..bound {
        if ranks.get(key) == rank {
            keys.push(key)?;
        }
    }
    Ok(keys)
}

// Whether the facts of each part's graph are clean.
pub(crate) fn are_clean(parts: &[Part]) -> bool
    ensures { IsTrue result ↔ All (λ part. IsClean (HasFact part.graph.facts)) parts.now }
{
    parts.iter().all(|part| part.graph.is_clean())
}

// A shortest of the circles of the parts' graphs, with the keys themselves.
pub(crate) fn shortest_of(parts: &[Part]) -> Option<Circle>
    requires { All (λ part. AreKeyNumbers part.keys.items) parts.now }
    ensures none { IsNone result
        → All (λ part. (d : Arrow) → ¬ OnCircle (HasFact part.graph.facts) d) parts.now }
    ensures some { IfSome result (IsShortestOfFirst parts.now (length parts.now)) }
{
    let mut shortest = None;
    for part in parts {
        if let Some(circle) = part.shortest_circle() {
            if is_shorter(&circle, &shortest) {
                shortest = Some(circle);
            }
        }
    }
    shortest
}

// Whether the circle is shorter than the one that is known, if there is one.
fn is_shorter(circle: &Circle, known: &Option<Circle>) -> bool
    ensures none { IsNone known.now → IsTrue result }
    ensures some { IfSome known.now (λ other. IsTrue result ↔ (length circle.now < length other)) }
{
    match known {
        Some(other) => circle.len() < other.len(),
        None => true,
    }
}
