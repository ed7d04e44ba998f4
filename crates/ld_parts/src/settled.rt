//! Facts that are settled, as those of a completed run, and what they mean.

ghost use Rattle.std.specs.Prelude.{◌≡◌, ◌*◌, ◌≤◌, ◌↔◌, IfSome, IsNone, IsTrue, length};
ghost use Rattle.ld_facts.specs.Arrows.{Arrow, arrow};
ghost use Rattle.ld_facts.specs.Counting.{IsNumberOf};
ghost use Rattle.ld_facts.specs.FactBits.{HasFact};
ghost use Rattle.ld_facts.specs.Facts.{DependenciesOf};
ghost use Rattle.ld_facts.specs.declared.fact.Fact.{Fact};
ghost use Rattle.ld_graph.specs.Links.{InInversion, IsClean, IsDouble, IsDoubleBy, IsInversion, IsShortestInversion, link_by};
ghost use Rattle.ld_graph.specs.Walks.{IsShortestCircle, IsShortestFrom, OnCircle};
ghost use Rattle.ld_parts.specs.Inside.Pairs.{IsPair};
ghost use Rattle.ld_parts.specs.Inside.Parts.{AreApart};

use crate::pair::Pair;
use crate::parted_graph::PartedGraph;
use ld_facts::Facts;
use ld_graph::{Circle, Graph, InversionWalk, Kind, Mark, Walk};
use ld_trace::Irq;
use std::marker::Model;

/// Facts that are settled: those of a completed run, or of a graph that its caller has made. Whoever has them can ask
/// what they mean; no question takes memory.
#[derive(Drop)]
pub struct Settled {
    graphs: Graphs,
}

// What the questions are asked of: one graph of all keys, or one for each rank of many.
#[derive(Drop)]
pub(crate) enum Graphs {
    One(Graph),
    ByRank(PartedGraph),
}

impl Model for Settled {
    ghost use Rattle.ld_facts.specs.FactBits.{FactParts};
    ghost use Rattle.ld_parts.specs.Inside.Pairs.{facts_in};

    ghost Value = { FactParts };

    ghost view = { λ s. facts_in s.graphs };
}

impl Settled {
    /// Those of one graph.
    pub fn whole(graph: Graph) -> Settled
        ensures { result ≡ graph.facts }
    {
        Settled {
            graphs: Graphs::One(graph),
        }
    }

    /// Those of a graph for each rank of keys.
    pub fn by_rank(graph: PartedGraph) -> Settled
        ensures { result ≡ graph }
    {
        Settled {
            graphs: Graphs::ByRank(graph),
        }
    }

    // Two keys in the graph that has both. None if no graph has both, and so nothing is found between them.
    fn pair(&self, a: u16, b: u16) -> Option<Pair<'_>>
        ensures none { IsNone result → AreApart self.now a b }
        ensures some { IfSome result (IsPair self.now a b) }
    {
        match &self.graphs {
            Graphs::One(graph) => Some(Pair {
                graph,
                keys: None,
                a,
                b,
            }),
            Graphs::ByRank(graph) => {
                let (part, at_a, at_b) = graph.together(a, b)?;
                Some(Pair {
                    graph: &part.graph,
                    keys: Some(&part.keys),
                    a: at_a,
                    b: at_b,
                })
            }
        }
    }

    /// The facts.
    pub fn facts(&self) -> &Facts
        ensures { result.now ≡ self.now }
    {
        match &self.graphs {
            Graphs::One(graph) => graph.facts(),
            Graphs::ByRank(graph) => graph.facts(),
        }
    }

    /// Whether the dependency is among the facts.
    pub fn has_dep(&self, from: u16, to: u16, kind: Kind) -> bool
        ensures { IsTrue result ↔ HasFact self.now (Fact.Dependency from to kind) }
    {
        self.facts().has_dep(from, to, kind)
    }

    /// Whether the key has the mark.
    pub fn has_mark(&self, key: u16, mark: Mark) -> bool
        ensures { IsTrue result ↔ HasFact self.now (Fact.Marked key mark) }
    {
        self.facts().has_mark(key, mark)
    }

    /// How many distinct dependencies there are, at most 262,144 for 256 keys.
    pub fn dependencies(&self) -> u64
        ensures { IsNumberOf (DependenciesOf (HasFact self.now)) result }
    {
        self.facts().dependencies()
    }

    /// Whether the dependency is on a circle. False if it isn't among the facts.
    pub fn on_circle(&self, from: u16, to: u16, kind: Kind) -> bool
        ensures { IsTrue result ↔ OnCircle (HasFact self.now) (arrow from to kind) }
    {
        match self.pair(from, to) {
            Some(pair) => pair.graph.on_circle(pair.a, pair.b, kind),
            None => false,
        }
    }

    /// A shortest circle: a closed strong walk of the dependencies such that none has fewer members and no key is the
    /// start of two. None exactly if no dependency is on a circle. If several are shortest, which one is returned is
    /// unspecified.
    pub fn shortest_circle(&self) -> Option<Circle>
        ensures none { IsNone result ↔ ((d : Arrow) → ¬ OnCircle (HasFact self.now) d) }
        ensures some { IfSome result (λ circle. IsShortestCircle (HasFact self.now) circle) }
        ensures few { IfSome result (λ circle. length circle ≤ self.now.keys) }
    {
        match &self.graphs {
            Graphs::One(graph) => graph.shortest_circle(),
            Graphs::ByRank(graph) => graph.shortest_circle(),
        }
    }

    /// A shortest of the closed strong walks that begin with the dependency. None exactly if it is on no circle, and so
    /// if it isn't among the facts. If several are shortest, which one is returned is unspecified.
    pub fn circle_through(&self, from: u16, to: u16, kind: Kind) -> Option<Walk>
        ensures none { IsNone result ↔ ¬ OnCircle (HasFact self.now) (arrow from to kind) }
        ensures some { IfSome result (λ walk. IsShortestFrom (HasFact self.now) (arrow from to kind) walk) }
        ensures few { IfSome result (λ walk. length walk ≤ 2 * self.now.keys) }
    {
        let pair = self.pair(from, to)?;
        let walk = pair.graph.circle_through(pair.a, pair.b, kind)?;
        Some(pair.by_keys(walk))
    }

    /// Whether the key is a double of the state: used in it and used with it enabled, and not only by readers.
    pub fn is_double(&self, irq: Irq, key: u16) -> bool
        ensures { IsTrue result ↔ IsDouble (HasFact self.now) irq key }
    {
        match self.pair(key, key) {
            Some(pair) => pair.graph.is_double(irq, pair.a),
            None => false,
        }
    }

    /// The forms of two marks that make the key a double of the state: whether the mark that it is used with the state
    /// enabled is the read form, and whether the mark that it is used in the state is. They are not both. None exactly
    /// if the key is no double of the state. If several forms fit, which are returned is unspecified.
    pub fn double_forms(&self, irq: Irq, key: u16) -> Option<(bool, bool)>
        ensures none { IsNone result ↔ ¬ IsDouble (HasFact self.now) irq key }
        ensures some { IfSome result (λ forms.
            IsDoubleBy (HasFact self.now) irq key (link_by key key forms.0 forms.1)) }
    {
        let pair = self.pair(key, key)?;
        pair.graph.double_forms(irq, pair.a)
    }

    /// Whether `a` and `b` are an inversion of the state: a strong walk from `a` to `b` and an interrupt link from `b`
    /// to `a`, each of which may follow the other.
    pub fn is_inversion(&self, irq: Irq, a: u16, b: u16) -> bool
        ensures { IsTrue result ↔ IsInversion (HasFact self.now) irq a b }
    {
        match self.pair(a, b) {
            Some(pair) => pair.graph.is_inversion(irq, pair.a, pair.b),
            None => false,
        }
    }

    /// Whether the dependency is a member of the walk of some inversion. False if it isn't among the facts.
    pub fn in_inversion(&self, from: u16, to: u16, kind: Kind) -> bool
        ensures { IsTrue result ↔ InInversion (HasFact self.now) (arrow from to kind) }
    {
        match self.pair(from, to) {
            Some(pair) => pair.graph.in_inversion(pair.a, pair.b, kind),
            None => false,
        }
    }

    /// A shortest strong walk from `a` to `b` that makes them an inversion of the state, with the forms of the marks of
    /// the link that it closes by. None exactly if they are no inversion of the state. If several walks are shortest,
    /// which one is returned, and which link, is unspecified.
    pub fn inversion_walk(&self, irq: Irq, a: u16, b: u16) -> Option<InversionWalk>
        ensures none { IsNone result ↔ ¬ IsInversion (HasFact self.now) irq a b }
        ensures some { IfSome result (λ found. IsShortestInversion (HasFact self.now) irq a b
            (link_by b a found.enabled_read found.used_read) found.walk) }
        ensures few { IfSome result (λ found. length found.walk ≤ 2 * self.now.keys) }
    {
        let pair = self.pair(a, b)?;
        let found = pair.graph.inversion_walk(irq, pair.a, pair.b)?;
        Some(InversionWalk {
            walk: pair.by_keys(found.walk),
            enabled_read: found.enabled_read,
            used_read: found.used_read,
        })
    }

    /// Whether no dependency is on a circle and there is no double and no inversion.
    pub fn is_clean(&self) -> bool
        ensures { IsTrue result ↔ IsClean (HasFact self.now) }
    {
        match &self.graphs {
            Graphs::One(graph) => graph.is_clean(),
            Graphs::ByRank(graph) => graph.is_clean(),
        }
    }
}
