//! Shortest walks: those of inversions, and circles.

ghost use Rattle.std.specs.Prelude.{◌≡◌, ◌+◌, ◌*◌, ◌<◌, ◌≤◌, ◌↔◌, [], ◌∷◌, IsNone, IfSome, length};
ghost use Rattle.ld_facts.specs.Arrows.{Arrow, arrow};
ghost use Rattle.ld_facts.specs.Inside.Rows.{arrow_of, IsOfKeys};
ghost use Rattle.ld_graph.specs.Walks.{IsCircle, IsShortestCircle, IsShortestFrom, OnCircle};
ghost use Rattle.ld_graph.specs.Links.{IsInversion, IsLink, IsShortestInversion, link_by};
ghost use Rattle.ld_facts.specs.Facts.{DependenciesOf};
ghost use Rattle.ld_facts.specs.FactBits.{HasFact};
ghost use Rattle.ld_graph.specs.Inside.Searching.{LeadsRound, LeastRound, LeastThrough};
ghost use Rattle.ld_graph.specs.declared.circle.TheConstants.{MAX_CIRCLE};
ghost use Rattle.ld_facts.specs.declared.places.TheConstants.{PLACES};

use crate::circle::Circle;
use crate::ends::insert_left;
use crate::graph::{Graph, KIND_COUNT};
use crate::search::Search;
use crate::walk::Walk;
use ld_facts::places::{PLACES, ROW_WORDS, Row};
use ld_facts::{Dependency, bits, kind_at};
use ld_task::Kind;
use ld_trace::Irq;

/// The walk of an inversion, and the forms of the two marks that its link is made of.
#[derive(Drop, Debug)]
pub struct InversionWalk {
    /// The strong walk, of at most 512 dependencies.
    pub walk: Walk,
    /// Whether the mark of the key that is used with the state enabled, where the walk ends, is the read form.
    pub enabled_read: bool,
    /// Whether the mark of the key that is used in the state, where the walk begins, is the read form.
    pub used_read: bool,
}

impl Graph {
    /// A shortest strong walk from `a` to `b` that makes them an inversion of the state, with the forms of the marks of
    /// the link that it closes by. None exactly if they are no inversion of the state. If several walks are shortest,
    /// which one is returned, and which link, is unspecified.
    pub fn inversion_walk(&self, irq: Irq, a: u16, b: u16) -> Option<InversionWalk>
        ensures none { IsNone result ↔ ¬ IsInversion (HasFact self.now.facts) irq a b }
        ensures some { IfSome result (λ found. IsShortestInversion (HasFact self.now.facts) irq a b
            (link_by b a found.enabled_read found.used_read) found.walk) }
        ensures few { IfSome result (λ found. length found.walk ≤ 2 * self.now.facts.keys) }
    {
        let mut shortest = None;
        let mut bound = self.walk_bound();
        for n in 0..KIND_COUNT {
            let kind = kind_at(n);
            let link = Dependency {
                from: b,
                to: a,
                kind,
            };
            if let Some(walk) = self.walk_by_link(irq, link, bound) {
                bound = walk.len();
                shortest = Some(InversionWalk {
                    walk,
                    enabled_read: kind.begins_with_s(),
                    used_read: kind.ends_in_r(),
                });
            }
        }
        shortest
    }

    // A shortest walk back to the arrow, if it is a link of the state and there is one shorter than the bound.
    fn walk_by_link(&self, irq: Irq, link: Dependency, bound: usize) -> Option<Walk>
        requires { bound ≤ PLACES + 1 }
        ensures none { IsNone result → IsLink (HasFact self.now.facts) irq (arrow_of link)
            → LeastRound (DependenciesOf (HasFact self.now.facts)) (arrow_of link) bound }
        ensures some { IfSome result (λ walk. IsLink (HasFact self.now.facts) irq (arrow_of link)
            × LeadsRound (DependenciesOf (HasFact self.now.facts)) (arrow_of link) walk
            × LeastRound (DependenciesOf (HasFact self.now.facts)) (arrow_of link) (length walk)
            × (length walk < bound)) }
    {
        if !self.has_link(irq, link) {
            return None;
        }
        self.walk_back(link, bound)
    }

    // A shortest of the walks that lead from where the arrow arrives to a place that it leaves, by one dependency or
    // more, if there is one shorter than the bound.
    fn walk_back(&self, arrow: Dependency, bound: usize) -> Option<Walk>
        requires keys { IsOfKeys arrow }
        requires bound { bound ≤ PLACES + 1 }
        ensures none { IsNone result
            → LeastRound (DependenciesOf (HasFact self.now.facts)) (arrow_of arrow) bound }
        ensures some { IfSome result (λ walk.
            LeadsRound (DependenciesOf (HasFact self.now.facts)) (arrow_of arrow) walk
            × LeastRound (DependenciesOf (HasFact self.now.facts)) (arrow_of arrow) (length walk)
            × (length walk < bound)) }
    {
        let near = self.step_back(arrow);
        if 1 < bound && near.is_some() {
            return near;
        }
        let mut search = Search::new();
        let by_s = arrow.kind.begins_with_s();
        let within = self.reach.sources(arrow.from, by_s);
        let mut goal = [0; ROW_WORDS];
        insert_left(&mut goal, arrow.from, by_s);
        let length = search.find(&self.facts, &within, &goal, arrow, bound)?;
        Some(search.way(length))
    }

    // Such a walk of one dependency, if there is one. If many keys are taken in both orders most walks are such, and a
    // search would look at all that the key leads to.
    fn step_back(&self, arrow: Dependency) -> Option<Walk>
        requires { IsOfKeys arrow }
        ensures { IfSome result (λ walk.
            LeadsRound (DependenciesOf (HasFact self.now.facts)) (arrow_of arrow) walk × (length walk ≡ 1)) }
    {
        for n in 0..KIND_COUNT {
            if let Some(back) = self.dependency_back(arrow, kind_at(n)) {
                let mut walk = Walk::new();
                walk.put_first(back);
                return Some(walk);
            }
        }
        None
    }

    // The dependency of this kind that leads back, if there is one and it and the arrow may follow each other.
    fn dependency_back(&self, arrow: Dependency, kind: Kind) -> Option<Dependency>
        requires { IsOfKeys arrow }
        ensures keys { IfSome result IsOfKeys }
        ensures round { IfSome result (λ dependency.
            LeadsRound (DependenciesOf (HasFact self.now.facts)) (arrow_of arrow) (arrow_of dependency ∷ [])) }
    {
        let dependency = Dependency {
            from: arrow.to,
            to: arrow.from,
            kind,
        };
        let is_there = self.facts.has_dep(arrow.to, arrow.from, kind);
        if is_there && arrow.may_go_on(dependency) && dependency.may_go_on(arrow) {
            Some(dependency)
        } else {
            None
        }
    }

    // One more than the most dependencies of a shortest walk, which are as many as the keys have places.
    fn walk_bound(&self) -> usize
        ensures value { result ≡ 2 * self.now.facts.keys + 1 }
        ensures fits { result ≤ PLACES + 1 }
    {
        2 * usize::from(self.keys()) + 1
    }

    /// A shortest of the closed strong walks that begin with the dependency. None exactly if it is on no circle, and so
    /// if it isn't among the facts. If several are shortest, which one is returned is unspecified.
    pub fn circle_through(&self, from: u16, to: u16, kind: Kind) -> Option<Walk>
        ensures none { IsNone result ↔ ¬ OnCircle (HasFact self.now.facts) (arrow from to kind) }
        ensures some { IfSome result (λ walk.
            IsShortestFrom (HasFact self.now.facts) (arrow from to kind) walk) }
        ensures few { IfSome result (λ walk. length walk ≤ 2 * self.now.facts.keys) }
    {
        if !self.on_circle(from, to, kind) {
            return None;
        }
        let bound = self.walk_bound();
        let dependency = Dependency { from, to, kind };
        let mut walk = if dependency.may_follow_itself() {
            Walk::new()
        } else {
            self.walk_back(dependency, bound)?
        };
        walk.put_first(dependency);
        Some(walk)
    }

    /// A shortest circle: a closed strong walk of the dependencies such that none has fewer members and no key is the
    /// start of two. None exactly if no dependency is on a circle. If several are shortest, which one is returned is
    /// unspecified.
    pub fn shortest_circle(&self) -> Option<Circle>
        ensures none { IsNone result
            ↔ ((d : Arrow) → ¬ OnCircle (HasFact self.now.facts) d) }
        ensures some { IfSome result (λ circle.
            IsShortestCircle (HasFact self.now.facts) circle) }
        ensures few { IfSome result (λ circle. length circle ≤ self.now.facts.keys) }
    {
        let mut search = Search::new();
        let mut done = [0; ROW_WORDS];
        let mut shortest = None;
        let mut bound = usize::from(self.keys()) + 1;
        for place in 0..PLACES {
            if let Some(circle) = self.circle_at(&mut search, place, &done, bound) {
                bound = circle.len();
                shortest = Some(circle);
            }
            bits::insert(&mut done, place);
        }
        shortest
    }

    // A shortest of the circles that arrive at the place and at none that is done, if it is shorter than the bound.
    fn circle_at(
        &self,
        search: &mut Search,
        place: usize,
        done: &Row,
        bound: usize,
    ) -> Option<Circle>
        requires place { place < PLACES }
        requires bound { bound ≤ MAX_CIRCLE + 1 }
        ensures none { IsNone result → LeastThrough self.now.facts done.now place bound }
        ensures some { IfSome result (λ circle. IsCircle (HasFact self.now.facts) circle
            × (length circle < bound)
            × LeastThrough self.now.facts done.now place (length circle)) }
    {
        let mut within = self.reach.to(place);
        bits::remove(&mut within, done);
        if !bits::has(&within, place) {
            return None;
        }
        let mut goal = [0; ROW_WORDS];
        bits::insert(&mut goal, place);
        let start = Dependency::into_place(place);
        let length = search.find(&self.facts, &within, &goal, start, bound)?;
        Some(Circle::of(search.way(length)))
    }
}
