//! Strong walks, as they are returned.

ghost use Rattle.std.specs.Prelude.{◌≡◌, ◌<◌, ◌≤◌, [], ◌∷◌, EachIndex, IfSome, length, map, option_map, slice_get, slice_index};
ghost use Rattle.ld_trace.specs.declared.key_id.TheConstants.{MAX_KEYS};
ghost use Rattle.ld_graph.specs.Circles.{arrow_parts};
ghost use Rattle.ld_facts.specs.Inside.Rows.{arrow_of, IsOfManyKeys};
ghost use Rattle.ld_facts.specs.Renumbered.{arrow_at};

use arrayvec::ArrayVec;
use ld_facts::Dependency;
use ld_facts::places::PLACES;
use ld_task::Kind;
use std::marker::Model;

// The most dependencies that a walk has: as many as there are places.
pub(crate) const MAX_WALK: usize = PLACES;

/// A walk of at most 512 dependencies, as `Graph::circle_through` and `Graph::inversion_walk` return it. It may meet a
/// key twice.
#[derive(Drop, Debug)]
pub struct Walk {
    // The last first.
    backwards: ArrayVec<Dependency, MAX_WALK>,
}

impl Model for Walk {
    ghost use Rattle.std.specs.Prelude.{List};
    ghost use Rattle.ld_facts.specs.Arrows.{Arrow};
    ghost use Rattle.ld_graph.specs.Circles.{forwards};
    ghost use Rattle.ld_graph.specs.Inside.Searching.{AreMembers};

    ghost Value = { List Arrow };

    ghost view = { λ w. forwards w.backwards.items };

    ghost invariant = { λ w. AreMembers w.backwards.items };
}

impl Walk {
    // No dependencies yet.
    pub(crate) fn new() -> Walk
        ensures { result ≡ [] }
    {
        Walk {
            backwards: ArrayVec::new(),
        }
    }

    // Puts a dependency before the others.
    pub(crate) fn put_first(&mut self, dependency: Dependency)
        requires room { length self.old < MAX_WALK }
        requires keys { IsOfManyKeys dependency }
        ensures { self.new ≡ arrow_of dependency ∷ self.old }
    {
        self.backwards.push(dependency);
    }

    /// The same walk with other keys: instead of key `n` the one at place `n` of the list.
    pub fn by_keys(&self, keys: &[u16]) -> Walk
        requires { EachIndex keys.now (λ i. slice_index keys.now i < MAX_KEYS) }
        ensures { result ≡ map (arrow_at keys.now) self.now }
    {
        let mut walk = Walk::new();
        for i in 0..self.backwards.len() {
            walk.put_first(self.backwards[i].by_keys(keys));
        }
        walk
    }

    /// How many dependencies it has, at most 512.
    pub fn len(&self) -> usize
        ensures exact { result ≡ length self.now }
        ensures at_most { result ≤ MAX_WALK }
    {
        self.backwards.len()
    }

    /// The dependency at place `i`, counted from 0: the key that it leads from, the key that it leads to, and its kind.
    /// None if there is none. Both keys are below `MAX_KEYS`.
    pub fn get(&self, i: usize) -> Option<(u16, u16, Kind)>
        ensures value { result ≡ option_map arrow_parts (slice_get self.now i) }
        ensures below { IfSome result (λ d. (d.0 < MAX_KEYS) × (d.1 < MAX_KEYS)) }
    {
        let len = self.backwards.len();
        if i >= len {
            return None;
        }
        let Dependency { from, to, kind } = self.backwards[len - 1 - i];
        Some((from, to, kind))
    }
}
