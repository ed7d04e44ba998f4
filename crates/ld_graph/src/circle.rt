//! Circles: closed strong walks of no more members than there can be keys.

ghost use Rattle.std.specs.Prelude.{◌≡◌, ◌<◌, ◌≤◌, EachIndex, IfSome, length, map, option_map, slice_get, slice_index};
ghost use Rattle.ld_trace.specs.declared.key_id.TheConstants.{MAX_KEYS};
ghost use Rattle.ld_facts.specs.Renumbered.{arrow_at};
ghost use Rattle.ld_graph.specs.Circles.{arrow_parts};

use crate::walk::Walk;
use ld_task::Kind;
use ld_trace::GRAPH_KEYS;
use std::marker::Model;

// The most dependencies that a circle has: as many as there can be keys.
pub(crate) const MAX_CIRCLE: usize = GRAPH_KEYS as usize;

/// A walk of at most 256 dependencies, as `Graph::shortest_circle` returns it.
#[derive(Drop, Debug)]
pub struct Circle {
    walk: Walk,
}

impl Model for Circle {
    ghost use Rattle.std.specs.Prelude.{◌≤◌, List, length};
    ghost use Rattle.ld_graph.specs.declared.circle.TheConstants.{MAX_CIRCLE};
    ghost use Rattle.ld_facts.specs.Arrows.{Arrow};

    ghost Value = { List Arrow };

    ghost view = { λ c. c.walk };

    ghost invariant = { λ c. length c.walk ≤ MAX_CIRCLE };
}

impl Circle {
    // The circle of a walk that isn't too long for one.
    pub(crate) fn of(walk: Walk) -> Circle
        requires { length walk ≤ MAX_CIRCLE }
        ensures { result ≡ walk }
    {
        Circle { walk }
    }

    /// The same circle with other keys: instead of key `n` the one at place `n` of the list.
    pub fn by_keys(&self, keys: &[u16]) -> Circle
        requires { EachIndex keys.now (λ i. slice_index keys.now i < MAX_KEYS) }
        ensures { result ≡ map (arrow_at keys.now) self.now }
    {
        Circle {
            walk: self.walk.by_keys(keys),
        }
    }

    /// How many dependencies it has, at most 256.
    pub fn len(&self) -> usize
        ensures exact { result ≡ length self.now }
        ensures at_most { result ≤ MAX_CIRCLE }
    {
        self.walk.len()
    }

    /// The dependency at place `i`, counted from 0: the key that it leads from, the key that it leads to, and its kind.
    /// None if there is none. Both keys are below `MAX_KEYS`.
    pub fn get(&self, i: usize) -> Option<(u16, u16, Kind)>
        ensures value { result ≡ option_map arrow_parts (slice_get self.now i) }
        ensures below { IfSome result (λ d. (d.0 < MAX_KEYS) × (d.1 < MAX_KEYS)) }
    {
        self.walk.get(i)
    }
}
