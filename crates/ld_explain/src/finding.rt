//! What was found, as values: everything that any text says of a finding.

ghost use Rattle.std.specs.Prelude.{◌==◌, ◌↔◌, ◌≡◌, IsTrue};
ghost use Rattle.ld_explain.specs.Names.{arrow, list_all};
ghost use Rattle.ld_explain.specs.Clauses.{is_nesting, orders_of};

use crate::{Dependency, Origin};
use ld_task::Kind;
use ld_trace::{Irq, KeyId};

/// A dependency of a finding, and where it first occurs.
#[derive(Drop)]
pub struct Order {
    /// The dependency.
    pub dependency: Dependency,
    /// Its first occurrence in the traces.
    pub origin: Origin,
}

impl Order {
    pub(crate) fn is(&self, from: u16, to: u16, kind: Kind) -> bool
        ensures { IsTrue result ↔ (self.now.dependency ≡ arrow from to kind) }
    {
        self.dependency.from.get() == from
            && self.dependency.to.get() == to
            && self.dependency.kind == kind
    }

    // Whether it leads from this key.
    pub(crate) fn leads_from(&self, from: u16) -> bool
        ensures { IsTrue result ↔ (self.now.dependency.start ≡ from) }
    {
        self.dependency.from.get() == from
    }

    // Whether it leads from a key to itself.
    fn is_nesting(&self) -> bool
        ensures { result ≡ (self.now.dependency.start == self.now.dependency.end) }
    {
        self.dependency.from.get() == self.dependency.to.get()
    }
}

/// A lock class of which a lock is held round several dependencies of a finding wherever they occur.
#[derive(Drop)]
pub struct GateNote {
    /// The key of the lock that is held.
    pub key: KeyId,
    /// The dependencies that it is held round: two at least, in the finding's order.
    pub guarded: Vec<Dependency>,
}

/// A finding.
#[derive(Drop)]
pub enum Finding {
    /// Dependencies that make a closed strong walk.
    Circle {
        /// The members in turn.
        walk: Vec<Order>,
        /// The locks that are always held round several of them, in the order of the keys.
        gates: Vec<GateNote>,
        /// The place of the trace that has all occurrences of all of them, if one has.
        only: Option<u32>,
    },
    /// A key that is used in a state and with it enabled.
    Double {
        /// The state.
        irq: Irq,
        /// The key.
        key: KeyId,
        /// Where it is first used in the state.
        used: Origin,
        /// Where it is first used with the state enabled.
        enabled: Origin,
    },
    /// A strong walk from a key that is used in a state to a key that is used with it enabled.
    Inversion {
        /// The state.
        irq: Irq,
        /// The key that is used in the state.
        a: KeyId,
        /// The key that is used with it enabled.
        b: KeyId,
        /// The members of the walk in turn.
        walk: Vec<Order>,
        /// Where `a` is first used in the state.
        used: Origin,
        /// Where `b` is first used with the state enabled.
        enabled: Origin,
        /// The locks that are always held round several members, in the order of the keys.
        gates: Vec<GateNote>,
    },
}

impl Finding {
    /// The members of its walk in turn; a double has none.
    pub fn orders(&self) -> &[Order]
        ensures { result.now ≡ orders_of self.now }
    {
        match self {
            Finding::Circle { walk, .. } | Finding::Inversion { walk, .. } => walk.as_slice(),
            Finding::Double { .. } => &[],
        }
    }

    /// Whether it is a circle of which each member leads from a key to itself.
    pub fn is_nesting(&self) -> bool
        ensures { result ≡ is_nesting self.now }
    {
        match self {
            Finding::Circle { walk, .. } => are_nestings(walk),
            _ => false,
        }
    }
}

// Whether each of the dependencies leads from a key to itself.
fn are_nestings(walk: &[Order]) -> bool
    ensures { result ≡ list_all (λ o. o.dependency.start == o.dependency.end) walk.now }
{
    walk.iter().all(|order| order.is_nesting())
}
