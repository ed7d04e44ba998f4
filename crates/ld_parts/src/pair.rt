//! Two keys in the graph that has both.

ghost use Rattle.std.specs.Prelude.{◌≡◌, IfSome};
ghost use Rattle.ld_parts.specs.Inside.Pairs.{renumbered_by};
ghost use Rattle.ld_parts.specs.Inside.Parts.{AreKeyNumbers};

use ld_graph::{Graph, Walk};

// Two keys, and the graph that has both, in which they have these numbers. The keys of the graph's numbers are listed, unless the
// numbers are the keys themselves.
#[derive(Clone, Copy)]
pub(crate) struct Pair<'a> {
    pub(crate) graph: &'a Graph,
    pub(crate) keys: Option<&'a [u16]>,
    pub(crate) a: u16,
    pub(crate) b: u16,
}

impl Pair<'_> {
    // A walk of the graph, with the keys themselves.
    pub(crate) fn by_keys(&self, walk: Walk) -> Walk
        requires { IfSome self.now.keys (λ keys. AreKeyNumbers keys.now) }
        ensures { result ≡ renumbered_by self.now.keys walk }
    {
        match self.keys {
            Some(keys) => walk.by_keys(keys),
            None => walk,
        }
    }
}
