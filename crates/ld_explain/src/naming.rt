//! Which keys facts are about.

ghost use Rattle.std.specs.Prelude.{◌≡◌};
ghost use Rattle.ld_explain.specs.Names.{fact_by};
ghost use Rattle.ld_explain.specs.Clauses.{key_by, named_fact};

use ld_facts::{Fact, fact_in_slot};
use ld_task::Chain;

/// The keys that facts are about.
#[derive(Clone, Copy, Debug)]
pub enum Naming<'a> {
    /// Those of the traces.
    Own,
    /// Others: for each key of the traces the one at its place in this list, or 0 where the list ends before it.
    Renamed(&'a [u16]),
}

impl Naming<'_> {
    /// What the key is called.
    pub fn of(self, key: u16) -> u16
        ensures { result ≡ key_by self.entry key }
    {
        match self {
            Naming::Own => key,
            Naming::Renamed(others) => others.get(usize::from(key)).copied().unwrap_or(0),
        }
    }

    /// The fact by what its keys are called.
    pub fn fact(self, fact: Fact) -> Fact
        ensures { result ≡ fact_by (key_by self.entry) fact }
    {
        match fact {
            Fact::Dependency { from, to, kind } => Fact::Dependency {
                from: self.of(from),
                to: self.of(to),
                kind,
            },
            Fact::Marked { key, mark } => Fact::Marked {
                key: self.of(key),
                mark,
            },
        }
    }
}

// The fact in a slot of a chain, by what its keys are called.
pub(crate) fn named_fact(chain: &Chain, n: usize, naming: Naming<'_>) -> Option<Fact>
    ensures { result ≡ named_fact (key_by naming.entry) chain.now n }
{
    match fact_in_slot(chain, n) {
        Some(fact) => Some(naming.fact(fact)),
        None => None,
    }
}
