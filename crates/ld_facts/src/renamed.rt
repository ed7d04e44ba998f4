//! Facts with other keys: as a class stands for its locks, or as some keys are left out.

ghost use Rattle.std.specs.Prelude.{◌≡◌, ◌≤◌, IfOk, length, slice_index};
ghost use Rattle.ld_trace.specs.declared.key_id.TheConstants.{MAX_KEYS};
ghost use Rattle.ld_facts.specs.FactBits.{FactBelow, HasFact};
ghost use Rattle.ld_facts.specs.Facts.{Adds, AreSame};
ghost use Rattle.ld_facts.specs.Renaming.{ImageBelow};

use crate::fact::Fact;
use crate::facts::Facts;
use std::alloc::{AllocError, Global};

impl Facts {
    /// These facts with other keys, which are below `keys`, at most `MAX_KEYS`: the key at place `k` of `others` for the key `k`. The
    /// list has a place for each key of these facts. A fact of which a key becomes one that isn't below `keys` is left out. It fails
    /// only if memory is refused.
    pub fn renamed(&self, alloc: Global, keys: u16, others: &[u16]) -> Result<Facts, AllocError>
        requires few { keys ≤ MAX_KEYS }
        requires all { self.now.keys ≤ length others.now }
        ensures keys { IfOk result (λ f. f.keys ≡ keys) }
        ensures exact { IfOk result (λ f. AreSame (HasFact f)
            (ImageBelow keys (slice_index others.now) (HasFact self.now))) }
    {
        let mut renamed = Facts::new(alloc, keys)?;
        let mut n = 0;
        while let Some(number) = self.next_fact(n) {
            let fact = Fact::of_number(self.keys(), number);
            renamed.add_if_below(fact.at_places(others));
            n = number + 1;
        }
        Ok(renamed)
    }

    // Adds the fact, unless one of its keys isn't below the bound.
    fn add_if_below(&mut self, fact: Fact)
        ensures keys { self.new.keys ≡ self.old.keys }
        ensures adds { Adds (HasFact self.old) (HasFact self.new) (λ x. FactBelow self.old.keys x × (x ≡ fact)) }
    {
        if fact.is_below(self.keys()) {
            self.add(fact);
        }
    }
}
