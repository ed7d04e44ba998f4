//! The facts that are asked about.

ghost use Rattle.std.specs.Prelude.{◌↔◌, ◌≡◌, ◌≤◌, IfOk, IsFalse, IsTrue, Some, ℕ};
ghost use Rattle.ld_explain.specs.Names.{Adds, Fact, FactBelow, HasFact, MAX_KEYS};
ghost use Rattle.ld_explain.specs.Clauses.{key_by, last_key, named_fact};

use crate::naming::Naming;
use ld_facts::{Fact, Facts};
use ld_task::{Chain, Kind};
use std::alloc::{AllocError, Global};
use std::marker::Model;

/// Facts that are asked about: where each first occurs, and what speaks against it.
#[derive(Drop)]
pub struct Asked {
    facts: Facts,
    // For each key whether a fact leads to it or marks it: most chains give nothing that is asked about, and are passed
    // over by the key of their lock alone.
    ends: Vec<bool>,
}

impl Model for Asked {
    ghost use Rattle.ld_explain.specs.Names.{FactParts};
    ghost use Rattle.ld_explain.specs.Inside.Taking.{AreEnds};

    ghost Value = { FactParts };

    ghost view = { λ a. a.facts };

    ghost invariant = { λ a. AreEnds a.facts a.ends.items };
}

impl Asked {
    /// No facts about the keys below `keys`, which is at most `MAX_KEYS`: then 34 MB are reserved. It fails only if memory is
    /// refused.
    pub fn new(alloc: Global, keys: u16) -> Result<Asked, AllocError>
        requires { keys ≤ MAX_KEYS }
        ensures keys { IfOk result (λ asked. asked.keys ≡ keys) }
        ensures none { IfOk result (λ asked. (x : Fact) → ¬ HasFact asked x) }
    {
        let facts = Facts::new(alloc, keys)?;
        let ends = vec![in alloc; false; usize::from(keys)]?;
        Ok(Asked { facts, ends })
    }

    /// The bound on the keys, at most `MAX_KEYS`.
    pub fn keys(&self) -> u16
        ensures value { result ≡ self.now.keys }
        ensures few { result ≤ MAX_KEYS }
    {
        self.facts.keys()
    }

    /// Whether the fact is asked about. False if a key isn't below the bound.
    pub fn has(&self, fact: Fact) -> bool
        ensures { IsTrue result ↔ HasFact self.now fact }
    {
        self.facts.has(fact)
    }

    /// Whether the dependency is asked about. False if a key isn't below the bound.
    pub fn has_dep(&self, from: u16, to: u16, kind: Kind) -> bool
        ensures { IsTrue result ↔ HasFact self.now (Fact.Dependency from to kind) }
    {
        self.facts.has_dep(from, to, kind)
    }

    /// Asks about a fact about keys below the bound too.
    pub fn add(&mut self, fact: Fact)
        requires { FactBelow self.old.keys fact }
        ensures keys { self.new.keys ≡ self.old.keys }
        ensures adds { Adds (HasFact self.old) (HasFact self.new) (λ x. x ≡ fact) }
    {
        self.facts.add(fact);
        let end = last_key(fact);
        self.ends[end] = true;
    }

    // Whether the chain may give a fact that is asked about. If not, it gives none.
    pub(crate) fn may_be_given(&self, chain: &Chain, naming: Naming<'_>) -> bool
        ensures { IsFalse result → (n : ℕ) (x : Fact) → named_fact (key_by naming.entry) chain.now n ≡ Some x → ¬ HasFact self.now x }
    {
        match chain.taken() {
            Some(new) => self.is_end(naming.of(new.0.get())),
            None => true,
        }
    }

    // Whether a fact that is asked about may lead to the key or mark it. If not, none does.
    fn is_end(&self, key: u16) -> bool
        ensures { IsFalse result → (x : Fact) → last_key x ≡ key → ¬ HasFact self.now x }
    {
        match self.ends.get(usize::from(key)) {
            Some(is_end) => *is_end,
            None => false,
        }
    }
}

// The key that a dependency leads to, or that has the mark.
fn last_key(fact: Fact) -> usize
    ensures { result ≡ last_key fact }
{
    match fact {
        Fact::Dependency { to, .. } => usize::from(to),
        Fact::Marked { key, .. } => usize::from(key),
    }
}
