//! Facts about lock keys, as bits in words of 64.

ghost use Rattle.std.specs.Prelude.{◌≡◌, ℕ, ◌+◌, ◌*◌, ◌<◌, ◌≤◌, ◌↔◌, IsTrue, IsFalse, IsNone, All, IfOk, IfSome, not, [], ◌∷◌, length, slice_get, slice_index};
ghost use Rattle.ld_task.specs.Chains.{ChainKeysBelow};
ghost use Rattle.ld_facts.specs.Inside.Bits.{has_bit};
ghost use Rattle.ld_facts.specs.Numbers.{bit_total, dependency_total};
ghost use Rattle.ld_facts.specs.Facts.{ChainHas, AreSame, Holds, Adds, DependenciesOf, MarksOf};
ghost use Rattle.ld_facts.specs.FactBits.{HasFact, FactBelow, SetsBit, UnitesWord, dependency_count, mark_count, rows_allowed, rows_for};
ghost use Rattle.ld_facts.specs.WordPairs.{word_total, NonePast, PairsHave};
ghost use Rattle.ld_facts.specs.Counting.{IsNumberOf};
ghost use Rattle.ld_facts.specs.Renaming.{Image};
ghost use Rattle.ld_task.specs.declared.kind.Kind.{Kind};
ghost use Rattle.ld_facts.specs.Inside.Rows.{IsNextFrom, row_place};
ghost use Rattle.ld_facts.specs.declared.fact.Fact.{Fact};
ghost use Rattle.ld_trace.specs.declared.key_id.TheConstants.{GRAPH_KEYS, MAX_KEYS};

use crate::dependency::Dependency;
use crate::fact::{Fact, fact_total, word_total};
use crate::pages::Pages;
use crate::{bits, chain_facts};
use ld_task::{Chain, Kind, Mark};
use std::alloc::{AllocError, Global};
use std::marker::Model;

/// Facts about the keys below a bound of at most `MAX_KEYS`: dependencies between them, and marks on them.
#[derive(Drop)]
pub struct Facts {
    keys: u16,
    bits: Pages,
    dependencies: u64,
    marks: u64,
}

impl Model for Facts {
    ghost use Rattle.ld_facts.specs.FactBits.{FactParts, AreCounted};

    ghost Value = { FactParts };

    ghost view = { λ f. record { keys = f.keys; words = f.bits } };

    ghost invariant = { λ f. AreCounted (record {
      keys = f.keys;
      words = f.bits;
    }) f.dependencies f.marks };
}

impl Facts {
    /// No facts about the keys below `keys`, which is at most `MAX_KEYS`: then memory for 34 MB of bits is reserved, of
    /// which each 512 bytes are used once one of their bits is set. It fails only if memory is refused.
    pub fn new(alloc: Global, keys: u16) -> Result<Facts, AllocError>
        requires { keys ≤ MAX_KEYS }
        ensures keys { IfOk result (λ f. f.keys ≡ keys) }
        ensures none { IfOk result (λ f. (x : Fact) → ¬ HasFact f x) }
        ensures dependency_count { IfOk result (λ f. dependency_count f ≡ 0) }
        ensures mark_count { IfOk result (λ f. mark_count f ≡ 0) }
    {
        let bits = Pages::new(alloc, word_total(keys))?;
        Ok(Facts {
            keys,
            bits,
            dependencies: 0,
            marks: 0,
        })
    }

    /// The bound on the keys, at most `MAX_KEYS`.
    pub fn keys(&self) -> u16
        ensures value { result ≡ self.now.keys }
        ensures few { result ≤ MAX_KEYS }
    {
        self.keys
    }

    /// Whether the fact is among the facts. False if a key isn't below the bound.
    pub fn has(&self, fact: Fact) -> bool
        ensures { IsTrue result ↔ HasFact self.now fact }
    {
        fact.is_below(self.keys) && self.bits.has(fact.number(self.keys))
    }

    /// Whether the dependency is among the facts. False if a key isn't below the bound.
    pub fn has_dep(&self, from: u16, to: u16, kind: Kind) -> bool
        ensures { IsTrue result ↔ HasFact self.now (Fact.Dependency from to kind) }
    {
        self.has(Fact::Dependency { from, to, kind })
    }

    /// Whether the key has the mark. False if the key isn't below the bound.
    pub fn has_mark(&self, key: u16, mark: Mark) -> bool
        ensures { IsTrue result ↔ HasFact self.now (Fact.Marked key mark) }
    {
        self.has(Fact::Marked { key, mark })
    }

    /// How many distinct dependencies there are, at most 262,144 for 256 keys.
    pub fn dependencies(&self) -> u64
        ensures count { result ≡ dependency_count self.now }
        ensures number { IsNumberOf (DependenciesOf (HasFact self.now)) result }
    {
        self.dependencies
    }

    /// How many distinct marks there are over all keys, at most 2,304 for 256 keys.
    pub fn marks(&self) -> u64
        ensures count { result ≡ mark_count self.now }
        ensures number { IsNumberOf (MarksOf (HasFact self.now)) result }
    {
        self.marks
    }

    /// Whether both have the same facts about the same keys.
    pub fn same(&self, other: &Facts) -> bool
        ensures exact { IsTrue result
            ↔ ((self.now.keys ≡ other.now.keys) × AreSame (HasFact self.now) (HasFact other.now)) }
        ensures equal { IsTrue result → self.now ≡ other.now }
    {
        self.keys == other.keys && self.bits.same(&other.bits)
    }

    /// Adds a fact about keys below the bound, and returns whether it is new. If it isn't, nothing changes.
    pub fn add(&mut self, fact: Fact) -> bool
        requires { FactBelow self.old.keys fact }
        ensures keys { self.new.keys ≡ self.old.keys }
        ensures adds { Adds (HasFact self.old) (HasFact self.new) (λ x. x ≡ fact) }
        ensures fresh { IsFalse result ↔ HasFact self.old fact }
        ensures known { IsFalse result → self.new ≡ self.old }
        ensures allowed { IsTrue result
            → rows_allowed self.new ≡ rows_allowed self.old + rows_for fact }
    {
        let n = fact.number(self.keys);
        self.add_bit(n)
    }

    /// Adds the facts of a chain whose keys are below the bound, and returns whether one of them is new. If none is,
    /// nothing changes.
    pub fn add_chain(&mut self, chain: &Chain) -> bool
        requires { ChainKeysBelow self.old.keys chain.now }
        ensures keys { self.new.keys ≡ self.old.keys }
        ensures adds { Adds (HasFact self.old) (HasFact self.new) (ChainHas chain.now) }
        ensures fresh { IsFalse result ↔ Holds (HasFact self.old) (ChainHas chain.now) }
        ensures known { IsFalse result → self.new ≡ self.old }
    {
        let mut fresh = false;
        for n in 0..chain_facts::fact_slots(chain) {
            if let Some(fact) = chain_facts::fact_in_slot(chain, n) {
                fresh |= self.add(fact);
            }
        }
        fresh
    }

    /// Adds the facts of a chain by what its keys are called: the key at place `k` of `others` for the key `k`. The list has a
    /// place for each key of the chain, and its keys are below the bound.
    pub fn add_chain_by(&mut self, chain: &Chain, others: &[u16])
        requires all { ChainKeysBelow (length others.now) chain.now }
        requires below { All (λ key. key < self.old.keys) others.now }
        ensures keys { self.new.keys ≡ self.old.keys }
        ensures adds { Adds (HasFact self.old) (HasFact self.new) (Image (slice_index others.now) (ChainHas chain.now)) }
    {
        for slot in 0..chain_facts::fact_slots(chain) {
            if let Some(fact) = chain_facts::fact_in_slot(chain, slot) {
                self.add(fact.at_places(others));
            }
        }
    }

    /// Adds all facts of `other`, which is about the same keys.
    pub fn unite(&mut self, other: &Facts)
        requires { self.old.keys ≡ other.now.keys }
        ensures keys { self.new.keys ≡ self.old.keys }
        ensures adds { Adds (HasFact self.old) (HasFact self.new) (HasFact other.now) }
    {
        for i in 0..other.bits.len() {
            self.unite_word(i, other.bits.word(i));
        }
    }

    /// How many words hold the facts' bits: 1 for 2 keys, 4,132 for 256.
    pub fn words(&self) -> usize
        ensures count { result ≡ word_total self.now.keys }
        ensures all { result ≡ length self.now.words }
    {
        self.bits.len()
    }

    /// The facts' bits of word `n`. None exactly if `n` isn't below the number of words.
    pub fn word(&self, n: usize) -> Option<u64>
        ensures value { result ≡ slice_get self.now.words n }
        ensures none { IsNone result ↔ (word_total self.now.keys ≤ n) }
    {
        (n < self.bits.len()).then(|| self.bits.word(n))
    }

    /// Adds the facts that bits of word `n` stand for. There has to be such a word, and none of the bits may be past
    /// the last one.
    pub fn unite_word(&mut self, n: usize, bits: u64)
        requires below { n < word_total self.old.keys }
        requires none_past { NonePast self.old.keys (n, bits) }
        ensures unites { UnitesWord self.old self.new n bits }
        ensures adds { Adds (HasFact self.old) (HasFact self.new)
            (PairsHave self.old.keys ((n, bits) ∷ [])) }
    {
        if bits::is_within(bits, self.bits.word(n)) {
            return;
        }
        for k in 0..64 {
            if bits::is_set(bits, k) {
                self.add_bit(n * 64 + k);
            }
        }
    }
}

impl Facts {
    /// The next dependency from the key: the first that stands at the place `n` of their row or later.
    pub fn next_from(&self, from: u16, n: usize) -> Option<Dependency>
        requires few { self.now.keys ≤ GRAPH_KEYS }
        requires within { n ≤ GRAPH_KEYS * 4 }
        ensures none { IsNone result → (to : ℕ) (kind : Kind) → n ≤ row_place to kind
            → ¬ HasFact self.now (Fact.Dependency from to kind) }
        ensures some { IfSome result (λ dependency. IsNextFrom self.now from n dependency) }
    {
        if from >= self.keys {
            return None;
        }
        let row = usize::from(from) * usize::from(self.keys) * 4;
        let end = row + usize::from(self.keys) * 4;
        let bit = self.bits.first_between(row + n, end)?;
        Some(Dependency::at(from, bit - row))
    }

    /// Whether there is a dependency from the key, to whichever other.
    pub fn leads_on(&self, from: u16) -> bool
        ensures { IsTrue result ↔ ((to : ℕ) × (kind : Kind) × HasFact self.now (Fact.Dependency from to kind)) }
    {
        if from >= self.keys {
            return false;
        }
        let row = usize::from(self.keys) * 4;
        let start = usize::from(from) * row;
        match self.bits.first_between(start, start + row) {
            Some(_) => true,
            None => false,
        }
    }

    /// Whether there is a dependency from the one key to the other, of whichever kind.
    pub fn leads(&self, from: u16, to: u16) -> bool
        ensures { IsTrue result ↔ ((kind : Kind) × HasFact self.now (Fact.Dependency from to kind)) }
    {
        if from >= self.keys || to >= self.keys {
            return false;
        }
        let start = (usize::from(from) * usize::from(self.keys) + usize::from(to)) * 4;
        match self.bits.first_between(start, start + 4) {
            Some(_) => true,
            None => false,
        }
    }

    /// The number of the first dependency whose number is `n` or more.
    pub fn next_dependency(&self, n: usize) -> Option<usize>
        ensures none { IsNone result
            → (k : ℕ) → n ≤ k → k < dependency_total self.now.keys → IsFalse (has_bit self.now.words k) }
        ensures some { IfSome result (λ found. (n ≤ found) × (found < dependency_total self.now.keys)
            × IsTrue (has_bit self.now.words found)
            × ((k : ℕ) → n ≤ k → k < found → IsFalse (has_bit self.now.words k))) }
    {
        let keys = usize::from(self.keys);
        self.bits.first_between(n, keys * keys * 4)
    }

    // The number of the first fact whose number is `n` or more.
    pub(crate) fn next_fact(&self, n: usize) -> Option<usize>
        ensures none { IsNone result
            → (k : ℕ) → n ≤ k → k < bit_total self.now.keys → IsFalse (has_bit self.now.words k) }
        ensures some { IfSome result (λ found. (n ≤ found) × (found < bit_total self.now.keys)
            × IsTrue (has_bit self.now.words found)
            × ((k : ℕ) → n ≤ k → k < found → IsFalse (has_bit self.now.words k))) }
    {
        self.bits.first_between(n, fact_total(self.keys))
    }

    // Sets a bit, and returns whether it is new.
    fn add_bit(&mut self, n: usize) -> bool
        requires { n < bit_total self.old.keys }
        ensures sets { SetsBit self.old self.new n }
        ensures fresh { result ≡ not (has_bit self.old.words n) }
        ensures known { IsFalse result → self.new ≡ self.old }
    {
        if self.bits.has(n) {
            return false;
        }
        self.bits.insert(n);
        let keys = usize::from(self.keys);
        if n < keys * keys * 4 {
            self.dependencies += 1;
        } else {
            self.marks += 1;
        }
        true
    }
}
